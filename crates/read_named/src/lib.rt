// What a rule's words name: the variables that stand in its tests, and the buffers that it tests or queries.
// Each set of numbers below eight is a mask, in which number b has weight 2 to the power b.
#![tactic(auto)]

ghost use Rattle.std.specs.Prelude.{◌≡◌, ◌||◌, ◌+◌, ◌*◌, ◌≤◌, length, get_or};
ghost use Rattle.meaning.specs.Base.{every, up_from, bit};
ghost use Rattle.meaning.specs.Image.{is_variable, stands_in, is_tested};
ghost use Rattle.laws.specs.RefreshLaws.{is_queried};
ghost use Rattle.layout.specs.Rows.{word_term, tests_in, queries_at};
ghost use Rattle.read_named.specs.Masks.{Holds, stands_at, names_buffer};

use layout::{ASKED_AT, QUERIES_AT, ROW_WORDS};

// The mask with the variable that the term is, if it is one.
#[tactic(auto, using(crate::proofs::SeenLaws::with_variable))]
fn with_term(mask: u16, term: u16) -> u16
    ensures { Holds (λ v. bit mask v || is_variable v (word_term term)) result }
{
    if term < 4096 {
        return mask;
    }
    mask | (1u16 << (term % 8))
}

// The mask with the variables of the test at q.
#[tactic(auto, using(crate::proofs::SeenLaws::slots_start))]
fn with_test(mask: u16, words: &[u16], q: usize) -> u16
    requires { q + 11 ≤ length words.now }
    ensures { Holds (λ v. bit mask v || stands_at words.now q v) result }
{
    let named = words[q + 2];
    let mut seen = mask;
    for slot in 0..8 {
        if (named >> (7 - slot)) & 1 == 1 {
            seen = with_term(seen, words[q + 3 + slot]);
        }
    }
    seen
}

// The variables that stand in the n tests from o on.
#[tactic(auto, using(crate::proofs::SeenLaws::no_test))]
fn variables_in(words: &[u16], o: usize, n: usize) -> u16
    requires { o + 11 * n ≤ length words.now }
    ensures { Holds (stands_in (tests_in words.now o n)) result }
{
    let mut seen = 0;
    for i in 0..n {
        seen = with_test(seen, words, o + ROW_WORDS * i);
    }
    seen
}

/// Whether every variable below `variables` stands in one of the n tests from o on; without variables no test is looked at.
#[tactic(auto, using(crate::proofs::SeenLaws::holds_every))]
pub fn stood(words: &[u16], o: usize, n: usize, variables: u16) -> bool
    requires { (o + 11 * n ≤ length words.now) × (n ≤ 8) × (variables ≤ 8) }
    ensures { result ≡ every (stands_in (tests_in words.now o n)) (up_from 0 variables) }
{
    if variables == 0 {
        return true;
    }
    let every = (1u16 << variables) - 1;
    variables_in(words, o, n) & every == every
}

// The buffers that n words name, the first at o and each `step` words after the one before it.
#[tactic(auto, using(crate::proofs::SeenLaws::no_buffer, crate::proofs::SeenLaws::one_buffer))]
fn buffers_in(words: &[u16], o: usize, step: usize, n: usize) -> u16
    requires { (o + step * n ≤ length words.now) × (1 ≤ step) }
    ensures { Holds (names_buffer words.now o step n) result }
{
    let mut mask = 0;
    for i in 0..n {
        mask |= 1u16 << (words[o + step * i] % 8);
    }
    mask
}

/// The buffers that the rule whose words begin at o looks at: those that its n tests test, and those that its queries ask about.
#[tactic(auto, using(crate::proofs::SeenLaws::both_hold))]
pub fn looked_at(words: &[u16], o: usize, n: usize) -> u16
    requires { (o + 97 ≤ length words.now) × (n ≤ 8) × (get_or words.now (o + 88) 0 ≤ 8) }
    ensures { Holds (λ b. is_tested (tests_in words.now o n) b || is_queried (queries_at words.now o) b) result }
{
    let asked = words[o + ASKED_AT] as usize;
    let tested = buffers_in(words, o, ROW_WORDS, n);
    tested | buffers_in(words, o + QUERIES_AT, 1, asked)
}
