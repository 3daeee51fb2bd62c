// The match of one rule: from its rows and queries in words, with the state in words too and the variables lent, so that nothing is copied.
#![tactic(auto)]

ghost use Rattle.std.specs.Prelude.{if◌then◌else◌, ◌≡◌, ℕ, ◌+◌, ◌*◌, ◌/◌, ◌%◌, ◌≤◌, length, replicate};
ghost use Rattle.meaning.specs.Base.{same};
ghost use Rattle.meaning.specs.Model.{Rule};
ghost use Rattle.meaning.specs.Image.{ask_of};
ghost use Rattle.meaning.specs.Match.{queries_hold, entry_of};
ghost use Rattle.layout.specs.Rows.{word_term, tests_in, queries_at};
ghost use Rattle.match_rule.specs.Run.{term_run, tests_run, rule_run, no_vars, on, stop};
ghost use Rattle.layout.specs.StateWords.{buffers_in, state_in};
ghost use Rattle.match_rule.specs.Words.{vars_in, StandsAt};
ghost use Rattle.match_rule.specs.Shut.{is_hit, why_of, asked, Because, Made};

use layout::{QUERIES_AT, ROW_WORDS};
use prepared::RuleWords;

/// What trying to match a rule gives: it matches; a word of the state, by its number, has another value than the one wanted;
/// or a variable has two values, or none, or a buffer that must be busy is not. (Three cases, so neither an `Option` nor a `Result`.)
#[derive(Clone, Copy, Debug, PartialEq, Eq)]
pub enum Tried {
    Hit,
    Differs { place: u16, wanted: u16 },
    Varies,
}

// One term against a slot's value: a symbol is compared; a variable is bound at its first place, where nil fails, and compared at every later one.
// bound: which of the eight variables are bound; their values stand in the rule's entry, where they are to be.
fn match_term(bound: &mut [u16], nine: &mut [u16], value: u16, term: u16) -> bool
    requires { (length bound.old ≡ 8) × (length nine.old ≡ 9) }
    ensures { (if result then on (vars_in bound.new nine.new) else stop) ≡ term_run value (word_term term) (vars_in bound.old nine.old) }
{
    if term < 4096 {
        return value == term;
    }
    let k = (term % 8) as usize;
    if bound[k] == 0 {
        bound[k] = 1;
        nine[1 + k] = value;
        return value != 0;
    }
    nine[1 + k] == value
}

// Why a slot's value is not what a term wants: it is another symbol than the one wanted at that place of the state, or a variable has two values or none.
fn why(place: u16, term: u16) -> Tried
    ensures { result ≡ why_of place term }
{
    if 4096 <= term {
        return Tried::Varies;
    }
    Tried::Differs {
        place,
        wanted: term,
    }
}

// Whether the n tests that stand in words from o on hold in a state, with the variables in bound and nine, and why not;
// at the first slot that differs the whole rule is given up. What is left of a mask has the bit of slot b at 128, and no slot is looked at once it is 0.
// The walk over the mask and the count of the tests stay by hand, for speed, as docs/SPEED.md says.
// (Always set into its caller, as are `match_queries`, `match_words` and `entry_into` below, for speed too.)
#[inline(always)]
fn match_tests(
    words: &[u16],
    o: usize,
    n: usize,
    state: &[u16],
    bound: &mut [u16],
    nine: &mut [u16],
) -> Tried
    requires { (o + 11 * n ≤ length words.now) × (88 ≤ length state.now) × (length bound.old ≡ 8) × (length nine.old ≡ 9) × (vars_in bound.old nine.old ≡ no_vars) }
    ensures stop_after { (if is_hit result then on (vars_in bound.new nine.new) else stop) ≡ tests_run (buffers_in state.now) (tests_in words.now o n) no_vars }
    ensures because { Because result words.now o n state.now }
{
    let mut q = o;
    let mut i = 0;
    let mut tried = Tried::Hit;
    'tests: while i < n {
        let p = 11 * (words[q] % 8);
        let k = p as usize;
        if state[k + 9] != 0 {
            tried = Tried::Differs {
                place: p + 9,
                wanted: 0,
            };
            break;
        }
        if state[k] != words[q + 1] {
            tried = Tried::Differs {
                place: p,
                wanted: words[q + 1],
            };
            break;
        }
        let mut rest = words[q + 2] % 256;
        let mut b = 0;
        while rest != 0 {
            if 128 <= rest {
                if !match_term(bound, nine, state[k + 1 + b], words[q + 3 + b]) {
                    tried = why(p + 1 + b as u16, words[q + 3 + b]);
                    break 'tests;
                }
            }
            rest = rest * 2 % 256;
            b += 1;
        }
        q += 11;
        i += 1;
    }
    tried
}

// Whether a query holds in a state, and why not. A busy buffer has any delay but 0: no value is wanted there.
fn ask(query: u16, state: &[u16]) -> Tried
    requires { 88 ≤ length state.now }
    ensures { result ≡ asked (ask_of (query / 8)) (11 * (query % 8)) state.now }
{
    let p = 11 * (query % 8);
    let k = p as usize;
    let kind = query / 8;
    let delay = state[k + 9];
    if kind == 0 {
        if delay == 0 {
            return Tried::Varies;
        }
        return Tried::Hit;
    }
    if delay != 0 {
        return Tried::Differs {
            place: p + 9,
            wanted: 0,
        };
    }
    if kind == 1 {
        return Tried::Hit;
    }
    if state[k + 10] != 1 {
        return Tried::Differs {
            place: p + 10,
            wanted: 1,
        };
    }
    Tried::Hit
}

// Whether the queries of a rule hold in a state, and why not; they are left at the first that does not.
#[inline(always)]
fn match_queries(rule: &RuleWords, state: &[u16]) -> Tried
    requires { 88 ≤ length state.now }
    ensures by_index { (clock : ℕ) → is_hit result ≡ queries_hold (queries_at rule.now.words rule.now.at) (state_in state.now clock) }
    ensures because { (n : ℕ) → Because result rule.now.words rule.now.at n state.now }
{
    let words = rule.words();
    let o = rule.at();
    let m = rule.queries();
    for i in 0..m {
        let tried = ask(words[o + QUERIES_AT + i], state);
        if tried != Tried::Hit {
            return tried;
        }
    }
    Tried::Hit
}

// Whether the tests of a rule hold, and then its queries, with the variables in bound and nine, and why not.
#[inline(always)]
fn match_words(rule: &RuleWords, state: &[u16], bound: &mut [u16], nine: &mut [u16]) -> Tried
    requires { (88 ≤ length state.now) × (length bound.old ≡ 8) × (length nine.old ≡ 9) × (vars_in bound.old nine.old ≡ no_vars) }
    ensures by_index { (clock : ℕ) → (if is_hit result then on (vars_in bound.new nine.new) else stop)
        ≡ rule_run (state_in state.now clock) (tests_in rule.now.words rule.now.at rule.now.tests) (queries_at rule.now.words rule.now.at) }
    ensures because { Because result rule.now.words rule.now.at rule.now.tests state.now }
{
    let tried = match_tests(rule.words(), rule.at(), rule.tests(), state, bound, nine);
    if let Tried::Hit = tried {
        return match_queries(rule, state);
    }
    tried
}

/// The entry of a rule that does not match, into nine words.
pub fn no_entry(nine: &mut [u16])
    requires { length nine.old ≡ 9 }
    ensures { nine.new ≡ replicate 9 0 }
{
    nine.fill(0);
}

/// The fresh entry of a rule, into nine words; and why it does not match.
pub fn try_into(nine: &mut [u16], rule: &RuleWords, state: &[u16]) -> Tried
    requires { (length nine.old ≡ 9) × (88 ≤ length state.now) }
    ensures { Made result nine.new rule.now.words rule.now.at rule.now.tests state.now }
{
    no_entry(nine);
    let mut bound = [0u16; 8];
    let tried = match_words(rule, state, &mut bound, nine);
    if let Tried::Hit = tried {
        nine[0] = 1;
    } else {
        no_entry(nine);
    }
    tried
}

/// The same, for whoever does not ask why.
// (Written out, and not by `try_into`, for speed, as docs/SPEED.md says: so it is set into its caller without the reason, and `try_into` is left as it is.)
#[inline(always)]
pub fn entry_into(nine: &mut [u16], rule: &RuleWords, state: &[u16])
    requires { (length nine.old ≡ 9) × (88 ≤ length state.now) }
    ensures { (r : Rule) (clock : ℕ) → StandsAt r rule.now.words rule.now.at rule.now.tests → nine.new ≡ entry_of r (state_in state.now clock) }
{
    no_entry(nine);
    let mut bound = [0u16; 8];
    let tried = match_words(rule, state, &mut bound, nine);
    if let Tried::Hit = tried {
        nine[0] = 1;
    } else {
        no_entry(nine);
    }
}

/// Whether two entries are the same, word for word.
pub fn same_entry(nine: &[u16], other: &[u16]) -> bool
    requires { (length nine.now ≡ 9) × (length other.now ≡ 9) }
    ensures { result ≡ same nine.now other.now }
{
    nine == other
}
