// One rule matched by itself: it is given up at its first slot that differs, and until a variable is met or all its tests hold nothing is written for it.
#![tactic(auto)]

ghost use Rattle.std.specs.Prelude.{◌≡◌, ◌∷◌, ℕ, ◌+◌, ◌*◌, ◌/◌, ◌%◌, ◌≤◌, length, get_or, replicate};
ghost use Rattle.meaning.specs.Image.{ask_of};
ghost use Rattle.meaning.specs.Match.{answers, queries_hold};
ghost use Rattle.layout.specs.Rows.{queries_at};
ghost use Rattle.layout.specs.StateWords.{buffer_in, state_in};
ghost use Rattle.fresh_match.specs.Hits.{LookMet, HitMet};

use layout::{ASKED_AT, QUERIES_AT, ROW_WORDS};
use prepared::RuleWords;

/// What a look at the tests of a rule finds, as far as its first variable: something differs; all of them hold, and there is no variable; or a variable is met.
/// (Three cases, so neither an `Option` nor a `Result`.)
#[derive(Clone, Copy, Debug, PartialEq, Eq)]
pub enum Looked {
    Differs,
    Holds,
    Meets,
}

// Looks at the n tests that stand in words from o on: whether each buffer is visible and of the test's type, and each named slot has its symbol.
// What is left of a mask has the bit of slot b at 128, and no slot is looked at once it is 0.
// The walk over the mask and the count of the tests stay by hand, for speed, as docs/SPEED.md says.
fn look(words: &[u16], o: usize, n: usize, state: &[u16]) -> Looked
    requires { (o + 11 * n ≤ length words.now) × (88 ≤ length state.now) }
    ensures { LookMet result words.now o n state.now }
{
    let mut q = o;
    let mut i = 0;
    while i < n {
        let k = 11 * (words[q] % 8) as usize;
        if state[k + 9] != 0 {
            return Looked::Differs;
        }
        if state[k] != words[q + 1] {
            return Looked::Differs;
        }
        let mut rest = words[q + 2] % 256;
        let mut b = 0;
        while rest != 0 {
            if 128 <= rest {
                let term = words[q + 3 + b];
                if 4096 <= term {
                    return Looked::Meets;
                }
                if state[k + 1 + b] != term {
                    return Looked::Differs;
                }
            }
            rest = rest * 2 % 256;
            b += 1;
        }
        q += 11;
        i += 1;
    }
    Looked::Holds
}

// Whether a query holds in a state. (Not by `match_rule::ask`: this engine shares with the kept one the match of a rule with variables alone, docs/DECISIONS.md, 66.)
fn answers(query: u16, state: &[u16]) -> bool
    requires { 88 ≤ length state.now }
    ensures { result ≡ answers (ask_of (query / 8)) (buffer_in state.now (query % 8)) }
{
    let k = 11 * (query % 8) as usize;
    let kind = query / 8;
    let delay = state[k + 9];
    if kind == 0 {
        return delay != 0;
    }
    if kind == 1 {
        return delay == 0;
    }
    if delay != 0 {
        return false;
    }
    state[k + 10] == 1
}

// Whether the queries of the rule whose words start at o hold in a state; they are left at the first that does not.
// (Never set into its caller, for speed, as docs/SPEED.md says: a rule comes here only if its tests hold, and the loop over all rules is short without it.)
#[inline(never)]
fn held(words: &[u16], o: usize, state: &[u16]) -> bool
    requires { (o + 97 ≤ length words.now) × (get_or words.now (o + 88) 0 ≤ 8) × (88 ≤ length state.now) }
    ensures { (clock : ℕ) → result ≡ queries_hold (queries_at words.now o) (state_in state.now clock) }
{
    let m = words[o + ASKED_AT] as usize;
    for asked in 0..m {
        if !answers(words[o + QUERIES_AT + asked], state) {
            return false;
        }
    }
    true
}

// The entry of a rule that matches and has no variable, into nine words.
fn plain_entry(nine: &mut [u16])
    requires { length nine.old ≡ 9 }
    ensures { nine.new ≡ 1 ∷ replicate 8 0 }
{
    nine.copy_from_slice(&[1, 0, 0, 0, 0, 0, 0, 0, 0]);
}

// The entry of the rule whose words start at o, with n tests, into nine words, and whether it matches.
// (Always set into its caller, with the match of `match_rule`, for speed, as docs/SPEED.md says.)
#[inline(always)]
fn whole_match(nine: &mut [u16], words: &[u16], o: usize, n: usize, state: &[u16]) -> bool
    requires { (length nine.old ≡ 9) × (n ≤ 8) × (o + 97 ≤ length words.now) × (get_or words.now (o + 88) 0 ≤ 8) × (88 ≤ length state.now) }
    ensures { HitMet result nine.new words.now o n state.now }
{
    let rule = RuleWords::new(words, o, n);
    match_rule::entry_into(nine, &rule, state);
    nine[0] == 1
}

/// Whether the rule whose words start at o, with n tests, matches; if it does, the nine words are its entry.
// (On words, and not on a `RuleWords`, for speed: such a value would be stored for each rule at each step, and is lent on only where a variable is met.)
pub fn hits(nine: &mut [u16], words: &[u16], o: usize, n: usize, state: &[u16]) -> bool
    requires { (length nine.old ≡ 9) × (n ≤ 8) × (o + 97 ≤ length words.now) × (get_or words.now (o + 88) 0 ≤ 8) × (88 ≤ length state.now) }
    ensures { HitMet result nine.new words.now o n state.now }
{
    match look(words, o, n, state) {
        Looked::Differs => false,
        Looked::Holds => {
            plain_entry(nine);
            held(words, o, state)
        }
        Looked::Meets => whole_match(nine, words, o, n, state),
    }
}
