// The choice of a rule with nothing kept: every rule is matched from the words of the state, and the best so far is its number and its nine words.
#![tactic(auto)]

ghost use Rattle.std.specs.Prelude.{◌≡◌, ℕ, ◌≤◌, length};
ghost use Rattle.meaning.specs.Choice.{utilities};
ghost use Rattle.meaning.specs.Fresh.{choose_fresh};
ghost use Rattle.layout.specs.Rows.{rules_in, Laid};
ghost use Rattle.layout.specs.StateWords.{state_in};
ghost use Rattle.match_best.specs.Chosen.{Below};
ghost use Rattle.fresh_best.specs.Matched.{matched_of, Entered};

use layout::{ENTRY_WORDS, HEAD_WORDS, RULE_WORDS};

/// Of n rules, each matched afresh, the one that is chosen; its entry goes to nine lent words.
// (A function of its own, and never set into a run, for speed: its loop has fewer instructions so, as docs/SPEED.md says.)
#[inline(never)]
pub fn best(
    heads: &[u16],
    words: &[u16],
    n: usize,
    state: &[u16],
    nine: &mut [u16],
) -> Option<usize>
    requires { Laid heads.now words.now n × (88 ≤ length state.now) × (length nine.old ≡ 9) }
    ensures by_index { (clock : ℕ) → choose_fresh (rules_in heads.now words.now n)
        (utilities (rules_in heads.now words.now n)) (state_in state.now clock)
        ≡ matched_of heads.now words.now (state_in state.now clock) result }
    ensures entry { Entered heads.now words.now state.now result nine.new }
    ensures below { Below result n }
{
    let mut trial = [0u16; ENTRY_WORDS];
    let mut best = None;
    let mut top = 0u32;
    for k in 0..n {
        let tests = heads[HEAD_WORDS * k] as usize;
        if fresh_match::hits(&mut trial, words, RULE_WORDS * k, tests, state) {
            let height = match_best::key(heads[HEAD_WORDS * k + 2]);
            if top < height {
                nine.copy_from_slice(&trial);
                best = Some(k);
                top = height;
            }
        }
    }
    best
}
