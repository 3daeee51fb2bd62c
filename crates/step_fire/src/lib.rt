// Firing: what a rule's actions make of a state, in place on its 88 words.
// Every delay loses 50 ms, then each action makes its buffer anew from its type and slots, the rule's nine words and the facts alone:
// so none sees what was made of another, nor what was left of its own delay.
#![tactic(auto)]

ghost use Rattle.std.specs.Prelude.{◌≡◌, true, ℕ, ◌+◌, ◌*◌, ◌≤◌, ◌<◌, length};
ghost use Rattle.std.proofs.Math.Option.{some};
ghost use Rattle.meaning.specs.Model.{Rule};
ghost use Rattle.meaning.specs.Fire.{done, deed_on, fire};
ghost use Rattle.meaning.specs.Mark.{acted_on, mark_of};
ghost use Rattle.layout.specs.Rows.{action_in, actions_in};
ghost use Rattle.layout.specs.StateWords.{buffer_in, state_in};
ghost use Rattle.layout.specs.Plans.{facts_on, rows_on};
ghost use Rattle.step_retrieve.specs.Chains.{ChainsOn};
ghost use Rattle.step_wait.specs.Remade.{Remade};
ghost use Rattle.step_fire.specs.Acts.{ActedMask, acting};

use layout::ROW_WORDS;
use prepared::Prepared;

// The buffers that the m action rows from o on are on, buffer b with weight 2 to the power b.
fn acted_mask(words: &[u16], o: usize, m: usize) -> u16
    requires { o + 11 * m ≤ length words.now }
    ensures { ActedMask (actions_in words.now o m) result }
{
    let mut mask = 0;
    for i in 0..m {
        mask |= 1u16 << (words[o + ROW_WORDS * i] % 8);
    }
    mask
}

// Where the first of the m action rows from o on that is on buffer k starts. One of them is, so it is the last if no other is.
fn action_on(words: &[u16], o: usize, m: usize, k: usize) -> usize
    requires { (o + 11 * m ≤ length words.now) × (acted_on (actions_in words.now o m) k ≡ true) }
    ensures { (deed_on (actions_in words.now o m) k ≡ some (action_in words.now result).deed) × (result + 11 ≤ length words.now) }
{
    let last = m - 1;
    for i in 0..last {
        let q = o + ROW_WORDS * i;
        if (words[q] % 8) as usize == k {
            return q;
        }
    }
    o + ROW_WORDS * last
}

// Does the action at q of the rows on buffer k.
fn perform(state: &mut [u16], k: usize, image: &Prepared, q: usize, nine: &[u16])
    requires { (88 ≤ length state.old) × (k < 8) × (q + 11 ≤ length (rows_on image.now.plan image.now.tape)) × (9 ≤ length nine.now) × ChainsOn image.now.plan image.now.tape }
    ensures { Remade state.old state.new k
        (done image.now.plan.failure (facts_on image.now.plan image.now.tape) nine.now (buffer_in state.old k) (action_in (rows_on image.now.plan image.now.tape) q).deed) }
{
    let words = image.rows();
    match words[q + 1] {
        0 => step_effect::modify(state, k, words, q, nine),
        1..=63 => step_effect::request(state, k, image, q, nine),
        _ => step_effect::nil(state, k, 0, step_effect::CLEAR),
    }
}

// Does the m actions from o on, each on its buffer, where `acted` tells the buffers that they are on. The other buffers stay.
fn act_all(state: &mut [u16], image: &Prepared, o: usize, m: usize, nine: &[u16], acted: u16)
    requires { (88 ≤ length state.old) × (o + 11 * m ≤ length (rows_on image.now.plan image.now.tape)) × (9 ≤ length nine.now) × ChainsOn image.now.plan image.now.tape
        × ActedMask (actions_in (rows_on image.now.plan image.now.tape) o m) acted }
    ensures { (k : ℕ) → buffer_in state.new k
        ≡ acting image.now.plan.failure (facts_on image.now.plan image.now.tape) nine.now (buffer_in state.old k) (deed_on (actions_in (rows_on image.now.plan image.now.tape) o m) k) }
{
    let rows = image.rows();
    let mut rest = acted as u64;
    // a walk from bit to bit, for speed: few buffers are acted on
    while rest != 0 {
        let k = match_sets::lowest(rest);
        let q = action_on(rows, o, m, k);
        perform(state, k, image, q, nine);
        rest = match_sets::drop_lowest(rest);
    }
}

/// Fires a rule with the m actions from o on and the nine words of its entry; the mark of the buffers acted on or arrived.
/// A buffer acted on that would have arrived without its action is in both masks.
pub fn fire(state: &mut [u16], image: &Prepared, o: usize, m: usize, nine: &[u16]) -> u16
    requires { (88 ≤ length state.old) × (o + 11 * m ≤ length (rows_on image.now.plan image.now.tape)) × (m ≤ 8) × (9 ≤ length nine.now) × ChainsOn image.now.plan image.now.tape }
    ensures by_index { (clock : ℕ) (r : Rule) → r.actions ≡ actions_in (rows_on image.now.plan image.now.tape) o m
        → state_in state.new (clock + 50) ≡ fire image.now.plan.failure (facts_on image.now.plan image.now.tape) r nine.now (state_in state.old clock) }
    ensures mark { (clock clock' : ℕ) → result ≡ mark_of (actions_in (rows_on image.now.plan image.now.tape) o m) (state_in state.old clock) (state_in state.new clock') }
{
    let acted = acted_mask(image.rows(), o, m);
    let arrived = step_wait::wait(state, 50);
    act_all(state, image, o, m, nine, acted);
    arrived | acted
}
