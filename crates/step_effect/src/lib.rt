// What one action makes of its buffer, in place on the buffer's eleven words.
#![tactic(auto)]

ghost use Rattle.std.specs.Prelude.{◌+◌, ◌*◌, ◌≤◌, ◌<◌, length, get_or};
ghost use Rattle.meaning.specs.Retrieval.{retrieve, retrieved};
ghost use Rattle.layout.specs.Rows.{masked_in};
ghost use Rattle.layout.specs.StateWords.{buffer_in};
ghost use Rattle.layout.specs.Plans.{facts_on, rows_on};
ghost use Rattle.step_retrieve.specs.Chains.{ChainsOn};
ghost use Rattle.step_wait.specs.Remade.{Remade};
ghost use Rattle.step_effect.specs.Deeds.{chunk_in, nil_in, modified};

use layout::{BUFFER_WORDS, ROW_WORDS};
use prepared::Prepared;

/// The word of a buffer's error flag.
pub const CLEAR: u16 = 0;

const SET: u16 = 1;

// Writes a chunk over buffer k: its type, eight words of `from` that start at `at`, its delay, and the word of its error flag.
fn fill(state: &mut [u16], k: usize, isa: u16, from: &[u16], at: usize, delay: u16, flag: u16)
    requires { (88 ≤ length state.old) × (k < 8) × (at + 8 ≤ length from.now) }
    ensures { Remade state.old state.new k (chunk_in isa from.now at delay flag) }
{
    let o = BUFFER_WORDS * k;
    state[o + 1..o + 9].copy_from_slice(&from[at..at + 8]);
    state[o] = isa;
    state[o + 9] = delay;
    state[o + 10] = flag;
}

/// Writes nil over buffer k, visible after some ms, with the word of its error flag.
#[tactic(auto, unfolding(layout::specs::Rows::rows_in))]
pub fn nil(state: &mut [u16], k: usize, delay: u16, flag: u16)
    requires { (88 ≤ length state.old) × (k < 8) }
    ensures { Remade state.old state.new k (nil_in delay flag) }
{
    fill(state, k, 0, &[0; 8], 0, delay, flag);
}

/// Writes the values of the terms of the action at q into the slots of buffer k that it names, makes it visible, and clears its error flag.
pub fn modify(state: &mut [u16], k: usize, words: &[u16], q: usize, nine: &[u16])
    requires { (88 ≤ length state.old) × (k < 8) × (q + 11 ≤ length words.now) × (9 ≤ length nine.now) }
    ensures { Remade state.old state.new k (modified (masked_in words.now q) nine.now (buffer_in state.old k)) }
{
    let mask = words[q + 2];
    for slot in 0..8 {
        if step_retrieve::is_named(mask, slot) {
            state[BUFFER_WORDS * k + 1 + slot] = step_retrieve::value_of(nine, words[q + 3 + slot]);
        }
    }
    state[BUFFER_WORDS * k + 9] = 0;
    state[BUFFER_WORDS * k + 10] = CLEAR;
}

/// Writes over buffer k the fact that the request at q of the rows finds, with its latency as the delay and the error flag clear;
/// or nil with the failure latency and the error flag set.
pub fn request(state: &mut [u16], k: usize, image: &Prepared, q: usize, nine: &[u16])
    requires { (88 ≤ length state.old) × (k < 8) × (q + 11 ≤ length (rows_on image.now.plan image.now.tape)) × (9 ≤ length nine.now) × ChainsOn image.now.plan image.now.tape }
    ensures { Remade state.old state.new k (retrieved image.now.plan.failure
        (retrieve (facts_on image.now.plan image.now.tape) (get_or (rows_on image.now.plan image.now.tape) (q + 1) 0) (masked_in (rows_on image.now.plan image.now.tape) q) nine.now)) }
{
    let plan = image.plan();
    let facts = image.facts();
    let n = plan.facts as usize;
    match step_retrieve::retrieve(facts, image.chains(), n, image.rows(), q, nine) {
        Some(i) => {
            let f = ROW_WORDS * i;
            fill(state, k, facts[f], facts, f + 3, facts[f + 2], CLEAR);
        }
        None => {
            nil(state, k, plan.failure, SET);
        }
    }
}
