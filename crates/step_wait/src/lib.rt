// A wait: how long, and what it makes of a state, in place on the state's 88 words.
#![tactic(auto)]

ghost use Rattle.std.specs.Prelude.{◌≡◌, [], ℕ, ◌+◌, ◌≤◌, ◌<◌, length};
ghost use Rattle.meaning.specs.Fire.{later};
ghost use Rattle.meaning.specs.Wait.{sooner, soonest, wait};
ghost use Rattle.meaning.specs.Mark.{mark_of};
ghost use Rattle.layout.specs.StateWords.{buffer_in, buffers_in, state_in};
ghost use Rattle.step_wait.specs.Remade.{Remade, arrives};

use layout::BUFFER_WORDS;

// The smaller of two delays, where 0 does not count.
fn sooner(ms: u16, delay: u16) -> u16
    ensures { result ≡ sooner ms delay }
{
    if ms == 0 {
        return delay;
    }
    if delay == 0 {
        return ms;
    }
    if ms < delay { ms } else { delay }
}

/// The smallest delay above 0 in a state, 0 if there is none.
#[tactic(auto, using(crate::proofs::DelayLaws::delays_left))]
pub fn soonest(state: &[u16]) -> u16
    requires { 88 ≤ length state.now }
    ensures { result ≡ soonest 0 (buffers_in state.now) }
{
    let mut ms = 0u16;
    for k in 0..8 {
        ms = sooner(ms, state[BUFFER_WORDS * k + 9]);
    }
    ms
}

// Takes some ms from the delay of buffer k, not below 0; whether the buffer went from pending to visible.
// A buffer that is not pending is not written.
fn lower(state: &mut [u16], k: usize, ms: u16) -> bool
    requires { (88 ≤ length state.old) × (k < 8) }
    ensures { Remade state.old state.new k (later ms (buffer_in state.old k))
        × (result ≡ arrives (buffer_in state.old k) (later ms (buffer_in state.old k))) }
{
    let at = BUFFER_WORDS * k + 9;
    let delay = state[at];
    if delay == 0 {
        return false;
    }
    if delay <= ms {
        state[at] = 0;
        return true;
    }
    state[at] = delay - ms;
    false
}

/// Takes some ms from every delay, not below 0; the mark of the buffers that went from pending to visible.
pub fn wait(state: &mut [u16], ms: u16) -> u16
    requires { 88 ≤ length state.old }
    ensures by_index { (clock : ℕ) → state_in state.new (clock + ms) ≡ wait ms (state_in state.old clock) }
    ensures mark { (clock clock' : ℕ) → result ≡ mark_of [] (state_in state.old clock) (state_in state.new clock') }
{
    let mut mark = 0u16;
    for k in 0..8 {
        if lower(state, k, ms) {
            mark += 1 << k;
        }
    }
    mark
}
