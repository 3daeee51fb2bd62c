// The state that every call takes and gives back, by value (docs/MEANING.md says what each part of it means).
#![tactic(auto)]

ghost use Rattle.std.specs.Prelude.{◌≡◌};
ghost use Rattle.meaning.specs.State.{nil_after, zero_state};

mod reasons;

pub use reasons::{ALL_DONE, Reason, Refusal};

// One buffer: the type of its chunk, eight slot values, the ms until it is visible, and whether the last action on it was a request that found no fact.
// (`isa` is ACT-R's own word for a chunk's type; Rattle keeps the word `type` for itself.)
#[derive(Clone, Copy, Debug, PartialEq, Eq)]
pub struct Buffer {
    pub isa: u16,
    pub slots: [u16; 8],
    pub delay: u16,
    pub error: bool,
}

// Eight buffers and the clock in ms.
#[derive(Clone, Copy, Debug, PartialEq, Eq)]
pub struct State {
    pub buffers: [Buffer; 8],
    pub clock: u32,
}

/// What a step did: the number of the rule that fired, or the ms waited.
#[derive(Clone, Copy, Debug, PartialEq, Eq)]
pub enum Event {
    Fired(u16),
    Waited(u16),
}

// The nil chunk, visible after some ms.
pub fn nil_after(delay: u16) -> Buffer
    ensures { result ≡ nil_after delay }
{
    Buffer {
        isa: 0,
        slots: [0; 8],
        delay: delay,
        error: false,
    }
}

// The all-zero state, which a refused opening gives.
pub fn zero_state() -> State
    ensures { result ≡ zero_state }
{
    let nil = nil_after(0);
    State {
        buffers: [nil; 8],
        clock: 0,
    }
}
