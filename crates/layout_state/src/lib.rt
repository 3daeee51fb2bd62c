// A state by value laid into 88 words and read back, and whether the state in words is well formed.
#![tactic(auto)]

ghost use Rattle.std.specs.Prelude.{◌≡◌, ◌+◌, ◌*◌, ◌≤◌, leb, length, get_or, take};
ghost use Rattle.meaning.specs.Base.{every};
ghost use Rattle.meaning.specs.State.{is_nil, flag_fits, well_buffer, is_unused};
ghost use Rattle.layout.specs.StateWords.{buffer_in, buffers_in, state_in};
ghost use Rattle.layout_state.specs.Words.{Flags, buffer_at, stretch, all_well, rest_unused, well_in};

use layout::BUFFER_WORDS;
use meaning::{Buffer, State};

// One buffer into its eleven words; those below are kept.
fn lay_buffer(buffer: Buffer, words: &mut [u16], k: usize)
    requires { 11 * k + 11 ≤ length words.old }
    ensures k_after { (buffer_in words.new k ≡ buffer) × (take (11 * k) words.new ≡ take (11 * k) words.old) }
    ensures flag { get_or words.new (11 * k + 10) 0 ≤ 1 }
{
    let o = BUFFER_WORDS * k;
    words[o] = buffer.isa;
    words[o + 1..o + 9].copy_from_slice(&buffer.slots);
    words[o + 9] = buffer.delay;
    words[o + 10] = u16::from(buffer.error);
}

/// Lays the eight buffers of a state into 88 words.
pub fn lay_state(state: State, words: &mut [u16])
    requires { 88 ≤ length words.old }
    ensures words_after { buffers_in words.new ≡ state.buffers }
    ensures flags { Flags words.new 8 }
{
    for k in 0..8 {
        lay_buffer(state.buffers[k], words, k);
    }
}

// The buffer that eleven words from o on hold.
fn read_buffer(words: &[u16], o: usize) -> Buffer
    requires { o + 11 ≤ length words.now }
    ensures { result ≡ buffer_at words.now o }
{
    Buffer {
        isa: words[o],
        slots: [
            words[o + 1],
            words[o + 2],
            words[o + 3],
            words[o + 4],
            words[o + 5],
            words[o + 6],
            words[o + 7],
            words[o + 8],
        ],
        delay: words[o + 9],
        error: words[o + 10] == 1,
    }
}

/// The state that stands in 88 words, at a clock. (Written out: by a `for` or by `array::from_fn` a run needs 350 to 600 bytes of stack more,
/// and so more than include/jirvuntsag.h says.)
pub fn read_state(words: &[u16], clock: u32) -> State
    requires { 88 ≤ length words.now }
    ensures { result ≡ state_in words.now clock }
{
    State {
        buffers: [
            read_buffer(words, 0),
            read_buffer(words, 11),
            read_buffer(words, 22),
            read_buffer(words, 33),
            read_buffer(words, 44),
            read_buffer(words, 55),
            read_buffer(words, 66),
            read_buffer(words, 77),
        ],
        clock,
    }
}

/// Whether the words from one place to below another are at most so much.
#[tactic(auto, using(crate::proofs::AllLaws::walk))]
pub fn at_most(words: &[u16], from: usize, end: usize, most: u16) -> bool
    requires { end ≤ length words.now }
    ensures { result ≡ every (λ v. leb v most) (stretch words.now from end) }
{
    for i in from..end {
        if most < words[i] {
            return false;
        }
    }
    true
}

// Whether a buffer holds the nil chunk.
fn is_nil(words: &[u16], k: usize) -> bool
    requires { 11 * k + 11 ≤ length words.now }
    ensures { result ≡ is_nil (buffer_in words.now k) }
{
    let o = BUFFER_WORDS * k;
    at_most(words, o, o + 9, 0)
}

// Whether a buffer's flag is clear, or the buffer holds the nil chunk.
fn flag_fits(words: &[u16], k: usize) -> bool
    requires { 11 * k + 11 ≤ length words.now }
    ensures { result ≡ flag_fits (buffer_in words.now k) }
{
    words[BUFFER_WORDS * k + 10] != 1 || is_nil(words, k)
}

// Whether a buffer is well formed: its type is one of the model's, its values are symbols, its slots past the type's count are 0, and its flag fits.
fn well_buffer(words: &[u16], types: &[u16], k: usize) -> bool
    requires { 11 * k + 11 ≤ length words.now }
    ensures { result ≡ well_buffer types.now (buffer_in words.now k) }
{
    let o = BUFFER_WORDS * k;
    let isa = words[o] as usize;
    if types.len() <= isa {
        return false;
    }
    if !at_most(words, o + 1, o + 9, 4095) {
        return false;
    }
    let count = types[isa] as usize;
    if !at_most(words, o + 1 + count, o + 9, 0) {
        return false;
    }
    flag_fits(words, k)
}

// Whether each buffer is well formed.
fn all_well(words: &[u16], types: &[u16]) -> bool
    requires { 88 ≤ length words.now }
    ensures { result ≡ all_well types.now words.now }
{
    (0..8).all(|k| well_buffer(words, types, k))
}

// Whether a buffer holds nil with delay 0, and its flag is clear.
fn unused(words: &[u16], k: usize) -> bool
    requires { 11 * k + 11 ≤ length words.now }
    ensures { result ≡ is_unused (buffer_in words.now k) }
{
    let o = BUFFER_WORDS * k;
    is_nil(words, k) && words[o + 9] == 0 && words[o + 10] != 1
}

// Whether the buffers past a count are unused.
fn rest_unused(words: &[u16], buffers: usize) -> bool
    requires { (88 ≤ length words.now) × (buffers ≤ 8) }
    ensures { result ≡ rest_unused buffers words.now }
{
    (buffers..8).all(|k| unused(words, k))
}

/// Whether the state in words is well formed: each buffer is, and those past the model's count are unused.
pub fn well_formed(words: &[u16], types: &[u16], buffers: usize) -> bool
    requires { (88 ≤ length words.now) × (buffers ≤ 8) }
    ensures { result ≡ well_in types.now buffers words.now }
{
    all_well(words, types) && rest_unused(words, buffers)
}
