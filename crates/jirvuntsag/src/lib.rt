// The library for C: open, run, trace and refresh, and the runs without a table, over plain words (include/jirvuntsag.h).
// Each takes whatever it is handed, and none has a `requires`.
#![tactic(auto)]

ghost use Rattle.std.specs.Prelude.{if◌then◌else◌, ◌≡◌, true, false, ◌∷◌, ◌≤◌, length, get_or, drop};
ghost use Rattle.step_note.specs.Events.{inscribed};
ghost use Rattle.jirvuntsag.specs.Words.{words_of, flags_fit, fits, narrowed, held, unfit_state, given_by};
ghost use Rattle.jirvuntsag.specs.Told.{told, length_in, open_in, run_in, refresh_in, events_in};
ghost use Rattle.jirvuntsag.specs.Told.{answer as told_answer};
ghost use Rattle.jirvuntsag.specs.Fresh.{fresh_told, fresh_in, fresh_events_in};
ghost use Rattle.jirvuntsag.specs.Lent.{told_with, run_lent_in, lent_events_in, fresh_lent_in, fresh_lent_events_in};

use layout::{BUFFER_WORDS, STATE_WORDS};
use meaning::{Buffer, State};

// The number, 65,536 times a count, and 4,294,967,296 times a position: each can be read back.
fn answer(number: u8, count: u16, position: usize) -> u64
    requires { position ≤ 524288 }
    ensures { result ≡ told_answer number count position }
{
    number as u64 + 65536 * (count as u64) + 4294967296 * (position as u64)
}

// A state that is well formed in no model.
fn unfit_state() -> State
    ensures { result ≡ unfit_state }
{
    let buffer = Buffer {
        isa: 0,
        slots: [65535; 8],
        delay: 0,
        error: false,
    };
    State {
        buffers: [buffer; 8],
        clock: 0,
    }
}

// The words past the clock in 16 bits, if each has room there.
#[tactic(auto, unfolding(crate::specs::Words::narrows))]
fn narrow(words: &[u32; 89]) -> Option<[u16; STATE_WORDS]>
    ensures { result ≡ narrowed words.now }
{
    let mut buffers = [0; STATE_WORDS];
    for i in 0..STATE_WORDS {
        buffers[i] = u16::try_from(words[1 + i]).ok()?;
    }
    Some(buffers)
}

// Whether each error flag is 0 or 1.
fn flags_fit(words: &[u32; 89]) -> bool
    ensures { result ≡ flags_fit words.now }
{
    (0..8).all(|b| words[BUFFER_WORDS * b + 11] <= 1)
}

// The state that 89 words hold, if each word is small enough for its field.
fn given(words: &[u32; 89]) -> Option<State>
    ensures { result ≡ held words.now }
{
    let buffers = narrow(words)?;
    if !flags_fit(words) {
        return None;
    }
    Some(layout_state::read_state(&buffers, words[0]))
}

// A state into its 89 words.
fn lay(state: State, words: &mut [u32; 89])
    ensures { words.new ≡ words_of state }
{
    let mut buffers = [0; STATE_WORDS];
    layout_state::lay_state(state, &mut buffers);
    words[0] = state.clock;
    for i in 0..STATE_WORDS {
        words[1 + i] = u32::from(buffers[i]);
    }
}

// What every run does round its work: the state out of its words, or the unfit one, and the state after the work into them if they held one before.
fn led<F: FnMut(State) -> (u64, State)>(words: &mut [u32; 89], work: &mut F) -> u64
    requires { F.pre work.old (given_by words.old) }
    ensures { (r : _) × F.step work.old (given_by words.old) r work.new
        × (words.new ≡ (if fits words.old then words_of r.1 else words.old)) × (result ≡ r.0) }
{
    match given(words) {
        Some(state) => {
            let (told, after) = work(state);
            lay(after, words);
            told
        }
        None => work(unfit_state()).0,
    }
}

/// The words that the table of an image needs: nine for each rule, 0 for an image that is refused, which the number tells from one without rules.
pub fn jirvuntsag_table_len(image: &[u8]) -> u64
    ensures { result ≡ length_in image.now }
{
    let done = calls::table_length(image);
    answer(done.number, done.words, done.position)
}

/// Opens an image: writes the opening state (all zero if it is refused), and the fresh table if it is accepted.
pub fn jirvuntsag_open(image: &[u8], table: &mut [u16], state: &mut [u32; 89]) -> u64
    ensures { told result state.new table.new ≡ open_in image.now table.old }
{
    let done = calls::open(image, table);
    lay(done.state, state);
    answer(done.number, 0, done.position)
}

/// Runs at most `steps` steps: writes the state and the table after them.
pub fn jirvuntsag_run(image: &[u8], state: &mut [u32; 89], table: &mut [u16], steps: u16) -> u64
    ensures { told result state.new table.new ≡ run_in image.now state.old table.old steps }
{
    let mut work = |from| {
        let done = calls::run(image, from, table, steps);
        (answer(done.number, done.made, done.position), done.state)
    };
    led(state, &mut work)
}

/// Runs as `jirvuntsag_run` does, and notes each step in three lent words, as long as there is room: the clock after it, 0 and the rule that fired or 1 and the ms waited.
pub fn jirvuntsag_trace(
    image: &[u8],
    state: &mut [u32; 89],
    table: &mut [u16],
    steps: u16,
    events: &mut [u32],
) -> u64
    ensures { (told result state.new table.new ≡ run_in image.now state.old table.old steps)
        × (events.new ≡ inscribed events.old 0 (events_in image.now state.old table.old steps)) }
{
    let mut work = |from| {
        let done = calls::trace(image, from, table, steps, events);
        (answer(done.number, done.made, done.position), done.state)
    };
    led(state, &mut work)
}

/// Runs as `jirvuntsag_trace` does, with what `lent` says is lent (1: a store): what is learned joins the store; where it is not lent its words are neither read nor written.
pub fn jirvuntsag_run_lent(
    image: &[u8],
    state: &mut [u32; 89],
    table: &mut [u16],
    steps: u16,
    events: &mut [u32],
    lent: u16,
    store: &mut [u16],
) -> u64
    ensures { (told_with (told result state.new table.new) store.new
        ≡ run_lent_in image.now state.old table.old steps lent store.old)
        × (events.new ≡ inscribed events.old 0 (lent_events_in image.now state.old table.old steps lent store.old)) }
{
    let mut work = |from| {
        let done = calls::run_lent(image, from, table, steps, events, lent, store);
        (answer(done.number, done.made, done.position), done.state)
    };
    led(state, &mut work)
}

/// Makes the entries of the rules that test or query a marked buffer afresh.
pub fn jirvuntsag_refresh(image: &[u8], state: &[u32; 89], mark: u16, table: &mut [u16]) -> u64
    ensures { told result state.now table.new ≡ refresh_in image.now state.now mark table.old }
{
    let from = given(state).unwrap_or(unfit_state());
    let done = calls::refresh(image, from, mark, table);
    answer(done.number, done.count, done.position)
}

/// Runs at most `steps` steps with nothing kept, every rule matched afresh at each: writes the state after them.
pub fn jirvuntsag_run_fresh(image: &[u8], state: &mut [u32; 89], steps: u16) -> u64
    ensures { fresh_told result state.new ≡ fresh_in image.now state.old steps }
{
    let mut work = |from| {
        let done = calls::run_fresh(image, from, steps);
        (answer(done.number, done.made, done.position), done.state)
    };
    led(state, &mut work)
}

/// Runs as `jirvuntsag_run_fresh` does, and notes each step in three lent words, as `jirvuntsag_trace` does.
pub fn jirvuntsag_trace_fresh(
    image: &[u8],
    state: &mut [u32; 89],
    steps: u16,
    events: &mut [u32],
) -> u64
    ensures { (fresh_told result state.new ≡ fresh_in image.now state.old steps)
        × (events.new ≡ inscribed events.old 0 (fresh_events_in image.now state.old steps)) }
{
    let mut work = |from| {
        let done = calls::trace_fresh(image, from, steps, events);
        (answer(done.number, done.made, done.position), done.state)
    };
    led(state, &mut work)
}

/// Runs as `jirvuntsag_trace_fresh` does, with what `lent` says is lent (1: a store), as `jirvuntsag_run_lent` does.
pub fn jirvuntsag_run_fresh_lent(
    image: &[u8],
    state: &mut [u32; 89],
    steps: u16,
    events: &mut [u32],
    lent: u16,
    store: &mut [u16],
) -> u64
    ensures { (told_with (fresh_told result state.new) store.new ≡ fresh_lent_in image.now state.old steps lent store.old)
        × (events.new ≡ inscribed events.old 0 (fresh_lent_events_in image.now state.old steps lent store.old)) }
{
    let mut work = |from| {
        let done = calls::fresh_lent(image, from, steps, events, lent, store);
        (answer(done.number, done.made, done.position), done.state)
    };
    led(state, &mut work)
}
