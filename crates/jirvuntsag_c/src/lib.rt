// `jirvuntsag` for C: each export calls the library's function of its name, and states its clauses again.
#![tactic(auto)]

ghost use Rattle.std.specs.Prelude.{◌≡◌};
ghost use Rattle.step_note.specs.Events.{inscribed};
ghost use Rattle.jirvuntsag.specs.Told.{told, length_in, open_in, run_in, refresh_in, events_in};
ghost use Rattle.jirvuntsag.specs.Fresh.{fresh_told, fresh_in, fresh_events_in};
ghost use Rattle.jirvuntsag.specs.Lent.{told_with, run_lent_in, lent_events_in, fresh_lent_in, fresh_lent_events_in};

// The words that the table of an image needs: nine for each rule, 0 for an image that is refused, which the number tells from one without rules.
#[unsafe(no_mangle)]
pub extern "C" fn jirvuntsag_table_len(image: &[u8]) -> u64
    ensures { result ≡ length_in image.now }
{
    jirvuntsag::jirvuntsag_table_len(image)
}

// Opens an image: writes the opening state (all zero if it is refused), and the fresh table if it is accepted.
#[unsafe(no_mangle)]
pub extern "C" fn jirvuntsag_open(image: &[u8], table: &mut [u16], state: &mut [u32; 89]) -> u64
    ensures { told result state.new table.new ≡ open_in image.now table.old }
{
    jirvuntsag::jirvuntsag_open(image, table, state)
}

// Runs at most `steps` steps: writes the state and the table after them.
#[unsafe(no_mangle)]
pub extern "C" fn jirvuntsag_run(
    image: &[u8],
    state: &mut [u32; 89],
    table: &mut [u16],
    steps: u16,
) -> u64
    ensures { told result state.new table.new ≡ run_in image.now state.old table.old steps }
{
    jirvuntsag::jirvuntsag_run(image, state, table, steps)
}

// Runs as `jirvuntsag_run` does, and notes each step in three lent words, as long as there is room: the clock after it, 0 and the rule that fired or 1 and the ms waited.
#[unsafe(no_mangle)]
pub extern "C" fn jirvuntsag_trace(
    image: &[u8],
    state: &mut [u32; 89],
    table: &mut [u16],
    steps: u16,
    events: &mut [u32],
) -> u64
    ensures { (told result state.new table.new ≡ run_in image.now state.old table.old steps)
        × (events.new ≡ inscribed events.old 0 (events_in image.now state.old table.old steps)) }
{
    jirvuntsag::jirvuntsag_trace(image, state, table, steps, events)
}

// Runs as `jirvuntsag_trace` does, with what `lent` says is lent (1: a store): what is learned joins the store; where it is not lent its words are neither read nor written.
#[unsafe(no_mangle)]
pub extern "C" fn jirvuntsag_run_lent(
    image: &[u8],
    state: &mut [u32; 89],
    table: &mut [u16],
    steps: u16,
    events: &mut [u32],
    lent: u16,
    store: &mut [u16],
) -> u64
    ensures { (told_with (told result state.new table.new) store.new
        ≡ run_lent_in image.now state.old table.old steps lent store.old)
        × (events.new ≡ inscribed events.old 0 (lent_events_in image.now state.old table.old steps lent store.old)) }
{
    jirvuntsag::jirvuntsag_run_lent(image, state, table, steps, events, lent, store)
}

// Makes the entries of the rules that test or query a marked buffer afresh.
#[unsafe(no_mangle)]
pub extern "C" fn jirvuntsag_refresh(
    image: &[u8],
    state: &[u32; 89],
    mark: u16,
    table: &mut [u16],
) -> u64
    ensures { told result state.now table.new ≡ refresh_in image.now state.now mark table.old }
{
    jirvuntsag::jirvuntsag_refresh(image, state, mark, table)
}

// Runs at most `steps` steps with nothing kept, every rule matched afresh at each: writes the state after them.
#[unsafe(no_mangle)]
pub extern "C" fn jirvuntsag_run_fresh(image: &[u8], state: &mut [u32; 89], steps: u16) -> u64
    ensures { fresh_told result state.new ≡ fresh_in image.now state.old steps }
{
    jirvuntsag::jirvuntsag_run_fresh(image, state, steps)
}

// Runs as `jirvuntsag_run_fresh` does, and notes each step in three lent words, as `jirvuntsag_trace` does.
#[unsafe(no_mangle)]
pub extern "C" fn jirvuntsag_trace_fresh(
    image: &[u8],
    state: &mut [u32; 89],
    steps: u16,
    events: &mut [u32],
) -> u64
    ensures { (fresh_told result state.new ≡ fresh_in image.now state.old steps)
        × (events.new ≡ inscribed events.old 0 (fresh_events_in image.now state.old steps)) }
{
    jirvuntsag::jirvuntsag_trace_fresh(image, state, steps, events)
}

// Runs as `jirvuntsag_trace_fresh` does, with what `lent` says is lent (1: a store), as `jirvuntsag_run_lent` does.
#[unsafe(no_mangle)]
pub extern "C" fn jirvuntsag_run_fresh_lent(
    image: &[u8],
    state: &mut [u32; 89],
    steps: u16,
    events: &mut [u32],
    lent: u16,
    store: &mut [u16],
) -> u64
    ensures { (told_with (fresh_told result state.new) store.new ≡ fresh_lent_in image.now state.old steps lent store.old)
        × (events.new ≡ inscribed events.old 0 (fresh_lent_events_in image.now state.old steps lent store.old)) }
{
    jirvuntsag::jirvuntsag_run_fresh_lent(image, state, steps, events, lent, store)
}
