// Refreshing a table: refused by number, or the entries of the rules that test or query a marked buffer made afresh.
#![tactic(auto)]

ghost use Rattle.std.specs.Prelude.{◌≡◌, ◌*◌, ◌^◌, ◌≤◌, ltb, length};
ghost use Rattle.meaning.specs.Reasons.{number_of};
ghost use Rattle.meaning.specs.Read.{read_got};
ghost use Rattle.meaning.specs.Calls.{refreshed_by, refresh_of};
ghost use Rattle.layout.specs.Plans.{model_on, Planned};
ghost use Rattle.call_refresh.specs.Answers.{answered, refreshed_in};

use layout::{LARGE_TAPE, MIDDLE_TAPE, Plan, SMALL_TAPE, STATE_WORDS};
use meaning::{ALL_DONE, Reason, Refusal, State};
use read_image::Begun;

/// What refresh answers: the number, the position of the refused field if there is one, else 0, and how many rules test or query a marked buffer.
#[derive(Clone, Copy, Debug, PartialEq, Eq)]
pub struct RefreshDone {
    pub number: u8,
    pub position: usize,
    pub count: u16,
}

// A refusal: its number and its place, and no rule counted.
fn no_refresh(refusal: Refusal) -> RefreshDone
    ensures { result ≡ record { number = number_of refusal.reason; position = refusal.at; count = 0 } }
{
    RefreshDone {
        number: refusal.reason.number(),
        position: refusal.at,
        count: 0,
    }
}

// What refresh answers of a count of rules or a refusal.
fn answered(counted: Result<u16, Refusal>) -> RefreshDone
    ensures { result ≡ answered counted }
{
    match counted {
        Ok(count) => RefreshDone {
            number: ALL_DONE,
            position: 0,
            count,
        },
        Err(refusal) => no_refresh(refusal),
    }
}

// Whether a mark is allowed for so many buffers: it is below 2 to the power of their count.
fn mark_allowed(mark: u16, buffers: u16) -> bool
    requires { buffers ≤ 8 }
    ensures { result ≡ ltb mark (2 ^ buffers) }
{
    (mark as u32) < 1u32 << buffers
}

// What is left to refuse once the image and the table's length are accepted, and the refresh.
fn refresh_for(
    table: &mut [u16],
    plan: Plan,
    tape: &[u16],
    state: State,
    mark: u16,
) -> Result<u16, Refusal>
    requires { Planned plan tape.now × (length table.old ≡ 9 * plan.rules) }
    ensures { refreshed_in (answered result) table.new ≡ refreshed_by state mark table.old (read_got (model_on plan tape.now) 0) }
{
    let mut now = [0u16; STATE_WORDS];
    layout_state::lay_state(state, &mut now);
    let end = plan.declared as usize + 1;
    if !layout_state::well_formed(&now, &tape[..end], plan.buffers as usize) {
        return Err(Reason::IllFormed.into());
    }
    if !mark_allowed(mark, plan.buffers) {
        return Err(Reason::BadMark.into());
    }
    let heads = plan.heads;
    let rows = plan.rows;
    let n = plan.rules as usize;
    let count = match_table::refresh(table, &tape[heads..], &tape[rows..], n, &now, mark);
    Ok(count)
}

// Refreshing, with the tape to lay the image out on.
fn refresh_on(
    begun: &Begun,
    state: State,
    mark: u16,
    table: &mut [u16],
    tape: &mut [u16],
) -> Result<u16, Refusal>
    requires { begun.now.plan.end ≤ length tape.old }
    ensures { refreshed_in (answered result) table.new ≡ refresh_of begun.now.image state mark table.old }
{
    call_accept::accept(Ok(begun), table.len(), tape)?;
    refresh_for(table, begun.plan(), tape, state, mark)
}

// Refreshing on a tape of this size. It is a function of its own, and never set into its caller, so that the stack holds one tape at a time.
#[inline(never)]
fn refresh_in<const TAPE: usize>(
    begun: &Begun,
    state: State,
    mark: u16,
    table: &mut [u16],
) -> Result<u16, Refusal>
    requires { (begun.now.plan.end ≤ TAPE) × (TAPE ≤ 58328) }
    ensures { refreshed_in (answered result) table.new ≡ refresh_of begun.now.image state mark table.old }
{
    let mut tape = [0u16; TAPE];
    refresh_on(begun, state, mark, table, &mut tape)
}

// Refreshing, on the smallest tape that has room.
fn refreshed(image: &[u8], state: State, mark: u16, table: &mut [u16]) -> Result<u16, Refusal>
    ensures { refreshed_in (answered result) table.new ≡ refresh_of image.now state mark table.old }
{
    let begun = read_image::begin(image, false)?;
    let end = begun.plan().end;
    if end <= SMALL_TAPE {
        refresh_in::<SMALL_TAPE>(&begun, state, mark, table)
    } else if end <= MIDDLE_TAPE {
        refresh_in::<MIDDLE_TAPE>(&begun, state, mark, table)
    } else {
        refresh_in::<LARGE_TAPE>(&begun, state, mark, table)
    }
}

/// Makes the entries of the rules that test or query a marked buffer afresh: the number, the position of a refused field, and how many these rules are.
pub fn refresh(image: &[u8], state: State, mark: u16, table: &mut [u16]) -> RefreshDone
    ensures { refreshed_in result table.new ≡ refresh_of image.now state mark table.old }
{
    answered(refreshed(image, state, mark, table))
}
