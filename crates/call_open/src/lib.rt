// Opening an image: refused by number, or the opening state and the fresh table.
#![tactic(auto)]

ghost use Rattle.std.specs.Prelude.{◌≡◌, ◌*◌, ◌≤◌, length, drop};
ghost use Rattle.meaning.specs.Reasons.{number_of};
ghost use Rattle.meaning.specs.State.{zero_state};
ghost use Rattle.meaning.specs.Match.{fresh_table};
ghost use Rattle.meaning.specs.Calls.{open_of};
ghost use Rattle.layout.specs.StateWords.{state_in};
ghost use Rattle.layout.specs.Plans.{rules_on, Planned};
ghost use Rattle.call_open.specs.Answers.{answered, given_with, opened_in};

use layout::{LARGE_TAPE, MIDDLE_TAPE, OPENING_AT, Plan, SMALL_TAPE};
use meaning::{ALL_DONE, Refusal, State};
use read_image::Begun;

/// What open answers: the number, the position of the refused field if there is one, else 0, and the state.
#[derive(Clone, Copy, Debug, PartialEq, Eq)]
pub struct OpenDone {
    pub number: u8,
    pub position: usize,
    pub state: State,
}

// A refusal: its number and its place, with the all-zero state.
fn no_opening(refusal: Refusal) -> OpenDone
    ensures { result ≡ record { number = number_of refusal.reason; position = refusal.at; state = zero_state } }
{
    let nothing = meaning::zero_state();
    OpenDone {
        number: refusal.reason.number(),
        position: refusal.at,
        state: nothing,
    }
}

// What open answers where a state was opened, or of a refusal.
fn answered(opened: Result<(), Refusal>, state: State) -> OpenDone
    ensures { result ≡ answered (given_with opened state) }
{
    match opened {
        Ok(()) => OpenDone {
            number: ALL_DONE,
            position: 0,
            state,
        },
        Err(refusal) => no_opening(refusal),
    }
}

// The fresh table of the model that plan and tape mean, in its opening state.
fn fresh_on(table: &mut [u16], plan: Plan, tape: &[u16])
    requires { Planned plan tape.now × (length table.old ≡ 9 * plan.rules) }
    ensures { table.new ≡ fresh_table (rules_on plan tape.now) (state_in (drop 64 tape.now) 0) }
{
    let heads = plan.heads;
    let rows = plan.rows;
    let n = plan.rules as usize;
    match_table::fresh(table, &tape[heads..], &tape[rows..], n, &tape[OPENING_AT..]);
}

// Opening, with the tape to lay the image out on. The opening state goes where the caller wants it: within a result it would be copied by a call.
fn open_on(
    begun: &Begun,
    table: &mut [u16],
    tape: &mut [u16],
    state: &mut State,
) -> Result<(), Refusal>
    requires { begun.now.plan.end ≤ length tape.old }
    ensures { opened_in (answered (given_with result state.new)) table.new ≡ open_of begun.now.image table.old }
{
    call_accept::accept(Ok(begun), table.len(), tape)?;
    fresh_on(table, begun.plan(), tape);
    *state = layout_state::read_state(&tape[OPENING_AT..], 0);
    Ok(())
}

// Opening on a tape of this size. It is a function of its own, and never set into its caller, so that the stack holds one tape at a time.
#[inline(never)]
fn open_in<const TAPE: usize>(
    begun: &Begun,
    table: &mut [u16],
    state: &mut State,
) -> Result<(), Refusal>
    requires { (begun.now.plan.end ≤ TAPE) × (TAPE ≤ 58328) }
    ensures { opened_in (answered (given_with result state.new)) table.new ≡ open_of begun.now.image table.old }
{
    let mut tape = [0u16; TAPE];
    open_on(begun, table, &mut tape, state)
}

// Opening, on the smallest tape that has room.
fn opened(image: &[u8], table: &mut [u16], state: &mut State) -> Result<(), Refusal>
    ensures { opened_in (answered (given_with result state.new)) table.new ≡ open_of image.now table.old }
{
    let begun = read_image::begin(image, false)?;
    let end = begun.plan().end;
    if end <= SMALL_TAPE {
        open_in::<SMALL_TAPE>(&begun, table, state)
    } else if end <= MIDDLE_TAPE {
        open_in::<MIDDLE_TAPE>(&begun, table, state)
    } else {
        open_in::<LARGE_TAPE>(&begun, table, state)
    }
}

/// Opens an image: the number, the position of a refused field, and the opening state (all zero if it is refused); writes the fresh table if it is accepted.
pub fn open(image: &[u8], table: &mut [u16]) -> OpenDone
    ensures { opened_in result table.new ≡ open_of image.now table.old }
{
    let mut state = meaning::zero_state();
    let opened = opened(image, table, &mut state);
    answered(opened, state)
}
