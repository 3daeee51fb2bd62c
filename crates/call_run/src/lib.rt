// Running a model: refused by number, or step after step, with the table refreshed and an event noted after each.
#![tactic(auto)]

ghost use Rattle.std.specs.Prelude.{◌≡◌, ◌*◌, ◌≤◌, length, List, replicate};
ghost use Rattle.meaning.specs.Read.{read_got};
ghost use Rattle.std.proofs.Math.Option.{Option};
ghost use Rattle.meaning.specs.Model.{Model, Chunk};
ghost use Rattle.meaning.specs.Calls.{accepted, trace_lent, run_lent, trace_of, run_of};
ghost use Rattle.meaning.specs.Store.{lent_by};
ghost use Rattle.layout.specs.Plans.{places_for, model_on, Planned};
ghost use Rattle.meaning.specs.Reasons.{number_of};
ghost use Rattle.match_beds.specs.Beds.{Roomy, Cleared};
ghost use Rattle.step_note.specs.Events.{inscribed};
ghost use Rattle.step_learn.specs.Knows.{Knows};
ghost use Rattle.step_run.specs.Went.{WentMet};
ghost use Rattle.call_run.specs.Answers.{RunMet, answered, given_with, ran_back, with_store};

use call_store::Asked;
use layout::{LARGE_TAPE, MIDDLE_TAPE, Plan, SMALL_TAPE, STATE_WORDS, STORE_TAPE};
use match_beds::{LARGE_SETS, SMALL_SETS};
use meaning::{ALL_DONE, Refusal, State};
use read_image::Begun;
use step_run::Went;

/// What run answers: the number, the position of the refused field if there is one, else 0, the state, and the steps made.
#[derive(Clone, Copy, Debug, PartialEq, Eq)]
pub struct RunDone {
    pub number: u8,
    pub position: usize,
    pub state: State,
    pub made: u16,
}

// A refusal: its number and its place, the state as it was handed in, and no step made.
fn no_run(refusal: Refusal, state: State) -> RunDone
    ensures { result ≡ record { number = number_of refusal.reason; position = refusal.at; state = state; made = 0 } }
{
    RunDone {
        number: refusal.reason.number(),
        position: refusal.at,
        state,
        made: 0,
    }
}

// What run answers where a run was made, or of a refusal.
fn answered(ran: Result<(), Refusal>, done: RunDone, state: State) -> RunDone
    ensures { result ≡ answered state (given_with ran done) }
{
    match ran {
        Ok(()) => done,
        Err(refusal) => no_run(refusal, state),
    }
}

// Lays out what a run keeps besides the model, and runs from a state in words with its clock.
fn set_out(
    state: &mut [u16],
    clock: u32,
    table: &mut [u16],
    plan: Plan,
    tape: &mut [u16],
    steps: u16,
    events: &mut [u32],
    sets: &mut [u64],
) -> Went
    requires { Planned plan tape.old × (length table.old ≡ 9 * plan.rules) × (88 ≤ length state.old) × Roomy plan.rules sets.old × Cleared sets.old }
    ensures went_met { (m : Model) (store : Option (List Chunk)) → Knows plan tape.old m store
        → WentMet result m store state.old state.new clock table.old table.new steps events.old events.new tape.new }
    ensures planned { Planned result.plan tape.new }
{
    step_aids::lay_aids(plan, tape);
    let order = plan.order;
    let heads = plan.heads;
    match_rest::lay_rest(
        sets,
        &tape[order..],
        &tape[heads..],
        table,
        plan.rules as usize,
    );
    step_run::advance(state, clock, table, plan, tape, steps, events, sets)
}

// What is left to refuse once the image and the table's length are accepted, and the run. It is never set into its caller, so that the stack holds what it needs
// only once the image is laid out. The answer of a run that was made goes where the caller wants it: within a result it would be copied by each call between.
#[inline(never)]
fn run_for(
    table: &mut [u16],
    plan: Plan,
    tape: &mut [u16],
    asked: &Asked,
    events: &mut [u32],
    sets: &mut [u64],
    store: &mut [u16],
    done: &mut RunDone,
) -> Result<(), Refusal>
    requires { Planned plan tape.old × (length table.old ≡ 9 * plan.rules) × Roomy plan.rules sets.old × Cleared sets.old
        × (plan.places ≡ places_for plan.facts plan.learns) × (plan.learns ≡ asked.now.lent) }
    ensures { RunMet (answered asked.now.state (given_with result done.new)) (read_got (model_on plan tape.old) 0) asked.now.state table.old table.new asked.now.steps events.old events.new
        asked.now.lent store.old store.new }
{
    let state = asked.state;
    let mut now = [0u16; STATE_WORDS];
    let known = call_store::admit(state, &mut now, store, plan, tape)?;
    let steps = asked.steps;
    let went = set_out(
        &mut now,
        state.clock,
        table,
        known,
        tape,
        steps,
        events,
        sets,
    );
    call_store::give_back(store, plan, went.plan, tape);
    *done = RunDone {
        number: went.number(),
        position: 0,
        state: layout_state::read_state(&now, went.clock),
        made: went.made,
    };
    Ok(())
}

// Running, with the tape to lay the image out on and the sets to keep its rules in.
fn run_on(
    begun: &Begun,
    asked: &Asked,
    table: &mut [u16],
    events: &mut [u32],
    store: &mut [u16],
    tape: &mut [u16],
    sets: &mut [u64],
    done: &mut RunDone,
) -> Result<(), Refusal>
    requires learning { begun.now.plan.learns ≡ asked.now.lent }
    requires taped { begun.now.plan.end ≤ length tape.old }
    requires roomy { Roomy begun.now.plan.rules sets.old }
    requires cleared { Cleared sets.old }
    ensures { RunMet (answered asked.now.state (given_with result done.new)) (accepted begun.now.image table.old) asked.now.state table.old table.new asked.now.steps events.old events.new
        asked.now.lent store.old store.new }
{
    call_accept::accept(Ok(begun), table.len(), tape)?;
    run_for(table, begun.plan(), tape, asked, events, sets, store, done)
}

// Running on a tape and with sets of these sizes. It is a function of its own, and never set into its caller, so that the stack holds one tape at a time.
#[inline(never)]
fn run_in<const TAPE: usize, const SETS: usize>(
    begun: &Begun,
    asked: &Asked,
    table: &mut [u16],
    events: &mut [u32],
    store: &mut [u16],
    done: &mut RunDone,
) -> Result<(), Refusal>
    requires learning { begun.now.plan.learns ≡ asked.now.lent }
    requires taped { (begun.now.plan.end ≤ TAPE) × (TAPE ≤ 58328) }
    requires roomy { Roomy begun.now.plan.rules (replicate SETS 0) × (SETS ≤ 1076) }
    ensures { RunMet (answered asked.now.state (given_with result done.new)) (accepted begun.now.image table.old) asked.now.state table.old table.new asked.now.steps events.old events.new
        asked.now.lent store.old store.new }
{
    let mut tape = [0u16; TAPE];
    let mut sets = [0u64; SETS];
    run_on(
        begun, asked, table, events, store, &mut tape, &mut sets, done,
    )
}

// Running, on the smallest tape and with the fewest sets that have room.
fn ran(
    image: &[u8],
    asked: &Asked,
    table: &mut [u16],
    events: &mut [u32],
    store: &mut [u16],
    done: &mut RunDone,
) -> Result<(), Refusal>
    ensures { RunMet (answered asked.now.state (given_with result done.new)) (accepted image.now table.old) asked.now.state table.old table.new asked.now.steps events.old events.new
        asked.now.lent store.old store.new }
{
    let begun = read_image::begin(image, asked.lent)?;
    let end = begun.plan().end;
    if end <= SMALL_TAPE {
        return run_in::<SMALL_TAPE, SMALL_SETS>(&begun, asked, table, events, store, done);
    }
    if end <= STORE_TAPE {
        return run_in::<STORE_TAPE, SMALL_SETS>(&begun, asked, table, events, store, done);
    }
    if end <= MIDDLE_TAPE {
        return run_in::<MIDDLE_TAPE, LARGE_SETS>(&begun, asked, table, events, store, done);
    }
    run_in::<LARGE_TAPE, LARGE_SETS>(&begun, asked, table, events, store, done)
}

/// Runs at most `steps` steps from a state, with what `lent` says is lent (1: a store): the number, the position of a refused field, the state and the steps made.
/// The table is refreshed after each step, and each is noted in three lent words, as long as there is room: the clock after it, 0 and the rule that fired or 1 and the ms waited.
/// What is learned joins the store; where it is not lent its words are neither read nor written.
#[tactic(auto, unfolding(meaning::specs::Calls::run_lent, meaning::specs::Calls::trace_lent))]
pub fn run_lent(
    image: &[u8],
    state: State,
    table: &mut [u16],
    steps: u16,
    events: &mut [u32],
    lent: u16,
    store: &mut [u16],
) -> RunDone
    ensures { (with_store result table.new store.new ≡ run_lent image.now state table.old steps lent store.old)
        × (events.new ≡ inscribed events.old 0 (trace_lent image.now state table.old steps (lent_by lent store.old)).events) }
{
    let learns = lent % 2 == 1;
    let asked = Asked {
        state,
        steps,
        lent: learns,
    };
    let mut done = RunDone {
        number: ALL_DONE,
        position: 0,
        state,
        made: 0,
    };
    let ran = ran(image, &asked, table, events, store, &mut done);
    answered(ran, done, asked.state)
}

/// Runs with nothing lent, and notes each step as `run_lent` does.
#[tactic(auto, unfolding(meaning::specs::Calls::run_lent, meaning::specs::Calls::run_of))]
pub fn trace(
    image: &[u8],
    state: State,
    table: &mut [u16],
    steps: u16,
    events: &mut [u32],
) -> RunDone
    ensures { (ran_back result table.new ≡ run_of image.now state table.old steps)
        × (events.new ≡ inscribed events.old 0 (trace_of image.now state table.old steps).events) }
{
    let mut no_store = [0u16; 1];
    run_lent(image, state, table, steps, events, 0, &mut no_store)
}

/// Runs at most `steps` steps from a state: the number, the position of a refused field, the state and the steps made; the table is refreshed after each step.
pub fn run(image: &[u8], state: State, table: &mut [u16], steps: u16) -> RunDone
    ensures { ran_back result table.new ≡ run_of image.now state table.old steps }
{
    let mut no_events = [0u32; 1];
    trace(image, state, table, steps, &mut no_events)
}
