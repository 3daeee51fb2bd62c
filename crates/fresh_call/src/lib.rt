// Running a model with nothing kept: refused by number, or step after step, every rule matched afresh at each.
#![tactic(auto)]

ghost use Rattle.std.specs.Prelude.{◌≡◌, ◌≤◌, length, List};
ghost use Rattle.meaning.specs.Read.{read_got};
ghost use Rattle.meaning.specs.Image.{decode};
ghost use Rattle.std.proofs.Math.Option.{Option};
ghost use Rattle.meaning.specs.Model.{Model, Chunk};
ghost use Rattle.meaning.specs.Store.{lent_by};
ghost use Rattle.meaning.specs.Fresh.{fresh_trace_lent, fresh_lent, fresh_trace_of, fresh_of};
ghost use Rattle.layout.specs.Plans.{places_for, model_on, Planned};
ghost use Rattle.meaning.specs.Reasons.{number_of};
ghost use Rattle.step_note.specs.Events.{inscribed};
ghost use Rattle.step_learn.specs.Knows.{Knows};
ghost use Rattle.fresh_run.specs.Went.{WentMet};
ghost use Rattle.fresh_call.specs.Answers.{FreshMet, answered, fresh_back, with_store};

use call_store::Asked;
use fresh_run::Went;
use layout::{LARGE_TAPE, MIDDLE_TAPE, Plan, SMALL_TAPE, STATE_WORDS, STORE_TAPE};
use meaning::{Refusal, State};
use read_image::Begun;

/// What a run with nothing kept answers: the number, the position of the refused field if there is one, else 0, the state, and the steps made.
#[derive(Clone, Copy, Debug, PartialEq, Eq)]
pub struct FreshDone {
    pub number: u8,
    pub position: usize,
    pub state: State,
    pub made: u16,
}

// A refusal: its number and its place, the state as it was handed in, and no step made.
fn no_run(refusal: Refusal, state: State) -> FreshDone
    ensures { result ≡ record { number = number_of refusal.reason; position = refusal.at; state = state; made = 0 } }
{
    FreshDone {
        number: refusal.reason.number(),
        position: refusal.at,
        state,
        made: 0,
    }
}

// What a run answers that was made, or that was refused.
fn answered(ran: Result<FreshDone, Refusal>, state: State) -> FreshDone
    ensures { result ≡ answered state ran }
{
    match ran {
        Ok(done) => done,
        Err(refusal) => no_run(refusal, state),
    }
}

// Lays out the chains of the facts, and runs from a state in words with its clock.
fn set_out(
    state: &mut [u16],
    clock: u32,
    plan: Plan,
    tape: &mut [u16],
    steps: u16,
    events: &mut [u32],
) -> Went
    requires { Planned plan tape.old × (88 ≤ length state.old) }
    ensures went_met { (m : Model) (store : Option (List Chunk)) → Knows plan tape.old m store
        → WentMet result m store state.old state.new clock steps events.old events.new tape.new }
    ensures planned { Planned result.plan tape.new }
{
    step_chains::lay_chains(plan, tape);
    fresh_run::advance(state, clock, plan, tape, steps, events)
}

// What is left to refuse once the image is accepted, and the run.
fn run_for(
    plan: Plan,
    tape: &mut [u16],
    asked: &Asked,
    events: &mut [u32],
    store: &mut [u16],
) -> Result<FreshDone, Refusal>
    requires { Planned plan tape.old × (plan.places ≡ places_for plan.facts plan.learns) × (plan.learns ≡ asked.now.lent) }
    ensures { FreshMet (answered asked.now.state result) (read_got (model_on plan tape.old) 0) asked.now.state asked.now.steps events.old events.new
        asked.now.lent store.old store.new }
{
    let state = asked.state;
    let mut now = [0u16; STATE_WORDS];
    let known = call_store::admit(state, &mut now, store, plan, tape)?;
    let went = set_out(&mut now, state.clock, known, tape, asked.steps, events);
    call_store::give_back(store, plan, went.plan, tape);
    Ok(FreshDone {
        number: went.number(),
        position: 0,
        state: layout_state::read_state(&now, went.clock),
        made: went.made,
    })
}

// Running, with the tape to lay the image out on.
fn run_on(
    begun: &Begun,
    asked: &Asked,
    events: &mut [u32],
    store: &mut [u16],
    tape: &mut [u16],
) -> Result<FreshDone, Refusal>
    requires learning { begun.now.plan.learns ≡ asked.now.lent }
    requires taped { begun.now.plan.end ≤ length tape.old }
    ensures { FreshMet (answered asked.now.state result) (decode begun.now.image) asked.now.state asked.now.steps events.old events.new asked.now.lent store.old store.new }
{
    read_image::lay_out(Ok(begun), tape)?;
    run_for(begun.plan(), tape, asked, events, store)
}

// Running on a tape of this size. It is a function of its own, and never set into its caller, so that the stack holds one tape at a time.
#[inline(never)]
fn run_in<const TAPE: usize>(
    begun: &Begun,
    asked: &Asked,
    events: &mut [u32],
    store: &mut [u16],
) -> Result<FreshDone, Refusal>
    requires learning { begun.now.plan.learns ≡ asked.now.lent }
    requires taped { (begun.now.plan.end ≤ TAPE) × (TAPE ≤ 58328) }
    ensures { FreshMet (answered asked.now.state result) (decode begun.now.image) asked.now.state asked.now.steps events.old events.new asked.now.lent store.old store.new }
{
    let mut tape = [0u16; TAPE];
    run_on(begun, asked, events, store, &mut tape)
}

// Running, on the smallest tape that has room.
fn ran(
    image: &[u8],
    asked: &Asked,
    events: &mut [u32],
    store: &mut [u16],
) -> Result<FreshDone, Refusal>
    ensures { FreshMet (answered asked.now.state result) (decode image.now) asked.now.state asked.now.steps events.old events.new asked.now.lent store.old store.new }
{
    let begun = read_image::begin(image, asked.lent)?;
    let end = begun.plan().end;
    if end <= SMALL_TAPE {
        run_in::<SMALL_TAPE>(&begun, asked, events, store)
    } else if end <= STORE_TAPE {
        run_in::<STORE_TAPE>(&begun, asked, events, store)
    } else if end <= MIDDLE_TAPE {
        run_in::<MIDDLE_TAPE>(&begun, asked, events, store)
    } else {
        run_in::<LARGE_TAPE>(&begun, asked, events, store)
    }
}

/// Runs at most `steps` steps from a state with nothing kept, and with what `lent` says is lent (1: a store): the number, the position of a refused field, the state and the steps made.
/// Every rule is matched afresh at each step, and each step is noted in three lent words, as long as there is room: the clock after it, 0 and the rule that fired or 1 and the ms waited.
/// What is learned joins the store; where it is not lent its words are neither read nor written.
#[tactic(auto, unfolding(meaning::specs::Fresh::fresh_lent, meaning::specs::Fresh::fresh_trace_lent))]
pub fn fresh_lent(
    image: &[u8],
    state: State,
    steps: u16,
    events: &mut [u32],
    lent: u16,
    store: &mut [u16],
) -> FreshDone
    ensures { (with_store result store.new ≡ fresh_lent image.now state steps lent store.old)
        × (events.new ≡ inscribed events.old 0 (fresh_trace_lent image.now state steps (lent_by lent store.old)).events) }
{
    let learns = lent % 2 == 1;
    let asked = Asked {
        state,
        steps,
        lent: learns,
    };
    answered(ran(image, &asked, events, store), state)
}

/// Runs with nothing lent, and notes each step as `fresh_lent` does.
#[tactic(auto, unfolding(meaning::specs::Fresh::fresh_lent, meaning::specs::Fresh::fresh_of))]
pub fn trace_fresh(image: &[u8], state: State, steps: u16, events: &mut [u32]) -> FreshDone
    ensures { (fresh_back result ≡ fresh_of image.now state steps)
        × (events.new ≡ inscribed events.old 0 (fresh_trace_of image.now state steps).events) }
{
    let mut no_store = [0u16; 1];
    fresh_lent(image, state, steps, events, 0, &mut no_store)
}

/// Runs at most `steps` steps from a state, with every rule matched afresh at each step: the number, the position of a refused field, the state and the steps made.
pub fn run_fresh(image: &[u8], state: State, steps: u16) -> FreshDone
    ensures { fresh_back result ≡ fresh_of image.now state steps }
{
    let mut no_events = [0u32; 1];
    trace_fresh(image, state, steps, &mut no_events)
}
