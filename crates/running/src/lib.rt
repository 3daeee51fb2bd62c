// A run, whichever engine makes its steps: step after step, until all are made or one is refused. Between two steps there are the state, its clock,
// the memory, and what the engine keeps of its own.
#![tactic(auto)]

ghost use Rattle.std.specs.Prelude.{◌≡◌, ℕ, ◌≤◌, List, length, IfOk, IfErr, OnOk, OnErr};
ghost use Rattle.std.proofs.Math.Option.{Option};
ghost use Rattle.meaning.specs.declared.State.{State};
ghost use Rattle.meaning.specs.Model.{Model, Chunk, Fact};
ghost use Rattle.meaning.specs.Run.{Run, ends};
ghost use Rattle.layout.specs.declared.Plan.{Plan};
ghost use Rattle.layout.specs.Growth.{Extended};
ghost use Rattle.layout.specs.StateWords.{state_in};
ghost use Rattle.layout.specs.Plans.{Planned};
ghost use Rattle.step_retrieve.specs.Chains.{ChainsOn};
ghost use Rattle.step_note.specs.Events.{noted, event_words};
ghost use Rattle.step_learn.specs.Knows.{Knows};
ghost use Rattle.step_made.specs.Made.{event_of};
ghost use Rattle.running.specs.Runs.{Moves, Stays, RunMet, ended_by};

use layout::Plan;
use meaning::{ALL_DONE, Event, Reason};
use step_learn::NEWS_WORDS;
use step_made::Made;

/// How a run went: whether all steps were made, or why the next was not; the clock after them, the steps made, and the plan that knows of what was learned.
#[derive(Clone, Copy, Debug, PartialEq, Eq)]
pub struct Went {
    pub ended: Result<(), Reason>,
    pub clock: u32,
    pub made: u16,
    pub plan: Plan,
}

impl Went {
    /// The number that a call answers for it.
    pub fn number(&self) -> u8
        ensures { result ≡ ended_by self.now.ended }
    {
        match self.ended {
            Ok(()) => ALL_DONE,
            Err(reason) => reason.number(),
        }
    }
}

/// What makes the steps of a run.
pub trait Engine {
    // what goes from step to step in the definitions, and the run that they give of it
    ghost Left: { Type 0 };

    ghost run: { Model → ℕ → Left → Run Left };

    // the same with what the engine keeps, of a state and a store
    ghost left: { Self → State → Option (List Chunk) → Left };

    // what holds of what it keeps between two steps, with plan, tape and state
    ghost ready: { Self → Plan → List ℕ → List ℕ → Type 0 };

    // the words that it is lent
    ghost Lent: { Type 0 };

    ghost lent: { Self → Lent };

    /// One step of the model that plan and tape mean; a step that is refused leaves all as it is. What it adds to the store is in `news`.
    fn turn(
        &mut self,
        state: &mut [u16],
        clock: u32,
        plan: Plan,
        tape: &[u16],
        news: &mut [u16],
    ) -> Result<Made, Reason>
        requires { Planned plan tape.now × ChainsOn plan tape.now × (88 ≤ length state.old) × (88 ≤ length news.old) × ready self.old plan tape.now state.old }
        ensures moves { IfOk result (λ made. Moves run made plan tape.now (left self.old) (left self.new) state.old state.new news.new clock) }
        ensures stays { IfErr result (λ reason. Stays run reason plan tape.now (left self.old) (state_in state.old clock)) }
        ensures kept { OnErr result ((state.new ≡ state.old) × (left self.new ≡ left self.old)) }
        ensures ready { OnOk result (ready self.new plan tape.now state.new) }
        ensures lent { lent self.new ≡ lent self.old };

    // where no step is left to make, all that was asked is done
    ghost done: { (m : Model) (g : Left) → run m 0 g ≡ ends 0 g };

    // what holds between two steps stays while a memory grows
    ghost grows: { (e : Self) (p p' : Plan) (tape tape' : List ℕ) (new : List Fact) (state : List ℕ)
        → Planned p tape → Extended p tape p' tape' new → ready e p tape state → ready e p' tape' state };
}

// Notes event k, in the words of what C is told.
fn note(events: &mut [u32], k: u16, clock: u32, event: Event)
    ensures { events.new ≡ noted events.old k (event_words clock (event_of event)) }
{
    match event {
        Event::Fired(rule) => step_note::note(events, k, clock, 0, rule),
        Event::Waited(ms) => step_note::note(events, k, clock, 1, ms),
    }
}

/// At most `steps` steps of the model that plan and tape mean, from a state in words with its clock; event k goes to three lent words, as long as there is room.
/// What a step adds to the store stands on the tape from then on, in rows after the facts that are known.
pub fn advance<E: Engine>(
    engine: &mut E,
    state: &mut [u16],
    clock: u32,
    plan: Plan,
    tape: &mut [u16],
    steps: u16,
    events: &mut [u32],
) -> Went
    requires { Planned plan tape.old × (88 ≤ length state.old) × ChainsOn plan tape.old × E.ready engine.old plan tape.old state.old }
    ensures run_met { (m : Model) (store : Option (List Chunk)) → Knows plan tape.old m store
        → RunMet E.run (E.left engine.old) (E.left engine.new) result m store state.old state.new clock steps events.old events.new tape.new }
    ensures planned { Planned result.plan tape.new }
    ensures lent { E.lent engine.new ≡ E.lent engine.old }
{
    let mut now = clock;
    let mut known = plan;
    let mut news = [0u16; NEWS_WORDS];
    for made in 0..steps {
        let step = match engine.turn(state, now, known, tape, &mut news) {
            Ok(step) => step,
            Err(reason) => {
                return Went {
                    ended: Err(reason),
                    clock: now,
                    made,
                    plan: known,
                };
            }
        };
        now += step_made::elapsed(step.event) as u32;
        known = step_grow::grow(known, tape, &news, step.joined);
        note(events, made, now, step.event);
    }
    Went {
        ended: Ok(()),
        clock: now,
        made: steps,
        plan: known,
    }
}
