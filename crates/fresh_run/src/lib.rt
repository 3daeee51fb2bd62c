// A run with nothing kept but what is learned: step after step, until all are made or one is refused. Between two steps there is the state, its clock and the memory.
#![tactic(auto)]

ghost use Rattle.std.specs.Prelude.{◌≤◌, List, length};
ghost use Rattle.std.proofs.Math.Option.{Option};
ghost use Rattle.meaning.specs.Model.{Model, Chunk};
ghost use Rattle.meaning.specs.Fresh.{Moving, moving, fresh_from};
ghost use Rattle.layout.specs.Plans.{Planned};
ghost use Rattle.step_retrieve.specs.Chains.{ChainsOn};
ghost use Rattle.step_learn.specs.Knows.{Knows};
ghost use Rattle.fresh_run.specs.Turns.{run-done};
ghost use Rattle.fresh_run.specs.Went.{WentMet};

use layout::Plan;
use meaning::Reason;
use prepared::Prepared;
use running::Engine;
pub use running::Went;
use step_made::Made;

/// The engine without a table: it keeps nothing between two steps.
#[derive(Drop)]
pub struct Fresh;

impl Engine for Fresh {
    ghost Left = { Moving };

    ghost run = { fresh_from };

    ghost left = { λ e s store. moving s store };

    ghost ready = { λ e p tape state. Unit {0} };

    ghost Lent = { Unit {0} };

    ghost lent = { λ e. tt };

    fn turn(
        &mut self,
        state: &mut [u16],
        clock: u32,
        plan: Plan,
        tape: &[u16],
        news: &mut [u16],
    ) -> Result<Made, Reason> {
        fresh_step::step(state, clock, &Prepared::new(plan, tape), news)
    }

    ghost done = { run-done };

    ghost grows = { λ e p p' tape tape' new state planned grown ready. tt };
}

/// At most `steps` steps of the model that plan and tape mean, from a state in words with its clock; event k goes to three lent words, as long as there is room.
/// What a step adds to the store stands on the tape from then on, in rows after the facts that are known.
pub fn advance(
    state: &mut [u16],
    clock: u32,
    plan: Plan,
    tape: &mut [u16],
    steps: u16,
    events: &mut [u32],
) -> Went
    requires { Planned plan tape.old × (88 ≤ length state.old) × ChainsOn plan tape.old }
    ensures went_met { (m : Model) (store : Option (List Chunk)) → Knows plan tape.old m store
        → WentMet result m store state.old state.new clock steps events.old events.new tape.new }
    ensures planned { Planned result.plan tape.new }
{
    let mut fresh = Fresh;
    running::advance(&mut fresh, state, clock, plan, tape, steps, events)
}
