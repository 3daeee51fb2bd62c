// A run with a table: step after step, the table refreshed after each, until all are made or one is refused.
#![tactic(auto)]

ghost use Rattle.std.specs.Prelude.{◌≡◌, ℕ, ◌+◌, ◌*◌, ◌≤◌, ◌<◌, length, List, IfOk, OnOk, OnErr};
ghost use Rattle.std.proofs.Math.Option.{Option};
ghost use Rattle.meaning.specs.Model.{Model, Chunk};
ghost use Rattle.meaning.specs.Step.{step_of};
ghost use Rattle.meaning.specs.Refresh.{refresh};
ghost use Rattle.meaning.specs.Run.{Going, going, run_from};
ghost use Rattle.layout.specs.StateWords.{state_in};
ghost use Rattle.layout.specs.Plans.{model_on, Planned};
ghost use Rattle.step_retrieve.specs.Chains.{ChainsOn};
ghost use Rattle.step_learn.specs.Knows.{Knows};
ghost use Rattle.step_made.specs.Made.{placed, StepMet, Joins};
ghost use Rattle.step_once.specs.Choosing.{RankedOn};
ghost use Rattle.step_run.specs.Aided.{Aided, RestingOn, SteppedOn};
ghost use Rattle.step_run.specs.Turns.{run-done, ready-grown};
ghost use Rattle.step_run.specs.Went.{WentMet};

use layout::Plan;
use meaning::Reason;
use running::Engine;
pub use running::Went;
use step_made::Made;

// The table and what is kept of its rules, after a step of the model that plan and tape mean, from the state after it and its mark.
fn renew(table: &mut [u16], sets: &mut [u64], plan: Plan, tape: &[u16], state: &[u16], mark: u16)
    requires { Planned plan tape.now × SteppedOn plan tape.now state.now mark table.old sets.old }
    ensures by_index { (clock : ℕ) → table.new ≡ refresh (model_on plan tape.now).rules (state_in state.now clock) mark table.old }
    ensures rests { RestingOn plan tape.now state.now table.new sets.new }
{
    let order = plan.order;
    let heads = plan.heads;
    let rows = plan.rows;
    let n = plan.rules as usize;
    match_rest::renew(
        table,
        sets,
        &tape[order..],
        &tape[heads..],
        &tape[rows..],
        n,
        state,
        mark,
    );
}

// One step, and the table and what is kept of its rules after it. A step that is refused leaves all as it is.
fn step_and_renew(
    state: &mut [u16],
    clock: u32,
    table: &mut [u16],
    plan: Plan,
    tape: &[u16],
    sets: &mut [u64],
    news: &mut [u16],
) -> Result<Made, Reason>
    requires { Planned plan tape.now × ChainsOn plan tape.now × (88 ≤ length state.old) × (88 ≤ length news.old) × (length table.old ≡ 9 * plan.rules)
        × RankedOn plan tape.now × RestingOn plan tape.now state.old table.old sets.old }
    ensures step_met { StepMet (placed plan tape.now (state_in state.old clock)
        (step_of (model_on plan tape.now) (state_in state.old clock) table.old)) result state.old state.new clock }
    ensures joins { Joins result plan tape.now state.old news.new }
    ensures kept { OnErr result (table.new ≡ table.old) }
    ensures renewed { IfOk result (λ made. (later : ℕ) → table.new ≡ refresh (model_on plan tape.now).rules (state_in state.new later) made.mark table.old) }
    ensures rests { OnOk result (RestingOn plan tape.now state.new table.new sets.new) }
{
    let made = step_once::step(state, clock, table, plan, tape, sets, news)?;
    renew(table, sets, plan, tape, state, made.mark);
    Ok(made)
}

/// The engine with a table: in words that are lent, the table and what is kept of its rules.
#[derive(Drop)]
pub struct Kept<'a> {
    table: &'a mut [u16],
    sets: &'a mut [u64],
}

impl<'a> Engine for Kept<'a> {
    ghost Left = { Going };

    ghost run = { run_from };

    ghost left = { λ e s store. going s e.table.now store };

    ghost ready = { λ e p tape state. (length e.table.now ≡ 9 * p.rules) × RankedOn p tape × RestingOn p tape state e.table.now e.sets.now };

    ghost Lent = { ℕ × ℕ };

    ghost lent = { λ e. (e.table.ghost_name, e.sets.ghost_name) };

    fn turn(
        &mut self,
        state: &mut [u16],
        clock: u32,
        plan: Plan,
        tape: &[u16],
        news: &mut [u16],
    ) -> Result<Made, Reason> {
        step_and_renew(state, clock, self.table, plan, tape, self.sets, news)
    }

    ghost done = { run-done };

    ghost grows = { λ e p p' tape tape' new state. ready-grown p p' tape tape' new state e.table.now e.sets.now };
}

/// At most `steps` steps of the model that plan and tape mean, from a state in words with its clock; event k goes to three lent words, as long as there is room.
/// What a step adds to the store stands on the tape from then on, in rows after the facts that are known.
pub fn advance(
    state: &mut [u16],
    clock: u32,
    table: &mut [u16],
    plan: Plan,
    tape: &mut [u16],
    steps: u16,
    events: &mut [u32],
    sets: &mut [u64],
) -> Went
    requires { Planned plan tape.old × (length table.old ≡ 9 * plan.rules) × (88 ≤ length state.old) × Aided plan tape.old
        × RestingOn plan tape.old state.old table.old sets.old }
    ensures went_met { (m : Model) (store : Option (List Chunk)) → Knows plan tape.old m store
        → WentMet result m store state.old state.new clock table.old table.new steps events.old events.new tape.new }
    ensures planned { Planned result.plan tape.new }
{
    let mut kept = Kept { table, sets };
    running::advance(&mut kept, state, clock, plan, tape, steps, events)
}
