// A step that was made or refused, as both engines have it: what a firing and a wait come to, once it is known which of the two it is.
#![tactic(auto)]

ghost use Rattle.std.specs.Prelude.{◌≡◌, ◌≤◌, ◌<◌, length, IfOk};
ghost use Rattle.meaning.specs.Wait.{soonest};
ghost use Rattle.meaning.specs.Step.{wait_step};
ghost use Rattle.layout.specs.Rows.{rule_in};
ghost use Rattle.layout.specs.StateWords.{buffers_in, state_in};
ghost use Rattle.layout.specs.Plans.{facts_on, heads_on, rows_on};
ghost use Rattle.step_retrieve.specs.Chains.{ChainsOn};
ghost use Rattle.step_made.specs.Made.{ms_of, clock_after, firing, placed, StepMet, Joins, Waits};

use layout::{ACTIONS_AT, RULE_WORDS};
use meaning::{Event, Reason};
use prepared::Prepared;

/// A step that was made: what it did, the mark of the buffers that it changed, and how many chunks join the store.
#[derive(Clone, Copy, Debug, PartialEq, Eq)]
pub struct Made {
    pub event: Event,
    pub mark: u16,
    pub joined: usize,
}

/// The ms that a firing takes.
pub const FIRING: u16 = 50;

/// The ms that pass in a step.
pub fn elapsed(event: Event) -> u16
    ensures { result ≡ ms_of event }
{
    match event {
        Event::Fired(_) => FIRING,
        Event::Waited(ms) => ms,
    }
}

/// The clock some ms later, if it is not past its limit.
pub fn clock_after(clock: u32, ms: u16) -> Result<u32, Reason>
    ensures { result ≡ clock_after clock ms }
{
    clock.checked_add(ms as u32).ok_or(Reason::ClockFull)
}

/// Fires rule k with the nine words of its entry, unless the clock would pass its limit, or what it adds to the store has no place.
/// What it adds is written into `news`, from the state before it.
pub fn fire(
    state: &mut [u16],
    clock: u32,
    k: usize,
    image: &Prepared,
    nine: &[u16],
    news: &mut [u16],
) -> Result<Made, Reason>
    requires { (k < image.now.plan.rules) × (88 ≤ length state.old) × ChainsOn image.now.plan image.now.tape × (length nine.now ≡ 9) × (88 ≤ length news.old) }
    ensures step_met { StepMet (placed image.now.plan image.now.tape (state_in state.old clock)
        (firing image.now.plan.failure (facts_on image.now.plan image.now.tape) (state_in state.old clock) k (rule_in (heads_on image.now.plan image.now.tape) (rows_on image.now.plan image.now.tape) k) nine.now))
        result state.old state.new clock }
    ensures joins { Joins result image.now.plan image.now.tape state.old news.new }
{
    clock_after(clock, FIRING)?;
    let joined = step_learn::collect(news, state, image, k);
    let plan = image.plan();
    if (plan.places as usize) < plan.facts as usize + joined {
        return Err(Reason::StoreFull);
    }
    let actions = image.actions(k);
    let o = RULE_WORDS * k + ACTIONS_AT;
    let mark = step_fire::fire(state, image, o, actions, nine);
    Ok(Made {
        event: Event::Fired(k as u16),
        mark,
        joined,
    })
}

/// Waits until the next buffer is visible, unless nothing is pending or the clock would pass its limit.
pub fn wait(state: &mut [u16], clock: u32) -> Result<Made, Reason>
    requires { 88 ≤ length state.old }
    ensures step_met { StepMet (wait_step (state_in state.old clock) (soonest 0 (buffers_in state.old))) result state.old state.new clock }
    ensures waits { IfOk result Waits }
{
    let ms = step_wait::soonest(state);
    if ms == 0 {
        return Err(Reason::Halted);
    }
    clock_after(clock, ms)?;
    let mark = step_wait::wait(state, ms);
    Ok(Made {
        event: Event::Waited(ms),
        mark,
        joined: 0,
    })
}
