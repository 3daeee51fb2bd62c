// One step, in place on a state's 88 words: the chosen rule fires, or time passes, or no step is made.
#![tactic(auto)]

ghost use Rattle.std.specs.Prelude.{◌≡◌, ℕ, ◌*◌, ◌≤◌, ◌<◌, length};
ghost use Rattle.meaning.specs.Base.{same};
ghost use Rattle.meaning.specs.Model.{Rule};
ghost use Rattle.meaning.specs.Match.{entry_of};
ghost use Rattle.meaning.specs.Step.{fire_step, step_of};
ghost use Rattle.layout.specs.StateWords.{state_in};
ghost use Rattle.layout.specs.Plans.{facts_on, heads_on, rows_on, model_on, Planned};
ghost use Rattle.match_rule.specs.Words.{StandsAt};
ghost use Rattle.match_choice.specs.Chosen.{candidate_at};
ghost use Rattle.step_retrieve.specs.Chains.{ChainsOn};
ghost use Rattle.step_made.specs.Made.{placed, StepMet, Joins};
ghost use Rattle.step_once.specs.Choosing.{rule_on, RankedOn, HittingOn, SureOn};
ghost use Rattle.match_rest.specs.Rest.{entry_at};

use layout::{ENTRY_WORDS, HEAD_WORDS, Plan, RULE_WORDS};
use match_beds::SURE_AT;
use meaning::Reason;
use prepared::{Prepared, RuleWords};
use step_made::Made;

// Whether nine words are the fresh entry of a rule.
fn is_fresh(nine: &[u16], rule: &RuleWords, state: &[u16]) -> bool
    requires { (length nine.now ≡ 9) × (88 ≤ length state.now) }
    ensures { (r : Rule) (clock : ℕ) → StandsAt r rule.now.words rule.now.at rule.now.tests → result ≡ same nine.now (entry_of r (state_in state.now clock)) }
{
    let mut fresh = [0u16; ENTRY_WORDS];
    match_rule::entry_into(&mut fresh, rule, state);
    match_rule::same_entry(nine, &fresh)
}

// Whether the nine words of rule k are its fresh entry: as a step of this call left them, or held against the fresh ones.
fn chosen_fresh(
    table: &[u16],
    sets: &[u64],
    k: usize,
    plan: Plan,
    tape: &[u16],
    state: &[u16],
) -> bool
    requires { Planned plan tape.now × (k < plan.rules) × (length table.now ≡ 9 * plan.rules) × (88 ≤ length state.now)
        × SureOn plan tape.now state.now table.now sets.now }
    ensures { (clock : ℕ) → result ≡ same (entry_at table.now k) (entry_of (rule_on plan tape.now k) (state_in state.now clock)) }
{
    if match_sets::holds(sets, SURE_AT, k) {
        return true;
    }
    let heads = plan.heads;
    let rows = plan.rows;
    let tests = tape[heads + HEAD_WORDS * k] as usize;
    let rule = RuleWords::new(&tape[rows..], RULE_WORDS * k, tests);
    let a = ENTRY_WORDS * k;
    let e = a + ENTRY_WORDS;
    is_fresh(&table[a..e], &rule, state)
}

// Fires rule k with its nine words of the table, unless these are not its fresh entry, the clock would pass its limit, or what it adds to the store has no place.
// What it adds is written into `news`, from the state before it.
fn fire_step(
    state: &mut [u16],
    clock: u32,
    table: &[u16],
    k: usize,
    plan: Plan,
    tape: &[u16],
    sets: &[u64],
    news: &mut [u16],
) -> Result<Made, Reason>
    requires { Planned plan tape.now × (k < plan.rules) × (length table.now ≡ 9 * plan.rules) × (88 ≤ length state.old)
        × ChainsOn plan tape.now × SureOn plan tape.now state.old table.now sets.now × (88 ≤ length news.old) }
    ensures step_met { StepMet (placed plan tape.now (state_in state.old clock) (fire_step plan.failure (facts_on plan tape.now) (state_in state.old clock)
        (candidate_at (heads_on plan tape.now) (rows_on plan tape.now) table.now k))) result state.old state.new clock }
    ensures joins { Joins result plan tape.now state.old news.new }
{
    if !chosen_fresh(table, sets, k, plan, tape, state) {
        return Err(Reason::NotFresh);
    }
    let first = ENTRY_WORDS * k;
    let end = first + ENTRY_WORDS;
    let image = Prepared::new(plan, tape);
    step_made::fire(state, clock, k, &image, &table[first..end], news)
}

/// One step of the model that plan and tape mean, with its table and the set of its matching rules; a step that is refused leaves the state as it is.
/// What a firing adds to the store is in `news`.
pub fn step(
    state: &mut [u16],
    clock: u32,
    table: &[u16],
    plan: Plan,
    tape: &[u16],
    sets: &[u64],
    news: &mut [u16],
) -> Result<Made, Reason>
    requires { Planned plan tape.now × (length table.now ≡ 9 * plan.rules) × (88 ≤ length state.old) × ChainsOn plan tape.now
        × RankedOn plan tape.now × HittingOn plan tape.now table.now sets.now × SureOn plan tape.now state.old table.now sets.now × (88 ≤ length news.old) }
    ensures step_met { StepMet (placed plan tape.now (state_in state.old clock)
        (step_of (model_on plan tape.now) (state_in state.old clock) table.now)) result state.old state.new clock }
    ensures joins { Joins result plan tape.now state.old news.new }
{
    let order = plan.order;
    match match_order::pick(sets, &tape[order..], plan.rules as usize) {
        Some(k) => fire_step(state, clock, table, k, plan, tape, sets, news),
        None => step_made::wait(state, clock),
    }
}
