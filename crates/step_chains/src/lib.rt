// The chains of the facts, laid on the tape between the facts and the heads of the rules.
#![tactic(auto)]

ghost use Rattle.layout.specs.Plans.{Planned};
ghost use Rattle.step_chains.specs.Laid.{ChainsLaid};

use layout::{FACTS_AT, Plan};

/// Lays the chains of the facts: 64 words, and a word for each fact.
pub fn lay_chains(plan: Plan, tape: &mut [u16])
    requires { Planned plan tape.old }
    ensures { ChainsLaid plan tape.old tape.new }
{
    let n = plan.facts as usize;
    let (front, back) = tape.split_at_mut(plan.chains);
    step_retrieve::chain(&mut back[..64 + n], &front[FACTS_AT..], n);
}
