// What a run with a table lays on the tape besides the model: the chains of the facts, and the order of the rules.
#![tactic(auto)]

ghost use Rattle.layout.specs.Plans.{Planned};
ghost use Rattle.step_aids.specs.Aids.{OrderLaid, AidsLaid};

use layout::Plan;

// The order of the rules, two words for each; in most models their ranks fall already.
fn lay_order(plan: Plan, tape: &mut [u16])
    requires { Planned plan tape.old }
    ensures { OrderLaid plan tape.old tape.new }
{
    let n = plan.rules as usize;
    let heads = plan.heads;
    let order = plan.order;
    if match_order::falling(&tape[heads..], n) {
        match_order::lay_same(&mut tape[order..], n);
        return;
    }
    // The ranks stand in words of their own: each is worked out once, and compared with every other.
    let mut ranks = [0u32; 256];
    match_order::lay_ranks(&mut ranks, &tape[heads..], n);
    match_order::lay_counted(&mut tape[order..], &ranks, n);
}

/// Both, one after the other, so that neither touches what stands.
pub fn lay_aids(plan: Plan, tape: &mut [u16])
    requires { Planned plan tape.old }
    ensures { AidsLaid plan tape.old tape.new }
{
    step_chains::lay_chains(plan, tape);
    lay_order(plan, tape);
}
