// A memory that grows: facts added after the known ones, each in the row after the last and at the end of its chain.
#![tactic(auto)]

ghost use Rattle.std.specs.Prelude.{[], ◌∷◌, ◌+◌, ◌*◌, ◌≤◌, ◌<◌, length, drop};
ghost use Rattle.layout.specs.Rows.{fact_in, facts_in};
ghost use Rattle.layout.specs.Plans.{Planned};
ghost use Rattle.step_retrieve.specs.Chains.{Chained, ChainsOn};
ghost use Rattle.step_grow.specs.Grown.{Last, Grown};

use layout::{FACTS_AT, Plan, ROW_WORDS};
use step_retrieve::CHAIN_END;

// The last link of chain h of n facts: the number of the word, among the words of the chains, that names no fact after it.
// A walk along a chain, whose end is seen only when it is reached.
fn last_link(tape: &[u16], chains: usize, h: usize, n: usize) -> usize
    requires { Chained (drop chains tape.now) (drop 152 tape.now) n × (chains + 64 + n ≤ length tape.now) × (h < 64) }
    ensures { Last (drop chains tape.now) (drop 152 tape.now) n h result }
{
    let mut at = h;
    let mut next = tape[chains + at] as usize;
    while next < n {
        at = 64 + next;
        next = tape[chains + at] as usize;
    }
    at
}

// Adds one fact, the row at q of `news`; the plan that knows of it.
fn add(plan: Plan, tape: &mut [u16], news: &[u16], q: usize) -> Plan
    requires { Planned plan tape.old × ChainsOn plan tape.old × (plan.facts + 1 ≤ plan.places) × (q + 11 ≤ length news.now) }
    ensures { Grown plan tape.old result tape.new (fact_in news.now q ∷ []) }
{
    let n = plan.facts as usize;
    let chains = plan.chains;
    let h = (news[q + 3] % 64) as usize;
    let at = last_link(tape, chains, h, n);
    let row = FACTS_AT + ROW_WORDS * n;
    tape[row..row + ROW_WORDS].copy_from_slice(&news[q..q + ROW_WORDS]);
    tape[chains + 64 + n] = CHAIN_END;
    tape[chains + at] = plan.facts;
    Plan {
        facts: plan.facts + 1,
        ..plan
    }
}

/// Adds n facts, rows of eleven words in `news`, after those that the plan knows of, each at the end of its chain; the plan that knows of them.
/// Where there are none, plan and tape are as they were.
pub fn grow(plan: Plan, tape: &mut [u16], news: &[u16], n: usize) -> Plan
    requires { Planned plan tape.old × ChainsOn plan tape.old × (plan.facts + n ≤ plan.places) × (11 * n ≤ length news.now) }
    ensures { Grown plan tape.old result tape.new (facts_in news.now n) }
{
    let mut grown = plan;
    for i in 0..n {
        grown = add(grown, tape, news, ROW_WORDS * i);
    }
    grown
}
