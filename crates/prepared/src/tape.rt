// A plan and the tape that an accepted image was laid out on by it, as one value that is read.
ghost use Rattle.std.specs.Prelude.{◌≡◌, ◌+◌, ◌*◌, ◌≤◌, ◌<◌, get_or, drop};
ghost use Rattle.layout.specs.Plans.{heads_on, rows_on, order_on, types_on, Planned};
ghost use Rattle.prepared.specs.Views.{chains_on};

use crate::RuleWords;
use layout::{FACTS_AT, HEAD_WORDS, OPENING_AT, Plan, RULE_WORDS};
use std::marker::Model;

/// A plan and a tape that mean a model: what the counts say stands in the sections, and no rule has more than eight tests, queries or actions.
#[derive(Drop)]
pub struct Prepared<'a> {
    plan: Plan,
    tape: &'a [u16],
}

impl<'a> Model for Prepared<'a> {
    ghost use Rattle.layout.specs.Plans.{Planned};
    ghost use Rattle.prepared.specs.Views.{Laying};

    ghost Value = { Laying };

    ghost view = { λ p. record { plan = p.plan; tape = p.tape.now } };

    ghost invariant = { λ p. Planned p.plan p.tape.now };
}

impl<'a> Prepared<'a> {
    /// A tape by its plan.
    pub fn new(plan: Plan, tape: &'a [u16]) -> Prepared<'a>
        requires { Planned plan tape.now }
        ensures { result ≡ record { plan = plan; tape = tape.now } }
    {
        Prepared { plan, tape }
    }

    /// The plan, which tells the counts.
    pub fn plan(&self) -> Plan
        ensures value { result ≡ self.now.plan }
        ensures planned { Planned result self.now.tape }
    {
        self.plan
    }

    /// The slot count of each type, nil's first.
    pub fn types(&self) -> &'a [u16]
        ensures { result.now ≡ types_on self.now.plan self.now.tape }
    {
        let end = self.plan.declared as usize + 1;
        &self.tape[..end]
    }

    /// The opening state in words, and what stands after it.
    pub fn opening(&self) -> &'a [u16]
        ensures { result.now ≡ drop 64 self.now.tape }
    {
        &self.tape[OPENING_AT..]
    }

    /// The rows of the facts, and what stands after them.
    pub fn facts(&self) -> &'a [u16]
        ensures { result.now ≡ drop 152 self.now.tape }
    {
        &self.tape[FACTS_AT..]
    }

    /// The chains of the facts, where a run laid them, and what stands after them.
    pub fn chains(&self) -> &'a [u16]
        ensures { result.now ≡ chains_on self.now.plan self.now.tape }
    {
        &self.tape[self.plan.chains..]
    }

    /// The heads of the rules, and what stands after them.
    pub fn heads(&self) -> &'a [u16]
        ensures { result.now ≡ heads_on self.now.plan self.now.tape }
    {
        &self.tape[self.plan.heads..]
    }

    /// The words of the rules, and what stands after them.
    pub fn rows(&self) -> &'a [u16]
        ensures { result.now ≡ rows_on self.now.plan self.now.tape }
    {
        &self.tape[self.plan.rows..]
    }

    /// The order of the rules, where a run laid it.
    pub fn order(&self) -> &'a [u16]
        ensures { result.now ≡ order_on self.now.plan self.now.tape }
    {
        &self.tape[self.plan.order..]
    }

    /// How many actions rule k has, eight at most.
    pub fn actions(&self, k: usize) -> usize
        requires { k < self.now.plan.rules }
        ensures value { result ≡ get_or (heads_on self.now.plan self.now.tape) (4 * k + 1) 0 }
        ensures few { result ≤ 8 }
    {
        let heads = &self.tape[self.plan.heads..];
        heads[HEAD_WORDS * k + 1] as usize
    }

    /// The words of rule k.
    pub fn rule(&self, k: usize) -> RuleWords<'a>
        requires { k < self.now.plan.rules }
        ensures { result ≡ record { words = rows_on self.now.plan self.now.tape; at = 185 * k; tests = get_or (heads_on self.now.plan self.now.tape) (4 * k) 0 } }
    {
        let heads = &self.tape[self.plan.heads..];
        let rows = &self.tape[self.plan.rows..];
        RuleWords::new(rows, RULE_WORDS * k, heads[HEAD_WORDS * k] as usize)
    }
}
