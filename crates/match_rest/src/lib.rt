// The refresh of a run: a rule that fails at a constant sleeps in a bed for that word of the state and that value, and is looked at again
// only after a step has marked that word's buffer, which is visible, and the word has a value of the same bed.
#![tactic(auto)]

ghost use Rattle.std.specs.Prelude.{◌≡◌, true, List, ℕ, ◌+◌, ◌*◌, ◌/◌, ◌≤◌, ◌<◌, length};
ghost use Rattle.meaning.specs.Refresh.{refresh};
ghost use Rattle.layout.specs.Rows.{rules_in};
ghost use Rattle.layout.specs.StateWords.{state_in};
ghost use Rattle.match_beds.specs.Beds.{Roomy, Cleared};
ghost use Rattle.match_rest.specs.Rest.{Resting, Stepped};
ghost use Rattle.match_rest.specs.Visits.{LowPlace, Settled, Visitable, Visited, VisitedAll};
ghost use Rattle.meaning.specs.Base.{bit};
ghost use Rattle.match_order.specs.Order.{Ranked, place_of};

use layout::{ENTRY_WORDS, HEAD_WORDS, RULE_WORDS};
use match_beds::SURE_AT;
use match_order::HITS_AT;
use match_rule::Tried;
use prepared::RuleWords;

// What a match of rule k gave is noted: whether it matches, by its place in the order; and it sleeps if one word of the state told that it does not.
fn settle(sets: &mut [u64], order: &[u16], k: usize, tried: Tried)
    requires { (k < 256) × (2 * k + 2 ≤ length order.now) × (place_of order.now k < 256) × (308 + 256 * (k / 64) ≤ length sets.old) × LowPlace tried }
    ensures { Settled tried k (place_of order.now k) sets.old sets.new }
{
    let at = order[2 * k + 1] as usize;
    match tried {
        Tried::Hit => match_sets::put(sets, HITS_AT, at),
        Tried::Varies => match_sets::remove(sets, HITS_AT, at),
        Tried::Differs { place, wanted } => {
            match_sets::remove(sets, HITS_AT, at);
            match_beds::lay_down(sets, k, place as usize, wanted);
        }
    }
}

// Rule k is matched again: its entry is made afresh, and what it gave is noted.
// (`match_table::entry_at` begins alike, but says nothing of why; one function for both would need a contract longer than what they share.)
fn visit(
    table: &mut [u16],
    sets: &mut [u64],
    order: &[u16],
    heads: &[u16],
    words: &[u16],
    state: &[u16],
    k: usize,
)
    requires { Visitable heads.now words.now order.now (length table.old) (length sets.old) k × (88 ≤ length state.now) }
    ensures { Visited heads.now words.now order.now state.now k table.old table.new sets.old sets.new }
{
    let tests = heads[HEAD_WORDS * k] as usize;
    let rule = RuleWords::new(words, RULE_WORDS * k, tests);
    let a = ENTRY_WORDS * k;
    let e = a + ENTRY_WORDS;
    let tried = match_rule::try_into(&mut table[a..e], &rule, state);
    settle(sets, order, k, tried);
}

// Those of rules 64 w to 64 w + 63 that are in a set are matched again.
fn visit_all(
    table: &mut [u16],
    sets: &mut [u64],
    order: &[u16],
    heads: &[u16],
    words: &[u16],
    state: &[u16],
    w: usize,
    todo: u64,
)
    requires { (88 ≤ length state.now) × (w < 4) × ((i : ℕ) → bit todo i ≡ true → Visitable heads.now words.now order.now (length table.old) (length sets.old) (64 * w + i)) }
    ensures { VisitedAll heads.now words.now order.now state.now w todo 64
        table.old table.new sets.old sets.new }
{
    // A `while`, for speed: a turn for each rule in the set.
    let mut rest = todo;
    while rest != 0 {
        let k = 64 * w + match_sets::lowest(rest);
        visit(table, sets, order, heads, words, state, k);
        rest = match_sets::drop_lowest(rest);
    }
}

/// The refresh of n rules after a step with that mark: of the rules that test or query a marked buffer, those that are awake are matched again.
pub fn renew(
    table: &mut [u16],
    sets: &mut [u64],
    order: &[u16],
    heads: &[u16],
    words: &[u16],
    n: usize,
    state: &[u16],
    mark: u16,
)
    requires { Stepped heads.now words.now order.now n state.now mark table.old sets.old }
    ensures by_index { (clock : ℕ) → table.new ≡ refresh (rules_in heads.now words.now n) (state_in state.now clock) mark table.old }
    ensures rests { Resting heads.now words.now order.now n state.now table.new sets.new }
{
    match_beds::wake_all(sets, n, state, mark);
    for w in 0..n.div_ceil(64) {
        let all = match_beds::touched(sets, w, mark);
        let todo = all & sets[w];
        visit_all(table, sets, order, heads, words, state, w, todo);
        sets[SURE_AT + w] |= all;
    }
}

/// What a run keeps of n rules in that order, as it begins with a table that is right or wrong: all of them awake, and no bed used.
pub fn lay_rest(sets: &mut [u64], order: &[u16], heads: &[u16], table: &[u16], n: usize)
    requires { Roomy n sets.old × Ranked heads.now order.now n × (4 * n ≤ length heads.now) × (9 * n ≤ length table.now) × Cleared sets.old }
    ensures { (words state : List ℕ) → Resting heads.now words order.now n state table.now sets.new }
{
    match_order::lay_hits(sets, order, table, n);
    match_beds::lay_testers(sets, heads, n);
    match_beds::lay_awake(sets);
}
