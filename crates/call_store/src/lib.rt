// What a run is handed besides its image: the state, judged and laid out in words, and a store that is lent, judged and laid on the tape before it, and given back after it.
// Where no store is lent, none is read or written.
#![tactic(auto)]

ghost use Rattle.std.specs.Prelude.{if◌then◌else◌, ◌≡◌, true, ◌≤◌, length};
ghost use Rattle.std.proofs.Math.Option.{some};
ghost use Rattle.meaning.specs.Store.{store_left};
ghost use Rattle.layout.specs.Plans.{places_for, Planned};
ghost use Rattle.store_words.specs.Loads.{learned_on};
ghost use Rattle.call_store.specs.Lending.{TakenIn, Admits, Backing};

use layout::Plan;
use meaning::{Reason, State};

/// What is asked of a run of either engine: the state to run from, the steps at most, and whether a store is lent.
#[derive(Clone, Copy, Debug, PartialEq, Eq)]
pub struct Asked {
    pub state: State,
    pub steps: u16,
    pub lent: bool,
}

// Takes a store, if the plan says that one is lent and the image can have it: the plan that knows its facts.
fn take_in(store: &[u16], plan: Plan, tape: &mut [u16]) -> Result<Plan, Reason>
    requires { Planned plan tape.old × (plan.places ≡ places_for plan.facts plan.learns) }
    ensures { TakenIn result plan tape.old tape.new store.now }
{
    if plan.learns {
        store_words::load(store, plan, tape)
    } else {
        Ok(plan)
    }
}

/// Lays a state into words, and looks at what is left to refuse once an image is accepted: the state (6), and then the store, if the plan says that one is lent (15).
/// What is accepted is answered by the plan that knows the facts of a store, if one is lent.
pub fn admit(
    state: State,
    words: &mut [u16],
    store: &[u16],
    plan: Plan,
    tape: &mut [u16],
) -> Result<Plan, Reason>
    requires { Planned plan tape.old × (plan.places ≡ places_for plan.facts plan.learns) × (88 ≤ length words.old) }
    ensures { Admits result plan tape.old tape.new state words.new store.now }
{
    layout_state::lay_state(state, words);
    let end = plan.declared as usize + 1;
    if !layout_state::well_formed(words, &tape[..end], plan.buffers as usize) {
        return Err(Reason::IllFormed);
    }
    take_in(store, plan, tape)
}

/// Gives a store back, if one was lent, with what the plan knows more than the image has.
pub fn give_back(store: &mut [u16], plan: Plan, known: Plan, tape: &[u16])
    requires { Planned known tape.now × (plan.learns ≡ true → Backing known tape.now store.old plan.facts) }
    ensures { store.new ≡ (if plan.learns then store_left store.old (some (learned_on known tape.now plan.facts)) else store.old) }
{
    if plan.learns {
        let had = store[0] as usize;
        store_words::lay_back(store, known, tape, plan.facts as usize, had);
    }
}
