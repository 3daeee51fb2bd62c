// A store that is lent in words: judged, its facts laid on a tape after the image's, and what was learned written back.
#![tactic(auto)]

ghost use Rattle.std.specs.Prelude.{◌≡◌, ◌+◌, ◌*◌, ◌≤◌, length, get_or, take, is_ok, IfErr};
ghost use Rattle.std.proofs.Math.Option.{some};
ghost use Rattle.std.proofs.lemmas.List.Edits.{sets};
ghost use Rattle.meaning.specs.declared.reasons.Reason.TheVariants.{BadStore};
ghost use Rattle.meaning.specs.Store.{place_in, holdable, store_in, store_left, place_words};
ghost use Rattle.layout.specs.Rows.{fact_in};
ghost use Rattle.layout.specs.Plans.{Planned};
ghost use Rattle.store_words.specs.Rows.{row_words, PlacesMet};
ghost use Rattle.store_words.specs.Loads.{LoadMet, learned_on};

use layout::{FACTS_AT, PLACE_WORDS, Plan, ROW_WORDS, STORE_PLACES, STORE_WORDS};
use meaning::Reason;

// Whether place i holds a fact that the image could hold: its type is one of the model's and not nil's, its values are symbols, its slots past the type's count are 0.
fn holds(store: &[u16], types: &[u16], i: usize) -> bool
    requires { 9 * i + 10 ≤ length store.now }
    ensures { result ≡ holdable types.now (place_in store.now i) }
{
    let o = PLACE_WORDS * i + 1;
    let isa = store[o] as usize;
    if isa < 1 {
        return false;
    }
    if types.len() <= isa {
        return false;
    }
    if !layout_state::at_most(store, o + 1, o + 9, 4095) {
        return false;
    }
    let count = types[isa] as usize;
    layout_state::at_most(store, o + 1 + count, o + 9, 0)
}

// Place i into a row of eleven words from o on.
fn lay_row(store: &[u16], i: usize, tape: &mut [u16], o: usize)
    requires { (9 * i + 10 ≤ length store.now) × (o + 11 ≤ length tape.old) }
    ensures { tape.new ≡ sets tape.old o (row_words (place_in store.now i)) }
{
    let from = PLACE_WORDS * i + 1;
    tape[o] = store[from];
    tape[o + 1] = 0;
    tape[o + 2] = 50;
    tape[o + 3..o + 11].copy_from_slice(&store[from + 1..from + 9]);
}

// Judges each of the first n places and lays its row after those of the plan; a place that the image could not hold ends it.
fn lay_places(store: &[u16], plan: Plan, tape: &mut [u16], n: usize) -> Result<(), Reason>
    requires { Planned plan tape.old × (plan.places ≡ plan.facts + 256) × (length store.now ≡ 2305) × (n ≤ 256) }
    ensures places { PlacesMet (is_ok result) plan tape.old tape.new store.now n }
    ensures refused { IfErr result (λ why. why ≡ BadStore) }
{
    let own = plan.facts as usize;
    let types = plan.declared as usize + 1;
    for i in 0..n {
        if !holds(store, &tape[..types], i) {
            return Err(Reason::BadStore);
        }
        lay_row(store, i, tape, FACTS_AT + ROW_WORDS * (own + i));
    }
    Ok(())
}

/// Looks at a store that is lent, which must be one that the image can have; and puts its facts on the tape in rows after the image's: the plan that knows them.
pub fn load(store: &[u16], plan: Plan, tape: &mut [u16]) -> Result<Plan, Reason>
    requires { Planned plan tape.old × (plan.places ≡ plan.facts + 256) }
    ensures { LoadMet result plan tape.old tape.new store.now }
{
    if store.len() != STORE_WORDS {
        return Err(Reason::BadStore);
    }
    let n = store[0];
    if STORE_PLACES < n {
        return Err(Reason::BadStore);
    }
    lay_places(store, plan, tape, n as usize)?;
    Ok(Plan {
        facts: plan.facts + n,
        ..plan
    })
}

// The chunk of the row from o on into place i.
fn lay_place(store: &mut [u16], i: usize, tape: &[u16], o: usize)
    requires { (9 * i + 10 ≤ length store.old) × (o + 11 ≤ length tape.now) }
    ensures { store.new ≡ sets store.old (9 * i + 1) (place_words (fact_in tape.now o).chunk) }
{
    let at = PLACE_WORDS * i + 1;
    store[at] = tape[o];
    store[at + 1..at + 9].copy_from_slice(&tape[o + 3..o + 11]);
}

/// Writes back what was learned: the count, and the places from `had` on; `own` is how many facts are the image's, `had` how many the store had.
pub fn lay_back(store: &mut [u16], plan: Plan, tape: &[u16], own: usize, had: usize)
    requires { Planned plan tape.now × (length store.old ≡ 2305) × (own + had ≤ plan.facts) × (plan.facts ≤ own + 256)
        × (get_or store.old 0 0 ≡ had) × (store_in store.old ≡ take had (learned_on plan tape.now own)) }
    ensures { store.new ≡ store_left store.old (some (learned_on plan tape.now own)) }
{
    let n = plan.facts as usize - own;
    store[0] = n as u16;
    for i in had..n {
        lay_place(store, i, tape, FACTS_AT + ROW_WORDS * (own + i));
    }
}
