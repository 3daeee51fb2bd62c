// A whole image: accepted, and laid out on a tape; or refused by reason and place. Each field is judged when it is read, in reading order.
#![tactic(auto)]

ghost use Rattle.std.specs.Prelude.{◌≡◌, ◌*◌, ◌≤◌, ◌<◌, ℕ, List, IfOk, IfErr, OnOk, length, take};
ghost use Rattle.meaning.specs.Numbers.{finer};
ghost use Rattle.meaning.specs.Read.{read_got};
ghost use Rattle.meaning.specs.Image.{header, contents, ending};
ghost use Rattle.layout.specs.Walks.{Small};
ghost use Rattle.layout.specs.Rows.{sizes, Laid};
ghost use Rattle.layout.specs.declared.Plan.{Plan};
ghost use Rattle.layout.specs.Plans.{heads_on, rows_on};
ghost use Rattle.read_opening.specs.Parts.{header_in};
ghost use Rattle.read_ranges.specs.Reading.{told_by, Follows};
ghost use Rattle.read_image.specs.Whole.{contents_on, InBounds, OpeningMet, RefusedOf, LaidOut, Checked};

use layout::{
    FACTS_AT, HEAD_WORDS, LARGE_TAPE, MIDDLE_TAPE, OPENING_AT, Plan, SMALL_TAPE, TYPES_AT,
};
use meaning::{Reason, Refusal};
use read_ranges::{Reader, Sizes};

mod begun;

pub use begun::{Begun, begin};

// The slot counts and the opening chunks, laid on the tape; the slot counts are given back too, to read the rest by. It is never set into its caller, so that the stack
// does not hold what it needs while the rest is read.
#[inline(never)]
fn lay_opening(reader: &mut Reader, plan: Plan, tape: &mut [u16]) -> Result<[u16; 64], Refusal>
    requires { (read_got (header_in plan) reader.old.at ≡ header finer reader.old.image 0) × InBounds plan × (152 ≤ length tape.old) }
    ensures { OpeningMet result plan reader.old reader.new tape.new }
{
    let types = read_opening::slot_counts(reader, plan.declared)?;
    let end = plan.declared as usize + 1;
    let state = read_opening::opening(reader, &types[..end], plan.buffers)?;
    tape[TYPES_AT..OPENING_AT].copy_from_slice(&types);
    layout_state::lay_state(state, &mut tape[OPENING_AT..]);
    Ok(types)
}

// Zero bits up to the byte's end, and no byte more.
fn finish(reader: &Reader) -> Result<(), Refusal>
    ensures { told_by (λ u. u) result reader.now ≡ ending reader.now.image reader.now.at }
{
    let padding = (8 - reader.at() % 8) % 8;
    if reader.ahead(padding) != 0 {
        return Err(Refusal::from(Reason::BadEnd));
    }
    if reader.at() + padding != reader.end() {
        return Err(Refusal::from(Reason::BadEnd));
    }
    Ok(())
}

// The facts and rules of a plan and the end: laid on the tape after what is there.
fn contents(reader: &mut Reader, types: &[u16], plan: Plan, tape: &mut [u16]) -> Result<(), Refusal>
    requires { Small types.now × (0 < length types.now) × InBounds plan × (plan.end ≤ length tape.old) }
    ensures tape_after { told_by (λ u. contents_on plan tape.new) result reader.new
        ≡ contents finer plan.version (sizes plan.buffers types.now) plan.facts plan.rules reader.old.image reader.old.at }
    ensures follows { Follows reader.old reader.new }
    ensures kept { take 152 tape.new ≡ take 152 tape.old }
    ensures laid { OnOk result (Laid (heads_on plan tape.new) (rows_on plan tape.new) plan.rules) }
{
    read_facts::facts(reader, types, plan.facts as usize, &mut tape[FACTS_AT..])?;
    let sizes = Sizes::new(plan.buffers, types);
    let rules = plan.rules as usize;
    let heads = plan.heads;
    read_rules::rules(
        reader,
        rules,
        plan.version,
        &sizes,
        &mut tape[heads..],
        HEAD_WORDS * rules,
    )?;
    finish(reader)
}

// Opening and contents of an image that is begun: laid out on a tape that has room for its plan.
fn lay_on(begun: &Begun, tape: &mut [u16]) -> Result<usize, Refusal>
    requires { begun.now.plan.end ≤ length tape.old }
    ensures { LaidOut result begun.now.plan begun.now.image tape.new }
{
    let plan = begun.plan();
    let mut reader = begun.reader();
    let types = lay_opening(&mut reader, plan, tape)?;
    let end = plan.declared as usize + 1;
    contents(&mut reader, &types[..end], plan, tape)?;
    Ok(reader.at())
}

/// Lays an image out on a tape that has room for its plan: the bit after its last field, or a refusal. Where its header was refused, it is refused so.
/// What a refused image leaves on the tape says nothing.
pub fn lay_out(begun: Result<&Begun, Refusal>, tape: &mut [u16]) -> Result<usize, Refusal>
    requires { IfOk begun (λ b. b.now.plan.end ≤ length tape.old) }
    ensures laid_out { IfOk begun.entry (λ b. LaidOut result b.now.plan b.now.image tape.new) }
    ensures refused { IfErr begun.entry (λ why. (p : Plan) (image : List ℕ) → RefusedOf why image → LaidOut result p image tape.new) }
{
    lay_on(begun?, tape)
}

// The same on a tape of its own, which stands on the stack no longer than this.
#[inline(never)]
fn check_in<const TAPE: usize>(begun: &Begun) -> Result<usize, Refusal>
    requires taped { (begun.now.plan.end ≤ TAPE) × (TAPE ≤ 58328) }
    ensures { Checked result begun.now.plan begun.now.image }
{
    let mut tape = [0u16; TAPE];
    lay_on(begun, &mut tape)
}

// Whether an image that is begun is accepted, on the smallest tape that has room.
fn check_on(begun: &Begun) -> Result<usize, Refusal>
    ensures { Checked result begun.now.plan begun.now.image }
{
    let end = begun.plan().end;
    if end <= SMALL_TAPE {
        return check_in::<SMALL_TAPE>(begun);
    }
    if end <= MIDDLE_TAPE {
        return check_in::<MIDDLE_TAPE>(begun);
    }
    check_in::<LARGE_TAPE>(begun)
}

/// Whether an image is accepted: the bit after its last field, or a refusal. Where its header was refused, it is refused so.
pub fn check(begun: Result<&Begun, Refusal>) -> Result<usize, Refusal>
    ensures checked { IfOk begun.entry (λ b. Checked result b.now.plan b.now.image) }
    ensures refused { IfErr begun.entry (λ why. (p : Plan) (image : List ℕ) → RefusedOf why image → Checked result p image) }
{
    check_on(begun?)
}
