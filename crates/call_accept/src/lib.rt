// What every call looks at first, numbers 1 to 5 and 11 to 13: the image, and then the table's length.
#![tactic(auto)]

ghost use Rattle.std.specs.Prelude.{◌≡◌, ℕ, ◌*◌, ◌≤◌, List, IfOk, IfErr, eqb, length};
ghost use Rattle.layout.specs.declared.Plan.{Plan};
ghost use Rattle.read_image.specs.Whole.{RefusedOf};
ghost use Rattle.call_accept.specs.Acceptance.{TakenMet};

use layout::ENTRY_WORDS;
use meaning::{Reason, Refusal};
use read_image::Begun;

/// Whether a table of so many words has the right length for so many rules: nine words for each.
pub fn right_length(lent: usize, rules: u16) -> bool
    ensures { result ≡ eqb lent (9 * rules) }
{
    lent == ENTRY_WORDS * (rules as usize)
}

// An image that is begun, laid out on a tape that has room for its plan, and then the table's length.
fn accept_on(begun: &Begun, lent: usize, tape: &mut [u16]) -> Result<(), Refusal>
    requires { begun.now.plan.end ≤ length tape.old }
    ensures { TakenMet result begun.now.plan begun.now.image lent tape.new }
{
    read_image::lay_out(Ok(begun), tape)?;
    if !right_length(lent, begun.plan().rules) {
        return Err(Reason::WrongTable.into());
    }
    Ok(())
}

/// Lays an image out on a tape that has room for its plan, and then looks at the table's length. A refusal (1 to 5, or 11 to 13) has the place of the refused field, 0 where there is none.
/// Where the header was refused, it is refused so.
pub fn accept(begun: Result<&Begun, Refusal>, lent: usize, tape: &mut [u16]) -> Result<(), Refusal>
    requires { IfOk begun (λ b. b.now.plan.end ≤ length tape.old) }
    ensures taken { IfOk begun.entry (λ b. TakenMet result b.now.plan b.now.image lent tape.new) }
    ensures refused { IfErr begun.entry (λ why. (p : Plan) (image : List ℕ) → RefusedOf why image → TakenMet result p image lent tape.new) }
{
    accept_on(begun?, lent, tape)
}
