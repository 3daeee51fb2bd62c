// A mask and the terms of the slots that it names: what tests, modifications and requests have in common.
#![tactic(auto)]

ghost use Rattle.std.specs.Prelude.{◌≡◌, not, ◌-◌, ◌%◌, ◌^◌, ◌≤◌, ◌<◌, eqb, length, take};
ghost use Rattle.meaning.specs.Numbers.{finer};
ghost use Rattle.meaning.specs.Image.{terms, masked, slots_in};
ghost use Rattle.layout.specs.Rows.{named_by, masked_in};
ghost use Rattle.read_ranges.specs.Reading.{told_by, Follows};

use meaning::{Reason, Refusal};
use read_ranges::Reader;

// Whether the mask has a bit past so many slots.
fn past(mask: u16, slots: u16) -> bool
    ensures { result ≡ not (eqb (mask % 2 ^ (8 - slots)) 0) }
{
    if slots < 8 {
        let low = mask & ((1u16 << (8 - slots)) - 1);
        return low != 0;
    }
    false
}

// The terms of the slots that the mask names, each into its slot of the eight lent; the ones of the mask tell how many follow, and no slot is looked at once none does.
fn terms(reader: &mut Reader, mask: u16, variables: u16, slots: &mut [u16]) -> Result<(), Refusal>
    requires { (mask < 256) × (variables ≤ 8) × (length slots.old ≡ 8) }
    ensures slots_after { told_by (λ u. named_by mask slots.new) result reader.new ≡ terms finer variables (slots_in mask) reader.old.image reader.old.at }
    ensures follows { Follows reader.old reader.new }
{
    let mut left = mask.count_ones();
    for slot in 0..8 {
        if left == 0 {
            return Ok(());
        }
        if (mask >> (7 - slot)) & 1 == 1 {
            slots[slot] = reader.within(13, 0, 4096 + variables, Reason::BadVariable)?;
            left -= 1;
        }
    }
    Ok(())
}

/// A mask within so many slots, and its terms: into the third word of a row and the eight after it.
pub fn masked(
    reader: &mut Reader,
    count: u16,
    variables: u16,
    row: &mut [u16],
) -> Result<(), Refusal>
    requires { (variables ≤ 8) × (length row.old ≡ 11) }
    ensures row_after { told_by (λ u. masked_in row.new 0) result reader.new ≡ masked finer variables count reader.old.image reader.old.at }
    ensures follows { Follows reader.old reader.new }
    ensures kept { take 2 row.new ≡ take 2 row.old }
{
    let at = reader.at();
    let mask = reader.field(8)?;
    if past(mask, count) {
        return Err(Refusal {
            reason: Reason::BadMask,
            at,
        });
    }
    row[2] = mask;
    terms(reader, mask, variables, &mut row[3..])
}
