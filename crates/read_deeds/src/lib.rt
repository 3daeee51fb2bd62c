// What an action does: its kind, and what the kind asks. A modification goes by the type that the rule tests its buffer for.
#![tactic(auto)]

ghost use Rattle.std.specs.Prelude.{◌≡◌, List, ℕ, ◌+◌, ◌*◌, ◌≤◌, ◌<◌, length, get_or, take};
ghost use Rattle.meaning.specs.Model.{Test};
ghost use Rattle.meaning.specs.Numbers.{finer};
ghost use Rattle.meaning.specs.Image.{masked, deed};
ghost use Rattle.layout.specs.Rows.{sizes, masked_in, tests_in};
ghost use Rattle.read_ranges.specs.Reading.{told_by, Follows};
ghost use Rattle.read_deeds.specs.Deeds.{tested_of, says, kind_and_deed};

use layout::ROW_WORDS;
use meaning::{Reason, Refusal};
use read_ranges::Reader;

/// The type that the first test of buffer b names, of the n tests in words from o on.
pub fn tested_type(words: &[u16], o: usize, n: usize, b: u16) -> Option<u16>
    requires { (o + 11 * n ≤ length words.now) × (n ≤ 8) }
    ensures { result ≡ tested_of (tests_in words.now o n) b }
{
    for i in 0..n {
        let test = o + ROW_WORDS * i;
        if words[test] % 8 == b {
            return Some(words[test + 1]);
        }
    }
    None
}

// The slot count of a type, and 0 past the last.
fn slots_of(types: &[u16], k: u16) -> u16
    ensures { result ≡ get_or types.now k 0 }
{
    types.get(k as usize).copied().unwrap_or(0)
}

// The word of a deed into the second word of a row, and a mask and its terms for type k after it.
fn deed_for(
    reader: &mut Reader,
    types: &[u16],
    variables: u16,
    k: u16,
    word: u16,
    row: &mut [u16],
) -> Result<(), Refusal>
    requires { (variables ≤ 8) × (length row.old ≡ 11) }
    ensures row_after { told_by (λ u. masked_in row.new 0) result reader.new ≡ masked finer variables (get_or types.now k 0) reader.old.image reader.old.at }
    ensures follows { Follows reader.old reader.new }
    ensures word { get_or row.new 1 0 ≡ word }
    ensures kept { take 1 row.new ≡ take 1 row.old }
{
    row[1] = word;
    read_terms::masked(reader, slots_of(types, k), variables, row)
}

// Request: a declared type, which is the deed's word, and a mask and its terms for it.
fn request(
    reader: &mut Reader,
    types: &[u16],
    variables: u16,
    row: &mut [u16],
) -> Result<(), Refusal>
    requires { (variables ≤ 8) × (0 < length types.now) × (length row.old ≡ 11) }
    ensures by_index { (buffers : ℕ) (ts : List Test) (b : ℕ) → says result reader.new row.new ≡ deed finer (sizes buffers types.now) variables ts b 1 reader.old.image reader.old.at }
    ensures follows { Follows reader.old reader.new }
    ensures kept { take 1 row.new ≡ take 1 row.old }
{
    let k = reader.type_at(types, 1)?;
    deed_for(reader, types, variables, k, k, row)
}

/// An action's kind, and what it asks, into a row after its first word: the deed's word (0 to modify, a type to request, 64 to clear), a mask and its terms.
/// What is not tested is not modified; a clear asks no mask, and leaves what stood in the place of one.
pub fn deed(
    reader: &mut Reader,
    types: &[u16],
    variables: u16,
    tested: Option<u16>,
    row: &mut [u16],
) -> Result<(), Refusal>
    requires { (variables ≤ 8) × (0 < length types.now) × (length row.old ≡ 11) }
    ensures by_index { (buffers : ℕ) (ts : List Test) (b : ℕ) → tested ≡ tested_of ts b
        → says result reader.new row.new ≡ kind_and_deed (sizes buffers types.now) variables ts b reader.old.image reader.old.at }
    ensures follows { Follows reader.old reader.new }
    ensures kept { take 1 row.new ≡ take 1 row.old }
{
    let at = reader.at();
    let kind = reader.field(2)?;
    match kind {
        0 => {
            let k = tested.ok_or(Refusal {
                reason: Reason::BadBuffer,
                at,
            })?;
            deed_for(reader, types, variables, k, 0, row)
        }
        1 => request(reader, types, variables, row),
        2 => {
            row[1] = 64;
            Ok(())
        }
        _ => Err(Refusal {
            reason: Reason::BadNumber,
            at,
        }),
    }
}
