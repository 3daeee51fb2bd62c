// A rule's tests: read from the packed image, and laid out in rows of eleven words (buffer, type, mask, eight terms at their slots).
#![tactic(auto)]

ghost use Rattle.std.specs.Prelude.{◌≡◌, ◌+◌, ◌*◌, ◌≤◌, length, take};
ghost use Rattle.meaning.specs.Numbers.{finer};
ghost use Rattle.meaning.specs.Image.{test, tests};
ghost use Rattle.layout.specs.Rows.{test_in, tests_in};
ghost use Rattle.read_ranges.specs.Reading.{told_by, Follows};

use layout::ROW_WORDS;
use meaning::{Reason, Refusal};
use read_ranges::{Reader, Sizes};

// One test, into a row: a buffer from `least` to below the count, a type, a mask within the type's slots and its terms.
fn test(
    reader: &mut Reader,
    sizes: &Sizes,
    variables: u16,
    least: u16,
    row: &mut [u16],
) -> Result<(), Refusal>
    requires { (variables ≤ 8) × (length row.old ≡ 11) }
    ensures row_after { told_by (λ u. test_in row.new 0) result reader.new ≡ test finer sizes.now variables least reader.old.image reader.old.at }
    ensures follows { Follows reader.old reader.new }
{
    let buffer = reader.within(3, least, sizes.buffers(), Reason::BadBuffer)?;
    let isa = reader.type_at(sizes.types(), 0)?;
    row[0] = buffer;
    row[1] = isa;
    read_terms::masked(reader, sizes.types()[isa as usize], variables, row)
}

/// n tests into words, a row each, from o on; the buffers rise.
pub fn tests(
    reader: &mut Reader,
    n: usize,
    sizes: &Sizes,
    variables: u16,
    words: &mut [u16],
    o: usize,
) -> Result<(), Refusal>
    requires { (variables ≤ 8) × (o + 11 * n ≤ length words.old) }
    ensures n_after { told_by (λ u. tests_in words.new o n) result reader.new ≡ tests finer sizes.now variables n reader.old.image reader.old.at }
    ensures follows { Follows reader.old reader.new }
    ensures kept { take o words.new ≡ take o words.old }
{
    let mut least = 0;
    for i in 0..n {
        let q = o + ROW_WORDS * i;
        let row = &mut words[q..q + ROW_WORDS];
        test(reader, sizes, variables, least, row)?;
        least = row[0] % 8 + 1;
    }
    Ok(())
}
