// Chunks and facts, read from the packed image; a fact is laid out in a row of eleven words.
#![tactic(auto)]

ghost use Rattle.std.specs.Prelude.{◌≡◌, ◌*◌, ◌≤◌, ◌<◌, length};
ghost use Rattle.meaning.specs.Read.{times, field};
ghost use Rattle.meaning.specs.Numbers.{finer};
ghost use Rattle.meaning.specs.Image.{anything, eight, chunk, fact};
ghost use Rattle.layout.specs.Walks.{mapped, Small};
ghost use Rattle.layout.specs.Rows.{fact_in, facts_in};
ghost use Rattle.read_ranges.specs.Reading.{told_by, Follows};
ghost use Rattle.read_facts.specs.Made.{a_chunk};

use layout::ROW_WORDS;
use meaning::Refusal;
use read_ranges::Reader;

// n values of 12 bits into the eight words lent, and zeros after them.
fn values(reader: &mut Reader, n: u16, slots: &mut [u16]) -> Result<(), Refusal>
    requires { (n ≤ 8) × (length slots.old ≡ 8) }
    ensures value { told_by (λ u. slots.new) result reader.new ≡ mapped eight (times n (field 12 anything) reader.old.image reader.old.at) }
    ensures follows { Follows reader.old reader.new }
{
    slots.fill(0);
    for i in 0..n as usize {
        slots[i] = reader.field(12)?;
    }
    Ok(())
}

/// A chunk of a type from `least` (0 or 1) to the last of `types`: its type, and a value for each slot of the type into the eight words lent.
#[tactic(auto, unfolding(meaning::specs::Image::chunk))]
pub fn chunk(
    reader: &mut Reader,
    types: &[u16],
    least: u16,
    slots: &mut [u16],
) -> Result<u16, Refusal>
    requires { Small types.now × (0 < length types.now) × (least ≤ 1) × (length slots.old ≡ 8) }
    ensures value { told_by (λ isa. a_chunk isa slots.new) result reader.new ≡ chunk finer types.now least reader.old.image reader.old.at }
    ensures follows { Follows reader.old reader.new }
{
    let isa = reader.type_at(types, least)?;
    values(reader, types[isa as usize], slots)?;
    Ok(isa)
}

// A fact into a row of eleven words: the type of its chunk, its activation, its latency, eight slot values.
#[tactic(auto, unfolding(meaning::specs::Image::fact))]
fn fact(reader: &mut Reader, types: &[u16], row: &mut [u16]) -> Result<(), Refusal>
    requires { Small types.now × (0 < length types.now) × (length row.old ≡ 11) }
    ensures value { told_by (λ u. fact_in row.new 0) result reader.new ≡ fact finer types.now reader.old.image reader.old.at }
    ensures follows { Follows reader.old reader.new }
{
    row[0] = chunk(reader, types, 1, &mut row[3..])?;
    row[1] = reader.field(16)?;
    row[2] = reader.field(16)?;
    Ok(())
}

/// n facts into words, a row each, from word 0 on.
pub fn facts(reader: &mut Reader, types: &[u16], n: usize, words: &mut [u16]) -> Result<(), Refusal>
    requires { Small types.now × (0 < length types.now) × (11 * n ≤ length words.old) }
    ensures value { told_by (λ u. facts_in words.new n) result reader.new ≡ times n (fact finer types.now) reader.old.image reader.old.at }
    ensures follows { Follows reader.old reader.new }
{
    for i in 0..n {
        let o = ROW_WORDS * i;
        fact(reader, types, &mut words[o..o + ROW_WORDS])?;
    }
    Ok(())
}
