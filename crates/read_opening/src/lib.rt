// The beginning of an image: the header, the slot counts of the types, and the state that it opens with.
#![tactic(auto)]

ghost use Rattle.std.specs.Prelude.{◌≡◌, ◌∷◌, ◌+◌, ◌*◌, ◌≤◌, ◌<◌, IfOk, length, take};
ghost use Rattle.meaning.specs.Read.{times};
ghost use Rattle.meaning.specs.Numbers.{finer};
ghost use Rattle.meaning.specs.Image.{header, slot_counts, chunk};
ghost use Rattle.meaning.specs.State.{opens};
ghost use Rattle.layout.specs.Walks.{mapped, Small};
ghost use Rattle.read_ranges.specs.Reading.{told, told_by, Follows};
ghost use Rattle.read_facts.specs.Made.{a_chunk};
ghost use Rattle.read_opening.specs.Parts.{header_in, HeaderMet, opening_state};

use layout::Plan;
use meaning::{Buffer, Refusal, State};
use read_ranges::Reader;

/// The six fields of the header, the version (1 or 2) first, as a plan: with places for a store if one is lent.
#[tactic(auto, unfolding(meaning::specs::Image::header))]
pub fn header(reader: &mut Reader, learns: bool) -> Result<Plan, Refusal>
    ensures value { told_by header_in result reader.new ≡ header finer reader.old.image reader.old.at }
    ensures follows { Follows reader.old reader.new }
    ensures met { IfOk result (λ plan. HeaderMet plan learns) }
{
    let version = reader.count(8, 1, 2)?;
    let buffers = reader.count(4, 1, 8)?;
    let declared = reader.count(6, 0, 63)?;
    let rules = reader.count(9, 0, 256)?;
    let facts = reader.count(10, 0, 512)?;
    let failure = reader.field(16)?;
    Ok(layout::plan_for(version, buffers, declared, rules, facts, failure, learns))
}

/// The slot counts, 0 for type 0 and a field (0 to 8) for each declared type, and zeros up to 64.
pub fn slot_counts(reader: &mut Reader, declared: u16) -> Result<[u16; 64], Refusal>
    requires { declared ≤ 63 }
    ensures value { told_by (λ types. take (declared + 1) types) result reader.new
        ≡ mapped (λ counts. 0 ∷ counts) (slot_counts finer declared reader.old.image reader.old.at) }
    ensures follows { Follows reader.old reader.new }
    ensures small { IfOk result (λ types. Small types) }
{
    let mut types = [0; 64];
    for t in 0..declared as usize {
        types[t + 1] = reader.count(4, 0, 8)?;
    }
    Ok(types)
}

// A buffer that holds a chunk of such a type with such slot values, visible at once, its flag clear.
fn opens(isa: u16, slots: [u16; 8]) -> Buffer
    ensures { result ≡ opens (a_chunk isa slots) }
{
    Buffer {
        isa,
        slots,
        delay: 0,
        error: false,
    }
}

/// n opening chunks in the first n buffers, nil in the others, and clock 0.
pub fn opening(reader: &mut Reader, types: &[u16], n: u16) -> Result<State, Refusal>
    requires { Small types.now × (0 < length types.now) × (n ≤ 8) }
    ensures value { told result reader.new ≡ mapped (opening_state n) (times n (chunk finer types.now 0) reader.old.image reader.old.at) }
    ensures follows { Follows reader.old reader.new }
{
    let mut state = meaning::zero_state();
    let mut slots = [0; 8];
    for i in 0..n as usize {
        let isa = read_facts::chunk(reader, types, 0, &mut slots)?;
        state.buffers[i] = opens(isa, slots);
    }
    Ok(state)
}
