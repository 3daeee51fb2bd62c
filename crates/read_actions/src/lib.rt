// A rule's actions, read from the packed image and laid out in rows of eleven words: buffer, deed, mask, eight terms at their slots.
#![tactic(auto)]

ghost use Rattle.std.specs.Prelude.{◌≡◌, ◌*◌, ◌≤◌, length, take};
ghost use Rattle.meaning.specs.Numbers.{finer};
ghost use Rattle.meaning.specs.Image.{action, actions};
ghost use Rattle.layout.specs.Rows.{action_in, tests_in, actions_in};
ghost use Rattle.read_ranges.specs.Reading.{told_by, Follows};

use layout::{ACTIONS_AT, ROW_WORDS};
use meaning::{Reason, Refusal};
use read_ranges::{Reader, Sizes};

// One action of a rule with n tests, into a row: a buffer from `least` to below the count, a kind, and what the kind asks.
#[tactic(auto, unfolding(meaning::specs::Image::action))]
fn action(
    reader: &mut Reader,
    sizes: &Sizes,
    variables: u16,
    tests: &[u16],
    n: usize,
    least: u16,
    row: &mut [u16],
) -> Result<(), Refusal>
    requires { (variables ≤ 8) × (11 * n ≤ length tests.now) × (n ≤ 8) × (length row.old ≡ 11) }
    ensures row_after { told_by (λ u. action_in row.new 0) result reader.new ≡ action finer sizes.now variables (tests_in tests.now 0 n) least reader.old.image reader.old.at }
    ensures follows { Follows reader.old reader.new }
{
    let buffer = reader.within(3, least, sizes.buffers(), Reason::BadBuffer)?;
    row[0] = buffer;
    let tested = read_deeds::tested_type(tests, 0, n, buffer);
    read_deeds::deed(reader, sizes.types(), variables, tested, row)
}

/// m actions into a rule's words, a row each, after its tests and queries. The words begin with the rule's n tests.
pub fn actions(
    reader: &mut Reader,
    m: usize,
    sizes: &Sizes,
    variables: u16,
    rule: &mut [u16],
    n: usize,
) -> Result<(), Refusal>
    requires { (variables ≤ 8) × (n ≤ 8) × (185 ≤ length rule.old) × (m ≤ 8) }
    ensures m_after { told_by (λ u. actions_in rule.new 97 m) result reader.new ≡ actions finer sizes.now variables (tests_in rule.old 0 n) m reader.old.image reader.old.at }
    ensures follows { Follows reader.old reader.new }
    ensures kept { take 97 rule.new ≡ take 97 rule.old }
{
    let (tests, rows) = rule.split_at_mut(ACTIONS_AT);
    let mut least = 0;
    for i in 0..m {
        let o = ROW_WORDS * i;
        let row = &mut rows[o..o + ROW_WORDS];
        action(reader, sizes, variables, tests, n, least, row)?;
        least = row[0] % 8 + 1;
    }
    Ok(())
}
