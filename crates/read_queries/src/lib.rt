// A rule's queries, read from the packed image and laid out in the rule's words: how many there are, and then a word for each, its buffer and eight times its kind.
#![tactic(auto)]

ghost use Rattle.std.specs.Prelude.{◌≡◌, ◌*◌, ◌≤◌, length, take};
ghost use Rattle.meaning.specs.Read.{rising};
ghost use Rattle.meaning.specs.Numbers.{finer};
ghost use Rattle.meaning.specs.Image.{has_queries, least_queries, query, queries};
ghost use Rattle.layout.specs.Rows.{query_by, queries_in, queries_at};
ghost use Rattle.read_ranges.specs.Reading.{told_by, Follows};
ghost use Rattle.read_queries.specs.Asked.{FewIf};

use layout::{ASKED_AT, QUERIES_AT};
use meaning::{Reason, Refusal};
use read_ranges::Reader;

/// Whether the rules of an image of that version have queries: those of version 2 do.
pub fn has_queries(version: u16) -> bool
    ensures { result ≡ has_queries version }
{
    version == 2
}

// The least number of queries of a rule with so many tests: a rule without a test has a query.
fn least_queries(tests: u16) -> u16
    ensures { result ≡ least_queries tests }
{
    if tests == 0 { 1 } else { 0 }
}

// The word of one query, a buffer from `least` to below `buffers` and a kind up to 2.
#[tactic(auto, unfolding(meaning::specs::Image::query))]
fn query(reader: &mut Reader, buffers: u16, least: u16) -> Result<u16, Refusal>
    requires { buffers ≤ 8 }
    ensures value { told_by query_by result reader.new ≡ query finer buffers least reader.old.image reader.old.at }
    ensures follows { Follows reader.old reader.new }
{
    let buffer = reader.within(3, least, buffers, Reason::BadBuffer)?;
    let kind = reader.count(2, 0, 2)?;
    Ok(buffer + 8 * kind)
}

// n queries into a rule's words; the buffers rise.
fn each_query(reader: &mut Reader, n: usize, buffers: u16, own: &mut [u16]) -> Result<(), Refusal>
    requires { (n ≤ 8) × (buffers ≤ 8) × (97 ≤ length own.old) }
    ensures value { told_by (λ u. queries_in own.new 89 n) result reader.new ≡ rising (query finer buffers) (λ q. q.buffer) n 0 reader.old.image reader.old.at }
    ensures follows { Follows reader.old reader.new }
    ensures kept { take 89 own.new ≡ take 89 own.old }
{
    let mut least = 0;
    for i in 0..n {
        let word = query(reader, buffers, least)?;
        own[QUERIES_AT + i] = word;
        least = word % 8 + 1;
    }
    Ok(())
}

/// The queries of a rule with so many tests, into its own words, which are lent; in an image of version 1 nothing is read, and there are none.
#[tactic(auto, unfolding(meaning::specs::Image::queried))]
pub fn queries(
    reader: &mut Reader,
    version: u16,
    tests: u16,
    buffers: u16,
    own: &mut [u16],
) -> Result<(), Refusal>
    requires { (buffers ≤ 8) × (97 ≤ length own.old) }
    ensures value { told_by (λ u. queries_at own.new 0) result reader.new ≡ queries finer version buffers tests reader.old.image reader.old.at }
    ensures follows { Follows reader.old reader.new }
    ensures kept { take 88 own.new ≡ take 88 own.old }
    ensures few { FewIf result own.new }
{
    if !has_queries(version) {
        own[ASKED_AT] = 0;
        return Ok(());
    }
    let asked = reader.count(4, least_queries(tests), buffers)?;
    own[ASKED_AT] = asked;
    each_query(reader, asked as usize, buffers, own)
}
