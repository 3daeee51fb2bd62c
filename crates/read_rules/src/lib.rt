// Rules, read from the packed image: each one's head into four words (tests, actions, utility, mask of the buffers that it tests or queries),
// its tests, queries and actions into 185 words of their own (eight rows, how many queries and a word for each, eight rows); the heads stand first, one after the other.
#![tactic(auto)]

ghost use Rattle.std.specs.Prelude.{◌≡◌, ◌+◌, ◌*◌, ◌≤◌, ◌<◌, IfOk, OnOk, length, drop};
ghost use Rattle.meaning.specs.Read.{times};
ghost use Rattle.meaning.specs.Numbers.{finer};
ghost use Rattle.meaning.specs.Image.{least_tests, head, rule};
ghost use Rattle.layout.specs.Rows.{rules_in, Laid};
ghost use Rattle.read_ranges.specs.Reading.{told_by, Follows};
ghost use Rattle.read_rules.specs.Heads.{head_in, HeadSmall, ConditionsMet, rule_by, RuleFits};

use layout::{HEAD_WORDS, RULE_WORDS};
use meaning::{Reason, Refusal};
use read_ranges::{Reader, Sizes};

// The first four fields of a rule: its utility, and how many tests, actions and variables follow.
#[derive(Clone, Copy, Debug, PartialEq, Eq)]
struct RuleHead {
    utility: u16,
    tests: u16,
    actions: u16,
    variables: u16,
}

// The least number of tests of a rule in an image of that version: none where it may have a query instead.
fn least_tests(version: u16) -> u16
    ensures { result ≡ least_tests version }
{
    let asks = read_queries::has_queries(version);
    if asks { 0 } else { 1 }
}

// Utility, and how many tests, actions and variables follow, at most as many as there are buffers, and eight variables.
#[tactic(auto, unfolding(meaning::specs::Image::head))]
fn head(reader: &mut Reader, version: u16, buffers: u16) -> Result<RuleHead, Refusal>
    requires { buffers ≤ 8 }
    ensures value { told_by head_in result reader.new ≡ head finer version buffers reader.old.image reader.old.at }
    ensures follows { Follows reader.old reader.new }
    ensures small { IfOk result (λ h. HeadSmall h) }
{
    let utility = reader.field(16)?;
    let tests = reader.count(4, least_tests(version), buffers)?;
    let actions = reader.count(4, 0, buffers)?;
    let variables = reader.count(4, 0, 8)?;
    Ok(RuleHead {
        utility,
        tests,
        actions,
        variables,
    })
}

// What a rule with that head is matched by, into its own words: its tests, in which every variable must stand, and then its queries.
fn conditions(
    reader: &mut Reader,
    version: u16,
    sizes: &Sizes,
    h: RuleHead,
    own: &mut [u16],
) -> Result<(), Refusal>
    requires { HeadSmall h × (185 ≤ length own.old) }
    ensures { ConditionsMet result reader.old reader.new version sizes.now h own.new }
{
    let n = h.tests as usize;
    read_tests::tests(reader, n, sizes, h.variables, own, 0)?;
    if !read_named::stood(own, 0, n, h.variables) {
        return Err(Refusal {
            reason: Reason::BadVariable,
            at: reader.at(),
        });
    }
    read_queries::queries(reader, version, h.tests, sizes.buffers(), own)
}

// One rule: its tests, queries and actions into its own words, and its four words.
fn rule(
    reader: &mut Reader,
    version: u16,
    sizes: &Sizes,
    own: &mut [u16],
) -> Result<[u16; HEAD_WORDS], Refusal>
    requires { 185 ≤ length own.old }
    ensures value { told_by (λ four. rule_by four own.new) result reader.new ≡ rule finer version sizes.now reader.old.image reader.old.at }
    ensures follows { Follows reader.old reader.new }
    ensures fits { IfOk result (λ four. RuleFits four own.new) }
{
    let h = head(reader, version, sizes.buffers())?;
    conditions(reader, version, sizes, h, own)?;
    let n = h.tests as usize;
    let m = h.actions as usize;
    let mask = read_named::looked_at(own, 0, n);
    read_actions::actions(reader, m, sizes, h.variables, own, n)?;
    Ok([h.tests, h.actions, h.utility, mask])
}

/// Reads n rules: rule k's four words go into words from 4 k on, its rows into words from rows + 185 k on. What is left of a refused rule says nothing.
pub fn rules(
    reader: &mut Reader,
    n: usize,
    version: u16,
    sizes: &Sizes,
    words: &mut [u16],
    rows: usize,
) -> Result<(), Refusal>
    requires { (n ≤ 256) × (4 * n ≤ rows) × (rows + 185 * n ≤ length words.old) }
    ensures n_after { told_by (λ u. rules_in words.new (drop rows words.new) n) result reader.new
        ≡ times n (rule finer version sizes.now) reader.old.image reader.old.at }
    ensures follows { Follows reader.old reader.new }
    ensures laid { OnOk result (Laid words.new (drop rows words.new) n) }
{
    for k in 0..n {
        let o = rows + RULE_WORDS * k;
        let four = rule(reader, version, sizes, &mut words[o..])?;
        layout::copy_into(words, HEAD_WORDS * k, &four);
    }
    Ok(())
}
