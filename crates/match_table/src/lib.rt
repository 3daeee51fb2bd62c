// The table of matches: all entries made afresh, and the refresh of those that a mark touches.
#![tactic(auto)]

ghost use Rattle.std.specs.Prelude.{◌≡◌, ℕ, ◌+◌, ◌*◌, ◌≤◌, ◌<◌, length};
ghost use Rattle.meaning.specs.Match.{entry_of, fresh_table};
ghost use Rattle.meaning.specs.Refresh.{refresh, refresh_count};
ghost use Rattle.layout.specs.Rows.{rule_in, rules_in, Laid};
ghost use Rattle.layout.specs.StateWords.{state_in};
ghost use Rattle.match_table.specs.Entries.{with_entry};

use layout::{ENTRY_WORDS, HEAD_WORDS, RULE_WORDS};
use prepared::RuleWords;

// Rule k's entry, made afresh, into its nine words of the table.
fn entry_at(table: &mut [u16], k: usize, heads: &[u16], words: &[u16], n: usize, state: &[u16])
    requires { Laid heads.now words.now n × (k < n) × (length table.old ≡ 9 * n) × (88 ≤ length state.now) }
    ensures { (clock : ℕ) → table.new ≡ with_entry table.old k (entry_of (rule_in heads.now words.now k) (state_in state.now clock)) }
{
    let tests = heads[HEAD_WORDS * k] as usize;
    let rule = RuleWords::new(words, RULE_WORDS * k, tests);
    let a = ENTRY_WORDS * k;
    let e = a + ENTRY_WORDS;
    match_rule::entry_into(&mut table[a..e], &rule, state);
}

/// The fresh table of n rules.
pub fn fresh(table: &mut [u16], heads: &[u16], words: &[u16], n: usize, state: &[u16])
    requires { Laid heads.now words.now n × (length table.old ≡ 9 * n) × (88 ≤ length state.now) }
    ensures { (clock : ℕ) → table.new ≡ fresh_table (rules_in heads.now words.now n) (state_in state.now clock) }
{
    for k in 0..n {
        entry_at(table, k, heads, words, n, state);
    }
}

/// The entries of the rules that test or query a marked buffer, made afresh, and how many these are; no other entry is touched.
pub fn refresh(
    table: &mut [u16],
    heads: &[u16],
    words: &[u16],
    n: usize,
    state: &[u16],
    mark: u16,
) -> u16
    requires { Laid heads.now words.now n × (length table.old ≡ 9 * n) × (88 ≤ length state.now) }
    ensures by_index { (clock : ℕ) → table.new ≡ refresh (rules_in heads.now words.now n) (state_in state.now clock) mark table.old }
    ensures counted { result ≡ refresh_count (rules_in heads.now words.now n) mark }
{
    let mut count = 0;
    for k in 0..n {
        if heads[HEAD_WORDS * k + 3] & mark != 0 {
            entry_at(table, k, heads, words, n, state);
            count += 1;
        }
    }
    count
}
