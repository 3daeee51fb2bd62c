// The retrieval of a fact: among the facts that fit a request, the highest activation, and of equals the lowest number.
#![tactic(auto)]

ghost use Rattle.std.specs.Prelude.{if◌then◌else◌, ◌≡◌, ℕ, ◌+◌, ◌*◌, ◌/◌, ◌≤◌, ◌<◌, length, get_or};
ghost use Rattle.std.proofs.Math.Option.{some};
ghost use Rattle.meaning.specs.Image.{names};
ghost use Rattle.meaning.specs.Highest.{better};
ghost use Rattle.meaning.specs.Retrieval.{value_of, fits, weaker, retrieve};
ghost use Rattle.layout.specs.Rows.{word_term, masked_in, fact_in, facts_in};
ghost use Rattle.step_retrieve.specs.Found.{fact_of, Below, Weighed};
ghost use Rattle.step_retrieve.specs.Chains.{Chained};

use layout::ROW_WORDS;

/// What a term of an action stands for: a symbol, or the value of a variable in the nine words of the chosen rule.
pub fn value_of(nine: &[u16], term: u16) -> u16
    requires { 9 ≤ length nine.now }
    ensures { result ≡ value_of nine.now (word_term term) }
{
    if term < 4096 {
        return term;
    }
    nine[(term % 8) as usize + 1]
}

/// Whether a mask names a slot: slot 0 by the bit that is worth 128.
#[tactic(auto, using(read_terms::proofs::MaskBits::bit_is))]
pub fn is_named(mask: u16, slot: usize) -> bool
    requires { slot < 8 }
    ensures { result ≡ names mask slot }
{
    (mask >> (7 - slot)) % 2 == 1
}

// Whether the fact whose row starts at f is of the type that the request at q names, and has the terms' values in the named slots;
// at the first slot that differs the fact is given up.
#[tactic(auto, using(crate::proofs::FitLaws::fitting))]
fn fits(facts: &[u16], f: usize, words: &[u16], q: usize, nine: &[u16]) -> bool
    requires { (f + 11 ≤ length facts.now) × (q + 11 ≤ length words.now) × (9 ≤ length nine.now) }
    ensures { result ≡ fits (get_or words.now (q + 1) 0) (masked_in words.now q) nine.now (fact_in facts.now f) }
{
    if facts[f] != words[q + 1] {
        return false;
    }
    let mask = words[q + 2];
    for slot in 0..8 {
        if is_named(mask, slot) && facts[f + 3 + slot] != value_of(nine, words[q + 3 + slot]) {
            return false;
        }
    }
    true
}

/// The word that ends a chain: no fact has this number, however many are learned.
pub const CHAIN_END: u16 = 768;

/// Lays the chains of n facts: 64 words, where each chain starts, and a word for each fact, where its chain goes on.
pub fn chain(index: &mut [u16], facts: &[u16], n: usize)
    requires { (n ≤ 768) × (11 * n ≤ length facts.now) × (64 + n ≤ length index.old) }
    ensures { Chained index.new facts.now n }
{
    index[..64].fill(CHAIN_END);
    for k in (0..n).rev() {
        let h = (facts[ROW_WORDS * k + 3] % 64) as usize;
        index[64 + k] = index[h];
        index[h] = k as u16;
    }
}

// The best fact so far, if there is one, and the least activation of a higher one, which is 0 while there is no best fact: kept beside it, for speed, so that
// one comparison tells whether a fact is higher.
#[derive(Clone, Copy)]
struct Best {
    fact: Option<usize>,
    least: u32,
}

// Whether fact k has a higher activation than the best so far.
fn is_higher(facts: &[u16], best: Best, k: usize) -> bool
    requires { (11 * k + 11 ≤ length facts.now) × Below best.fact (length facts.now / 11) × Weighed facts.now best.fact best.least }
    ensures { better weaker (fact_of facts.now best.fact) (fact_in facts.now (11 * k)) ≡ (if result then some (fact_in facts.now (11 * k)) else fact_of facts.now best.fact) }
{
    best.least <= facts[ROW_WORDS * k + 1] as u32
}

// The best so far, or fact k, if it fits the request at q and is higher.
// A fact of another type, or no higher than the best so far, is passed before its slots are looked at.
fn better(facts: &[u16], best: Best, k: usize, words: &[u16], q: usize, nine: &[u16]) -> Best
    requires { (11 * k + 11 ≤ length facts.now) × (q + 11 ≤ length words.now) × (9 ≤ length nine.now) × Below best.fact (length facts.now / 11) × Weighed facts.now best.fact best.least }
    ensures turned { fact_of facts.now result.fact
        ≡ (if fits (get_or words.now (q + 1) 0) (masked_in words.now q) nine.now (fact_in facts.now (11 * k))
        then better weaker (fact_of facts.now best.fact) (fact_in facts.now (11 * k)) else fact_of facts.now best.fact) }
    ensures below { (n : ℕ) → Below best.fact n → k < n → Below result.fact n }
    ensures weighed { Weighed facts.now result.fact result.least }
{
    if facts[ROW_WORDS * k] != words[q + 1] {
        return best;
    }
    if is_higher(facts, best, k) && fits(facts, ROW_WORDS * k, words, q, nine) {
        Best {
            fact: Some(k),
            least: facts[ROW_WORDS * k + 1] as u32 + 1,
        }
    } else {
        best
    }
}

/// Among n facts, those that fit the request at q: the one of them with the highest activation, the first among equals.
/// Of a request that names slot 0 only the chain of its value is walked.
pub fn retrieve(
    facts: &[u16],
    index: &[u16],
    n: usize,
    words: &[u16],
    q: usize,
    nine: &[u16],
) -> Option<usize>
    requires { (n ≤ 768) × (11 * n ≤ length facts.now) × (q + 11 ≤ length words.now) × (9 ≤ length nine.now) × Chained index.now facts.now n }
    ensures nine_value { retrieve (facts_in facts.now n) (get_or words.now (q + 1) 0) (masked_in words.now q) nine.now ≡ fact_of facts.now result }
    ensures below { Below result n }
{
    let mut best = Best {
        fact: None,
        least: 0,
    };
    if !is_named(words[q + 2], 0) {
        for k in 0..n {
            best = better(facts, best, k, words, q, nine);
        }
        return best.fact;
    }
    let first = value_of(nine, words[q + 3]);
    let mut next = index[(first % 64) as usize] as usize;
    // a walk along a chain, whose end is seen only when it is reached
    while next < n {
        best = better(facts, best, next, words, q, nine);
        next = index[64 + next] as usize;
    }
    best.fact
}
