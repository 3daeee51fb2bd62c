// What the firing of a rule would add to the store: the chunks of the buffers that it clears, but those that are known.
#![tactic(auto)]

ghost use Rattle.std.specs.Prelude.{if◌then◌else◌, ◌≡◌, [], ◌∷◌, ◌++◌, map, ℕ, ◌+◌, ◌*◌, ◌≤◌, ◌<◌, eqb, length};
ghost use Rattle.meaning.specs.Base.{any_of, bit};
ghost use Rattle.meaning.specs.Learning.{learned, chunks_of, chunk_of, equal, joining};
ghost use Rattle.layout.specs.Rows.{fact_in, facts_in, actions_in};
ghost use Rattle.layout.specs.StateWords.{buffer_in};
ghost use Rattle.layout.specs.Plans.{facts_on};
ghost use Rattle.step_retrieve.specs.Chains.{ChainsOn};
ghost use Rattle.step_learn.specs.Joins.{joins_on, Collected};
ghost use Rattle.step_learn.specs.Clears.{ClearMask, gives, given};

use layout::{ACTIONS_AT, BUFFER_WORDS, ROW_WORDS, RULE_WORDS};
use prepared::Prepared;

/// The words that what a step adds is collected in: eight rows.
pub const NEWS_WORDS: usize = 88;

// Nil as it stands in a buffer: type 0, and all slots 0.
const NIL: [u16; 9] = [0; 9];

// A mask with place b set or unset.
#[tactic(auto, using(crate::proofs::ClearLaws::placing))]
fn placed(mask: u16, b: u16, on: bool) -> u16
    requires { b < 8 }
    ensures { (j : ℕ) → bit result j ≡ (if eqb j b then on else bit mask j) }
{
    let one = 1u16 << b;
    if on {
        return mask | one;
    }
    (mask | one) ^ one
}

// The buffers that the m action rows from o on clear, buffer b with weight 2 to the power b. From the last row to the first, so that the first on a buffer decides.
fn clear_mask(words: &[u16], o: usize, m: usize) -> u16
    requires { o + 11 * m ≤ length words.now }
    ensures { ClearMask (actions_in words.now o m) result }
{
    let mut mask = 0;
    for i in (0..m).rev() {
        let q = o + ROW_WORDS * i;
        mask = placed(mask, words[q] % 8, 64 <= words[q + 1]);
    }
    mask
}

// Whether buffer b is visible and holds another chunk than nil.
fn gives(state: &[u16], b: usize) -> bool
    requires { (88 ≤ length state.now) × (b < 8) }
    ensures { result ≡ gives (buffer_in state.now b) }
{
    let o = BUFFER_WORDS * b;
    state[o + 9] == 0 && state[o..o + 9] != NIL[..]
}

// Whether the chunk in buffer b is that of the fact whose row starts at f; at the first word that differs the fact is given up.
fn same_chunk(state: &[u16], b: usize, facts: &[u16], f: usize) -> bool
    requires { (88 ≤ length state.now) × (b < 8) × (f + 11 ≤ length facts.now) }
    ensures { result ≡ equal (chunk_of (buffer_in state.now b)) (fact_in facts.now f).chunk }
{
    let o = BUFFER_WORDS * b;
    state[o] == facts[f] && state[o + 1..o + 9] == facts[f + 3..f + 11]
}

// Whether a fact that the plan knows of has the chunk in buffer b: only the chain of its first slot is walked.
fn known(state: &[u16], b: usize, image: &Prepared) -> bool
    requires { (88 ≤ length state.now) × (b < 8) × ChainsOn image.now.plan image.now.tape }
    ensures { result ≡ any_of (equal (chunk_of (buffer_in state.now b))) (chunks_of (facts_on image.now.plan image.now.tape)) }
{
    let n = image.plan().facts as usize;
    let facts = image.facts();
    let chains = image.chains();
    let h = (state[BUFFER_WORDS * b + 1] % 64) as usize;
    let mut k = chains[h] as usize;
    // a walk along a chain, whose end is seen only when it is reached
    while k < n {
        if same_chunk(state, b, facts, ROW_WORDS * k) {
            return true;
        }
        k = chains[64 + k] as usize;
    }
    false
}

// Whether one of the first n rows has the chunk in buffer b.
#[tactic(auto, using(crate::proofs::JoinLaws::searching))]
fn among(state: &[u16], b: usize, rows: &[u16], n: usize) -> bool
    requires { (88 ≤ length state.now) × (b < 8) × (11 * n ≤ length rows.now) }
    ensures { result ≡ any_of (equal (chunk_of (buffer_in state.now b))) (chunks_of (facts_in rows.now n)) }
{
    for i in 0..n {
        if same_chunk(state, b, rows, ROW_WORDS * i) {
            return true;
        }
    }
    false
}

// Writes the chunk in buffer b as a row after n rows: a fact with activation 0 and latency 50.
fn write_row(news: &mut [u16], n: usize, state: &[u16], b: usize)
    requires { (11 * n + 11 ≤ length news.old) × (88 ≤ length state.now) × (b < 8) }
    ensures { facts_in news.new (n + 1) ≡ (facts_in news.old n ++ (learned (chunk_of (buffer_in state.now b)) ∷ [])) }
{
    let q = ROW_WORDS * n;
    let o = BUFFER_WORDS * b;
    news[q] = state[o];
    news[q + 1] = 0;
    news[q + 2] = 50;
    news[q + 3..q + ROW_WORDS].copy_from_slice(&state[o + 1..o + 9]);
}

// The chunk in buffer b after n new rows, if it gives one and neither a fact that the plan knows of nor one of these rows has it; how many rows there are then.
fn join(news: &mut [u16], n: usize, state: &[u16], b: usize, image: &Prepared) -> usize
    requires { (11 * n + 11 ≤ length news.old) × (88 ≤ length state.now) × (b < 8) × ChainsOn image.now.plan image.now.tape }
    ensures result_after { facts_in news.new result ≡ (facts_in news.old n
        ++ map learned (joining (chunks_of (facts_on image.now.plan image.now.tape) ++ chunks_of (facts_in news.old n)) (given (buffer_in state.now b)))) }
    ensures more { result ≤ n + 1 }
{
    if gives(state, b) && !known(state, b, image) && !among(state, b, news, n) {
        write_row(news, n, state, b);
        return n + 1;
    }
    n
}

/// Writes the chunks that the firing of rule k would add to the store, as rows of facts, into `news`; how many they are (none where no store is lent).
pub fn collect(news: &mut [u16], state: &[u16], image: &Prepared, k: usize) -> usize
    requires { ChainsOn image.now.plan image.now.tape × (k < image.now.plan.rules) × (88 ≤ length state.now) × (88 ≤ length news.old) }
    ensures { Collected news.new result (joins_on image.now.plan image.now.tape state.now k) }
{
    if !image.plan().learns {
        return 0;
    }
    let m = image.actions(k);
    let mask = clear_mask(image.rows(), RULE_WORDS * k + ACTIONS_AT, m);
    let mut n = 0;
    let mut rest = mask as u64;
    // a walk from bit to bit, for speed: few rules clear a buffer, and most of them one
    while rest != 0 {
        let b = match_sets::lowest(rest);
        n = join(news, n, state, b, image);
        rest = match_sets::drop_lowest(rest);
    }
    n
}
