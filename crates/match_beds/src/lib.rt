// The sets of rules that a run keeps, in words of 64 bits: who is awake, the testers of each buffer, which test or query it, and the beds in which rules sleep.
// A walk over a set or a mask drops the lowest bit of what is left and stays a `while`, here and in match_rest: for speed, a turn for each number in the set and none for the others.
// A rule that fails at a constant sleeps in a bed for that word of the state and that value,
// and is awake again once that word's buffer is marked, and visible, and the word has a value of the same bed.
#![tactic(auto)]

ghost use Rattle.std.specs.Prelude.{◌≡◌, true, false, ℕ, ◌+◌, ◌*◌, ◌/◌, ◌≤◌, ◌<◌, length};
ghost use Rattle.match_sets.specs.Sets.{has};
ghost use Rattle.match_beds.specs.Beds.{bed_of, Roomy, Testing};
ghost use Rattle.match_beds.specs.Woken.{Woke, Called, CalledBy};
ghost use Rattle.match_beds.specs.Moves.{Touches, Lain, Joins};

use layout::{BUFFER_WORDS, HEAD_WORDS};

// Where the sets begin in these words: the awake rules, the matching ones by their places (in the order of rules), the testers of each buffer,
// the used places of each buffer, the rules whose entry is known to be fresh, and the beds.
const AWAKE_AT: usize = 0;

const TESTERS_AT: usize = 8;

const USED_AT: usize = 40;

/// Where the set of the rules whose entry is known to be fresh begins.
pub const SURE_AT: usize = 48;

const BEDS_AT: usize = 52;

/// The words that a run keeps of at most 64 rules, which cost little to clear.
pub const SMALL_SETS: usize = 308;

/// The words that a run keeps of the most rules that an image can have.
pub const LARGE_SETS: usize = 1076;

// The bed for a word of the state and the value wanted there.
fn bed(place: usize, value: u16) -> usize
    requires { place < 88 }
    ensures { result ≡ bed_of place value }
{
    (value as usize + 75 * place) % 256
}

// Those who sleep in bed h are awake.
fn wake_bed(sets: &mut [u64], n: usize, h: usize)
    requires { Roomy n sets.old × (h < 256) }
    ensures { Woke n (λ (g k : ℕ). g ≡ h) sets.old sets.new }
{
    for w in 0..n.div_ceil(64) {
        let at = BEDS_AT + 256 * w + h;
        sets[w] |= sets[at];
        sets[at] = 0;
    }
}

// Those who sleep by a word of buffer b that has a value of their bed are awake, if the buffer is visible: before that none of them can match.
fn wake(sets: &mut [u64], n: usize, state: &[u16], b: usize)
    requires { Roomy n sets.old × (88 ≤ length state.now) × (b < 8) }
    ensures { Woke n (λ (g k : ℕ). Called state.now sets.old b 11 g) sets.old sets.new }
{
    if state[BUFFER_WORDS * b + 9] != 0 {
        return;
    }
    let mut rest = sets[USED_AT + b] % 2048;
    while rest != 0 {
        let p = BUFFER_WORDS * b + match_sets::lowest(rest);
        wake_bed(sets, n, bed(p, state[p]));
        rest = match_sets::drop_lowest(rest);
    }
}

/// Those who sleep by a word of a marked and visible buffer that has a value of their bed are awake.
pub fn wake_all(sets: &mut [u64], n: usize, state: &[u16], mark: u16)
    requires { Roomy n sets.old × (88 ≤ length state.now) }
    ensures { Woke n (λ (g k : ℕ). CalledBy state.now sets.old mark 8 g) sets.old sets.new }
{
    let mut rest = mark as u64 % 256;
    while rest != 0 {
        wake(sets, n, state, match_sets::lowest(rest));
        rest = match_sets::drop_lowest(rest);
    }
}

/// Of rules 64 w to 64 w + 63, the testers of a marked buffer.
pub fn touched(sets: &[u64], w: usize, mark: u16) -> u64
    requires { (w < 4) × (308 ≤ length sets.now) }
    ensures { Touches sets.now w mark 8 result }
{
    let mut all = 0;
    let mut rest = mark as u64 % 256;
    while rest != 0 {
        all |= sets[TESTERS_AT + 8 * w + match_sets::lowest(rest)];
        rest = match_sets::drop_lowest(rest);
    }
    all
}

/// Rule k goes to sleep in the bed for a word of the state and the value wanted there.
pub fn lay_down(sets: &mut [u64], k: usize, place: usize, value: u16)
    requires { (k < 256) × (place < 88) × (308 + 256 * (k / 64) ≤ length sets.old) }
    ensures { Lain k place value sets.old sets.new }
{
    let h = bed(place, value);
    match_sets::put(sets, BEDS_AT + 255 * (k / 64) + h, k);
    match_sets::put(sets, USED_AT + place / BUFFER_WORDS, place % BUFFER_WORDS);
    match_sets::remove(sets, AWAKE_AT, k);
}

/// All rules are awake.
pub fn lay_awake(sets: &mut [u64])
    requires { 308 ≤ length sets.old }
    ensures { ((j i : ℕ) → j < 4 → i < 64 → has sets.new j i ≡ true) × ((j i : ℕ) → 4 ≤ j → has sets.new j i ≡ has sets.old j i) }
{
    sets[AWAKE_AT..AWAKE_AT + 4].fill(u64::MAX);
}

// Rule k joins the testers of the buffers of a mask.
fn lay_tester(sets: &mut [u64], k: usize, mask: u16)
    requires { (k < 256) × (308 ≤ length sets.old) }
    ensures { Joins k mask 8 sets.old sets.new }
{
    let mut rest = mask as u64 % 256;
    while rest != 0 {
        match_sets::put(
            sets,
            TESTERS_AT + 7 * (k / 64) + match_sets::lowest(rest),
            k,
        );
        rest = match_sets::drop_lowest(rest);
    }
}

/// The testers of n rules.
pub fn lay_testers(sets: &mut [u64], heads: &[u16], n: usize)
    requires { (n ≤ 256) × (308 ≤ length sets.old) × (4 * n ≤ length heads.now) × ((j i : ℕ) → 8 ≤ j → j < 40 → has sets.old j i ≡ false) }
    ensures { Testing heads.now n sets.new × ((j i : ℕ) → (8 ≤ j → j < 40 → ⊥) → has sets.new j i ≡ has sets.old j i) }
{
    for k in 0..n {
        lay_tester(sets, k, heads[HEAD_WORDS * k + 3]);
    }
}
