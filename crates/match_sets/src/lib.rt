// Sets of numbers in words of 64 bits: a bit set, a bit cleared, the lowest bit of a word, and what is left without it.
#![tactic(auto)]

ghost use Rattle.std.specs.Prelude.{if◌then◌else◌, ◌≡◌, true, false, ◌||◌, ◌&&◌, not, ℕ, ◌+◌, ◌/◌, ◌%◌, ◌≤◌, ◌<◌, eqb, length};
ghost use Rattle.meaning.specs.Base.{bit};
ghost use Rattle.match_sets.specs.Sets.{has, member, Dropped};

/// The number of the lowest bit that is set in x.
pub fn lowest(x: u64) -> usize
    requires { 0 < x }
    ensures { (result < 64) × (bit x result ≡ true) × ((j : ℕ) → j < result → bit x j ≡ false) }
{
    u64::trailing_zeros(x) as usize
}

/// x without its lowest bit.
pub fn drop_lowest(x: u64) -> u64
    requires { 0 < x }
    ensures { Dropped x result × (result < x) }
{
    x & (x - 1)
}

// x with bit i set, or cleared.
fn with(x: u64, i: usize, on: bool) -> u64
    requires { i < 64 }
    ensures { (j : ℕ) → bit result j ≡ (if on then (bit x j || eqb j i) else (bit x j && not (eqb j i))) }
{
    let one = 1 << i;
    if on { x | one } else { (x | one) ^ one }
}

// Number k goes into the set that starts at word `at`, or out of it.
fn set(sets: &mut [u64], at: usize, k: usize, on: bool)
    requires { at + k / 64 < length sets.old }
    ensures { (j i : ℕ) → has sets.new j i ≡ (if on then (has sets.old j i || (eqb j (at + k / 64) && eqb i (k % 64)))
        else (has sets.old j i && not (eqb j (at + k / 64) && eqb i (k % 64)))) }
{
    let j = at + k / 64;
    sets[j] = with(sets[j], k % 64, on);
}

/// Number k goes into the set that starts at word `at`.
pub fn put(sets: &mut [u64], at: usize, k: usize)
    requires { at + k / 64 < length sets.old }
    ensures { (j i : ℕ) → has sets.new j i ≡ (has sets.old j i || (eqb j (at + k / 64) && eqb i (k % 64))) }
{
    set(sets, at, k, true);
}

/// Number k goes out of the set that starts at word `at`.
pub fn remove(sets: &mut [u64], at: usize, k: usize)
    requires { at + k / 64 < length sets.old }
    ensures { (j i : ℕ) → has sets.new j i ≡ (has sets.old j i && not (eqb j (at + k / 64) && eqb i (k % 64))) }
{
    set(sets, at, k, false);
}

/// Whether number k is in the set that starts at word `at`.
pub fn holds(sets: &[u64], at: usize, k: usize) -> bool
    requires { at + k / 64 < length sets.now }
    ensures { result ≡ member sets.now at k }
{
    (sets[at + k / 64] >> (k % 64)) % 2 == 1
}
