// Where a word stands in four hash rows, and in which shard: multiply, and keep the highest bits.
ghost use Rattle.std.specs.Prelude.{◌≡◌, ℕ, ◌^◌, ◌<◌, ◌≤◌, ◌==◌, ◌||◌, IsTrue, max};
ghost use Rattle.std.specs.List.{All};
ghost use Rattle.wt_keys.specs.Hash.{place, places, bits_for, shard_of};

// Odd numbers without a pattern in their bits; ours, one a row, so that two words that meet in one
// row part in another.
const ROW_0: u64 = 0x9E37_79B9_7F4A_7C15;

const ROW_1: u64 = 0xBF58_476D_1CE4_E5B9;

const ROW_2: u64 = 0x94D0_49BB_1331_11EB;

const ROW_3: u64 = 0xD6E8_FEB8_6659_FD93;

// The shards have a factor of their own, so that the words of one shard fill its rows evenly.
const SHARD: u64 = 0xC2B2_AE3D_27D4_EB4F;

// The highest bits of the product.
fn place(factor: u64, word: u64, bits: u32) -> usize
    requires { (1 ≤ bits) × (bits ≤ 64) }
    ensures value { result ≡ place factor word bits }
    ensures within { result < 2 ^ bits }
{
    (factor.wrapping_mul(word) >> (64 - bits)) as usize
}

/// Returns the places of a word in four rows of `2^bits` counters each.
///
/// Takes no memory. O(1). The scheme is multiply-shift; the four factors are ours.
pub fn places(word: u64, bits: u32) -> [usize; 4]
    requires { (6 ≤ bits) × (bits ≤ 16) }
    ensures places { result ≡ places word bits }
    ensures within { All (λ p. p < 2 ^ bits) result }
{
    [
        place(ROW_0, word, bits),
        place(ROW_1, word, bits),
        place(ROW_2, word, bits),
        place(ROW_3, word, bits),
    ]
}

/// Returns the bits of a place: a row's width is the least power of two not below 64 and the
/// entries.
///
/// From 6 for up to 64 entries to 16 for 65,536. Takes no memory. O(1): at most ten turns.
pub fn bits_for(entries: u32) -> u32
    requires { (1 ≤ entries) × (entries ≤ 65536) }
    ensures value { result ≡ bits_for entries }
    ensures range { (6 ≤ result) × (result ≤ 16) }
    ensures wide { max 64 entries ≤ 2 ^ result }
    ensures least { (b : ℕ) → max 64 entries ≤ 2 ^ b → result ≤ b }
{
    let mut bits = 6;
    while 1 << bits < entries {
        bits += 1;
    }
    bits
}

/// Returns the shard of a word, from 0, among `shards`, which is 1, 2 or 4.
///
/// Takes no memory. O(1). The scheme is multiply-shift; the factor is ours.
pub fn shard_of(word: u64, shards: usize) -> usize
    requires { IsTrue (shards == 1 || (shards == 2 || shards == 4)) }
    ensures value { result ≡ shard_of word shards }
    ensures within { result < shards }
{
    let product = SHARD.wrapping_mul(word);
    match shards {
        2 => (product >> 63) as usize,
        4 => (product >> 62) as usize,
        _ => 0,
    }
}
