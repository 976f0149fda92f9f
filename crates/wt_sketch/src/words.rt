// A row of counters in words: sixteen counters of four bits to a word, the lowest bits first.
ghost use Rattle.std.specs.Prelude.{◌≡◌, ◌*◌, ◌<◌, ◌≤◌, length, map};
ghost use Rattle.wt_sketch.specs.Nibbles.{nibbles, unpacked};
ghost use Rattle.wt_sketch.specs.Sketch.{at, half, rises, raised};

// The three low bits of each counter.
const LOW_THREE: u64 = 0x7777_7777_7777_7777;

/// Halves the sixteen counters of a word at once, each rounding down.
///
/// Takes no memory. O(1): a shift, and a mask that keeps what a counter shifts out from its
/// neighbour.
pub fn halve(word: u64) -> u64
    ensures { nibbles 16 result ≡ map half (nibbles 16 word) }
{
    (word >> 1) & LOW_THREE
}

// The counter at a place.
pub(crate) fn counter_at(row: &[u64], place: usize) -> u8
    requires { place < 16 * length row.now }
    ensures value { result ≡ at (unpacked row.now) place }
    ensures within { result ≤ 15 }
{
    ((row[place / 16] >> (4 * (place % 16))) % 16) as u8
}

// Raises the counter at a place if it is below 15, and returns whether it was.
pub(crate) fn raise(row: &mut [u64], place: usize) -> bool
    requires { place < 16 * length row.old }
    ensures row { unpacked row.new ≡ raised place (unpacked row.old) }
    ensures rose { result ≡ rises place (unpacked row.old) }
    ensures len { length row.new ≡ length row.old }
{
    if counter_at(row, place) == 15 {
        return false;
    }
    // Below 15 the sum stays within the counter's four bits.
    row[place / 16] += 1 << (4 * (place % 16));
    true
}

// Halves each counter of a row.
pub(crate) fn halve_row(row: &mut [u64])
    ensures row { unpacked row.new ≡ map half (unpacked row.old) }
    ensures len { length row.new ≡ length row.old }
{
    for word in row {
        *word = halve(*word);
    }
}
