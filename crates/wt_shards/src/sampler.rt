// Which of a caller's reads the policy hears of.
//
// A read is no step, so the policy doesn't hear of it. If it heard of none, a key that is only read
// would leave as if nobody used it. So a read makes a look behind some of its hits. The caller makes
// one behind each of the first hits after a read that found nothing, since the cache then holds less
// of what it needs. Of the next hits it chooses one in 16. While all its reads hit, hardly an entry
// leaves, and the policy has little to decide. But a look is a step, for which other threads wait. So
// the caller then chooses one in 256. It chooses by chance, so that no rhythm of the keys decides
// which.

// How many hits after a read that found nothing are followed by a look.
const AFTER_MISS: u32 = 8;

// From how many hits without such a read on a look is seldom. Ours: if it is seldom after fewer,
// callers that loop over more keys than entries lose more of their hits.
const ALL_HIT: u32 = AFTER_MISS + 1024;

// A look follows another hit if its draw, of 2^64 numbers, is below this: one in 16 by chance.
const OFTEN: u64 = 1 << 60;

// The same once all reads hit: one in 256.
const SELDOM: u64 = 1 << 56;

// The step of the draws and the factor that mixes them: those of splitmix64.
const STEP: u64 = 0x9E37_79B9_7F4A_7C15;

const FACTOR: u64 = 0xBF58_476D_1CE4_E5B9;

/// A caller's choice of the hits that the policy hears of.
#[derive(Drop)]
pub(crate) struct Sampler {
    // How many hits there were since a read that found nothing, `ALL_HIT` at most.
    hits: u32,
    // The sum of the steps of all draws.
    draws: u64,
}

impl Sampler {
    /// The choice of a caller that has read nothing, as if it had found nothing 8 hits ago.
    pub(crate) fn new() -> Sampler {
        Sampler {
            hits: AFTER_MISS,
            draws: 0,
        }
    }

    /// Hears of a read that found nothing.
    pub(crate) fn missed(&mut self) {
        self.hits = 0;
    }

    /// Decides whether the policy hears of a read that found a value.
    pub(crate) fn is_told(&mut self) -> bool {
        let hits = self.hits;
        if hits < ALL_HIT {
            self.hits = hits + 1;
        }
        if hits < AFTER_MISS {
            return true;
        }
        let below = if hits < ALL_HIT { OFTEN } else { SELDOM };
        self.draws = self.draws.wrapping_add(STEP);
        let drawn = (self.draws ^ (self.draws >> 30)).wrapping_mul(FACTOR);
        drawn < below
    }
}
