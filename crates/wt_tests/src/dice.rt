//! Random numbers, the same in each run.

/// Numbers without an order to see, from this seed on; the constants are Knuth's.
#[derive(Drop)]
pub struct Dice(pub u64);

impl Dice {
    /// Returns a number below `sides`, or 0 where there are none.
    pub fn roll(&mut self, sides: u64) -> u64 {
        self.0 = self
            .0
            .wrapping_mul(6_364_136_223_846_793_005)
            .wrapping_add(1_442_695_040_888_963_407);
        (self.0 >> 33).checked_rem(sides).unwrap_or(0)
    }
}
