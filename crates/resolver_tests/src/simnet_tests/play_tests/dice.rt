//! Numbers made from a seed.

/// Numbers that follow from a seed, by a linear congruential generator.
#[derive(Clone, Copy)]
pub struct Dice {
    state: u64,
}

impl Dice {
    /// The seed's.
    pub fn new(seed: u64) -> Dice {
        Dice { state: seed }
    }

    /// A number under that many sides, 0 of none.
    pub fn roll(&mut self, sides: u64) -> u64 {
        self.state = self
            .state
            .wrapping_mul(6_364_136_223_846_793_005)
            .wrapping_add(1_442_695_040_888_963_407);
        (self.state >> 33).checked_rem(sides).unwrap_or(0)
    }
}
