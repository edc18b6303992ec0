//! Numbers by chance, the same ones for the same seed.

/// What the next number is made of.
#[derive(Drop)]
pub struct Chance {
    state: u64,
}

impl Chance {
    /// The numbers of a seed.
    pub fn new(seed: u64) -> Chance {
        Chance { state: seed }
    }

    /// The next number below `bound`; 0 if that is 0. By the linear congruential generator of
    /// Knuth (MMIX): of each state the high 32 bits.
    pub fn below(&mut self, bound: u64) -> u64 {
        let state = self
            .state
            .wrapping_mul(6_364_136_223_846_793_005)
            .wrapping_add(1_442_695_040_888_963_407);
        self.state = state;
        if bound == 0 {
            return 0;
        }
        (state >> 32) % bound
    }

    /// One time of so many.
    pub fn once_in(&mut self, times: u64) -> bool {
        self.below(times) == 0
    }

    /// A number of octets from 1 on: one, a few, some hundred, or any number.
    pub fn size(&mut self) -> usize {
        let most = match self.below(4) {
            0 => 1,
            1 => 12,
            2 => 700,
            _ => 20_000,
        };
        usize::try_from(self.below(most))
            .unwrap_or(0)
            .saturating_add(1)
    }
}
