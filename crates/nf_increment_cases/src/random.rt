//! Numbers that look random, the same from the same seed.

/// A generator: a linear congruence over 64 bits, of which the upper bits are taken.
#[derive(Debug, Drop)]
pub struct Random {
    state: u64,
}

impl Random {
    /// The generator of a seed.
    pub fn new(seed: u64) -> Random {
        Random { state: seed }
    }

    /// The next number below a bound; 0 where the bound is 0.
    pub fn below(&mut self, bound: u32) -> u32 {
        self.state = self
            .state
            .wrapping_mul(6364136223846793005)
            .wrapping_add(1442695040888963407);
        let upper = (self.state >> 33) as u32;
        upper.checked_rem(bound).unwrap_or(0)
    }

    /// Whether one of so many turns comes up.
    pub fn one_in(&mut self, turns: u32) -> bool {
        self.below(turns) == 0
    }
}
