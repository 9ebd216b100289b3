//! Numbers that are drawn, the same in each run.

/// Pseudo-random numbers from a linear congruential generator with a fixed seed.
#[derive(Drop)]
pub struct Draws {
    state: u64,
}

impl Draws {
    pub fn new(seed: u64) -> Self {
        Draws { state: seed }
    }

    /// A number below `n`; 0 if that is 0.
    pub fn below(&mut self, n: u16) -> u16 {
        self.state = self
            .state
            .wrapping_mul(6364136223846793005)
            .wrapping_add(1442695040888963407);
        match (self.state >> 33).checked_rem(u64::from(n)) {
            Some(drawn) => (drawn % 65536) as u16,
            None => 0,
        }
    }

    /// Returns true about once in `n` draws.
    pub fn once_in(&mut self, n: u16) -> bool {
        self.below(n) == 0
    }

    /// A place in a list of this length, which is below 65,536.
    pub fn place(&mut self, len: usize) -> usize {
        usize::from(self.below((len % 65536) as u16))
    }
}
