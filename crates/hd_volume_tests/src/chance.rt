//! Numbers by chance.

/// Numbers by chance, the same for each seed.
#[derive(Drop)]
pub struct Chance {
    state: u64,
}

impl Chance {
    pub fn new(seed: u64) -> Chance {
        Chance {
            state: seed.wrapping_mul(11400714819323198485),
        }
    }

    /// A number below another that is not 0.
    pub fn below(&mut self, end: u32) -> u32 {
        self.state = self
            .state
            .wrapping_mul(6364136223846793005)
            .wrapping_add(1442695040888963407);
        (self.state >> 33) as u32 % end.max(1)
    }
}
