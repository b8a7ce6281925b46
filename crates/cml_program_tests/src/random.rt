//! Random texts.

use rand_core::{Rng, SeedableRng};
use rand_pcg::Pcg32;

/// Random texts of at most two hundred bytes.
#[derive(Drop)]
pub struct RandomTexts {
    random: Pcg32,
    bytes: [u8; 200],
}

impl RandomTexts {
    /// Those of this seed.
    pub fn new(seed: u64) -> RandomTexts {
        RandomTexts {
            random: Pcg32::seed_from_u64(seed),
            bytes: [0; 200],
        }
    }

    /// The next one.
    pub fn next(&mut self) -> &[u8] {
        self.random.fill_bytes(self.bytes.as_mut_slice());
        let length = self.random.next_u32() as usize % 201;
        &self.bytes[..length]
    }
}
