//! Pseudorandom numbers, with which a thread chooses its next call.

/// A sequence of numbers that is the same for the same seed (Marsaglia's xorshift).
#[derive(Drop)]
pub(crate) struct Dice {
    state: u64,
}

impl Dice {
    pub(crate) fn new(seed: u64) -> Dice {
        Dice {
            state: seed.wrapping_mul(0x9e37_79b9_7f4a_7c15) | 1,
        }
    }

    /// Returns a number below 8.
    pub(crate) fn roll(&mut self) -> u64 {
        let a = self.state ^ (self.state << 13);
        let b = a ^ (a >> 7);
        self.state = b ^ (b << 17);
        self.state >> 61
    }
}
