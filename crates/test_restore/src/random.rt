//! Numbers at random.

/// Numbers at random, the same for one seed.
#[derive(Drop)]
pub struct Random {
    state: u64,
}

impl Random {
    pub fn new(seed: u64) -> Random {
        Random { state: seed }
    }

    // The next 31 bits.
    fn next(&mut self) -> u64 {
        let product = self.state.wrapping_mul(6_364_136_223_846_793_005);
        self.state = product.wrapping_add(1_442_695_040_888_963_407);
        self.state >> 33
    }

    /// A number below this one, or 0.
    pub fn below(&mut self, bound: u32) -> u32 {
        match u32::try_from(self.next()) {
            Ok(number) => number.checked_rem(bound).unwrap_or(0),
            Err(_) => 0,
        }
    }

    /// A place in a list of so many.
    pub fn place(&mut self, len: usize) -> usize {
        (self.below(65_536) as usize).checked_rem(len).unwrap_or(0)
    }

    /// Whether one of a hundred cases out of so many comes.
    pub fn percent(&mut self, cases: u32) -> bool {
        self.below(100) < cases
    }
}
