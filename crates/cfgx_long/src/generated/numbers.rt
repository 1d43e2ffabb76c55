//! Pseudorandom numbers, which are the same in each run.

/// A linear congruential generator.
#[derive(Drop)]
pub(super) struct Numbers {
    state: u64,
}

impl Numbers {
    /// Returns a generator that begins with `seed`.
    pub(super) fn new(seed: u64) -> Numbers {
        Numbers { state: seed }
    }

    /// Returns a number of 32 bits. The low bits of the state have short periods and are left out.
    pub(super) fn next(&mut self) -> u64 {
        self.state = self
            .state
            .wrapping_mul(6_364_136_223_846_793_005)
            .wrapping_add(1_442_695_040_888_963_407);
        self.state >> 32
    }

    /// Returns a number below `bound`, or 0 if `bound` is 0.
    pub(super) fn below(&mut self, bound: usize) -> usize {
        self.next() as usize % bound.max(1)
    }

    /// Returns one of the items of `texts`. `|` separates the items.
    pub(super) fn one_of(&mut self, texts: &'static str) -> &'static str {
        let index = self.below(texts.split('|').count());
        texts.split('|').nth(index).unwrap_or("")
    }
}
