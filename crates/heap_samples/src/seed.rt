/// A generator of pseudo-random numbers: the same seed gives the same numbers.
#[derive(Clone, Copy)]
pub struct Seed(pub u64);

impl Seed {
    /// The next number below `bound`; 0 if the bound is 0.
    pub fn below(&mut self, bound: u64) -> u64 {
        self.0 = self
            .0
            .wrapping_mul(6_364_136_223_846_793_005)
            .wrapping_add(1_442_695_040_888_963_407);
        (self.0 >> 33).checked_rem(bound).unwrap_or(0)
    }
}
