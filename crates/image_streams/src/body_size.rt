//! The size of the body of an image.
ghost use Rattle.std.specs.Prelude.{◌≡◌};
ghost use Rattle.image_streams.specs.Body.{HasFewWords, body_words};

/// The size of the body of an image, or of a part of it.
#[derive(Debug, Clone, Copy, PartialEq, Eq)]
pub struct BodySize {
    pub region_log: u32,
    /// The number of regions.
    pub regions: usize,
    /// The number of numbers after them.
    pub numbers: usize,
}

impl BodySize {
    /// The size in words of 8 bytes.
    pub(crate) fn words(self) -> usize
        requires { HasFewWords self }
        ensures { result ≡ body_words self }
    {
        (self.regions << self.region_log) + self.numbers
    }
}
