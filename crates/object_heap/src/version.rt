//! The versions of the format.
ghost use Rattle.std.specs.Prelude.{◌≡◌, ◌≤◌, IsTrue, true};
ghost use Rattle.object_heap.specs.Version.{Allows, IsForRoots, has_roots, magic, max_region_log, max_regions, max_words, number_of};

use crate::limits::{
    MAX_REGION_LOG_V2, MAX_REGION_LOG_V3, MAX_REGIONS_V2, MAX_REGIONS_V3, MAX_WORDS_V2,
    MAX_WORDS_V3,
};

/// A version of the format.
#[derive(Debug, Clone, Copy, PartialEq, Eq)]
pub enum Version {
    /// An image lists its live objects.
    One,
    /// An image has roots.
    Two,
    /// An image has roots, and may be larger.
    Three,
}

impl Version {
    /// The number by which the format calls the version.
    pub fn number(self) -> u32
        ensures { result ≡ number_of self }
    {
        match self {
            Version::One => 1,
            Version::Two => 2,
            Version::Three => 3,
        }
    }

    /// The first 8 bytes of an image.
    pub fn magic(self) -> [u8; 8]
        ensures { result ≡ magic self }
    {
        match self {
            Version::One => *b"PCHEAP01",
            Version::Two => *b"PCHEAP02",
            Version::Three => *b"PCHEAP03",
        }
    }

    /// Whether an image has roots. Otherwise it lists its live objects.
    pub fn has_roots(self) -> bool
        ensures { result ≡ has_roots self }
    {
        match self {
            Version::One => false,
            Version::Two | Version::Three => true,
        }
    }

    /// The greatest logarithm, to base 2, of the number of words of a region.
    pub fn max_region_log(self) -> u32
        ensures value { result ≡ max_region_log self }
        ensures few { result ≤ 20 }
    {
        match self {
            Version::One | Version::Two => MAX_REGION_LOG_V2,
            Version::Three => MAX_REGION_LOG_V3,
        }
    }

    /// The largest number of words of a heap.
    pub fn max_words(self) -> u64
        ensures value { result ≡ max_words self }
        ensures few { result ≤ 68719476736 }
    {
        match self {
            Version::One | Version::Two => MAX_WORDS_V2,
            Version::Three => MAX_WORDS_V3,
        }
    }

    /// The largest number of regions of a heap.
    pub fn max_regions(self) -> u64
        ensures value { result ≡ max_regions self }
        ensures few { result ≤ 1048576 }
    {
        match self {
            Version::One | Version::Two => MAX_REGIONS_V2,
            Version::Three => MAX_REGIONS_V3,
        }
    }

    /// Whether an image of the version may have this number of words, in regions of `2 ^ region_log` words.
    pub fn allows(self, region_log: u32, words: u64) -> bool
        ensures yes { IsTrue result → Allows self region_log words }
        ensures no { Allows self region_log words → IsTrue result }
    {
        if region_log > self.max_region_log() {
            return false;
        }
        words <= self.max_words() && words >> region_log <= self.max_regions()
    }

    /// The version of an image with roots that has this number of words, in regions of `2 ^ region_log` words: version 2
    /// if it allows them, else version 3.
    pub fn for_roots(region_log: u32, words: u64) -> Version
        ensures least { IsForRoots region_log words result }
        ensures rooted { has_roots result ≡ true }
    {
        if Version::Two.allows(region_log, words) {
            Version::Two
        } else {
            Version::Three
        }
    }
}
