//! The sizes of an image.
ghost use Rattle.std.specs.Prelude.{◌≡◌, ◌≤◌, ◌*◌, ◌/◌, ◌^◌};
ghost use Rattle.object_heap.specs.HeapImage.{IsWithinLimits};
ghost use Rattle.object_heap.specs.Version.{Allows};

use heap_image::Version;

/// Sizes that are within the limits of a version.
#[derive(Clone, Copy)]
pub(crate) struct Limits {
    pub(crate) version: Version,
    /// The base-2 logarithm of the number of words of a region.
    pub(crate) region_log: u32,
    /// The number of regions.
    pub(crate) regions: u64,
    /// The number of words.
    pub(crate) words: u64,
    ghost within: { IsWithinLimits region_log words 0 },
    ghost allowed: { Allows version region_log words },
    ghost few: { words ≤ 68719476736 },
    ghost whole: { words ≡ regions * 2 ^ region_log },
}
