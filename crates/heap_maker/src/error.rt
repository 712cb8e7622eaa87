//! The errors of a generation.
ghost use Rattle.std.specs.Prelude.{◌≡◌};
ghost use Rattle.heap_maker.specs.declared.error.GenerationError.TheVariants.{Memory};

use std::alloc::AllocError;
use thiserror::Error;

/// Why [`generate`](crate::generate) makes no heap.
#[derive(Debug, Clone, Copy, PartialEq, Eq, Error)]
pub enum GenerationError {
    /// The region log is below 3, or above that of the version.
    #[error("region log {region_log}, where 3 to {most} are allowed")]
    RegionLog {
        /// The requested region log.
        region_log: u32,
        /// The largest region log that the version allows.
        most: u32,
    },
    /// The number of words is 0, or more than an image of the version may have.
    #[error("{words} words, where 1 to {most} are allowed")]
    Words {
        /// The requested number of words.
        words: u64,
        /// The most words that the version allows.
        most: u64,
    },
    /// The words are not whole regions.
    #[error("{words} words are not a multiple of the {region_words} words of a region")]
    Uneven {
        /// The number of words of the heap.
        words: u64,
        /// The number of words of a region.
        region_words: u64,
    },
    /// There are more regions than an image of the version may have.
    #[error("{words} words are {regions} regions, where {most} are the most")]
    Regions {
        /// The number of words of the heap.
        words: u64,
        /// The number of regions.
        regions: u64,
        /// The most regions that the version allows.
        most: u64,
    },
    /// The heap needs more roots than an image can count: 2^32 or more.
    #[error("{0} roots, where 4294967295 are the most")]
    Roots(u64),
    /// A percentage is more than 100.
    #[error("{0} of a hundred, where 0 to 100 are allowed")]
    Percent(u32),
    /// Memory was refused.
    #[error("memory was refused")]
    Memory,
    /// The heap differs from the requested one. No test causes this.
    #[error("the heap that was made is another than the one that is wanted: this program is wrong")]
    Defect,
}

impl From<AllocError> for GenerationError {
    ghost from_gives = { λ _ error. error ≡ Memory };

    fn from(_refused: AllocError) -> GenerationError {
        GenerationError::Memory
    }
}
