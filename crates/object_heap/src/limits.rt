//! The limits of images by version: `_V2` for version 1, too. Contracts state them as plain numbers.

/// The least logarithm, to base 2, of the number of words of a region.
pub const MIN_REGION_LOG: u32 = 3;

/// The greatest logarithm, to base 2, of the number of words of a region.
pub const MAX_REGION_LOG_V2: u32 = 16;

pub const MAX_REGION_LOG_V3: u32 = 20;

/// The largest number of words of a heap.
pub const MAX_WORDS_V2: u64 = 4_194_304;

pub const MAX_WORDS_V3: u64 = 68_719_476_736;

/// The largest number of regions of a heap.
pub const MAX_REGIONS_V2: u64 = 16_384;

pub const MAX_REGIONS_V3: u64 = 1_048_576;
