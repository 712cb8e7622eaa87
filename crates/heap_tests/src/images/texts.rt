//! The text of the base heap, and fronts without a body.
use heap_samples::{Base, Settings};
use std::alloc::{AllocError, Global};

/// The first 32 bytes of an image of version 1 with allowance 0.
pub fn front(region_log: u32, live_count: u32, words: u64) -> [u8; 32] {
    let mut front = [0; 32];
    front[..8].copy_from_slice(b"PCHEAP01");
    front[8..12].copy_from_slice(&region_log.to_le_bytes());
    front[12..16].copy_from_slice(&live_count.to_le_bytes());
    front[16..24].copy_from_slice(&words.to_le_bytes());
    front
}

/// Settings with this region log, and no allowance.
pub fn regions_of(region_log: u64) -> Settings {
    Settings {
        region_log,
        allowance: 0,
    }
}

/// The text of the base heap with a live list and no allowance.
pub fn base_text(alloc: Global) -> Result<Vec<u8>, AllocError> {
    Base::WithLiveList.text(alloc, 0)
}
