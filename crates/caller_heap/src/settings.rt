//! The settings of a heap.

/// The settings of a heap that its words don't say, laid out as C has them.
#[repr(C)]
#[derive(Clone, Copy)]
pub struct HeapSettings {
    /// The logarithm, to base 2, of the number of words of a region: 3 to 16, with roots 3 to 20.
    pub region_log: u32,
    /// The largest number of dead words that the dense prefix may keep.
    pub allowance: u64,
}
