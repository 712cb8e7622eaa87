//! `RegionData`: what a plan says of one region.

/// What a region holds and where it goes.
#[derive(Debug, Clone, Copy, PartialEq, Eq)]
pub struct RegionData {
    /// Words at the front of the region that belong to a live object of an earlier region.
    pub partial: u32,
    /// Words of the live objects that begin in the region, up to its end.
    pub live: u32,
    /// In the dense prefix, the region's own start. For any other region with live words, the new address of the first
    /// one; the others follow without a gap.
    pub destination: u64,
    /// The number of other regions that receive words of this one: 0, 1 or 2.
    pub count: u32,
    /// The region whose word goes to the start of this one, if this one is to be filled and lies after the dense
    /// prefix.
    pub source: Option<u32>,
}
