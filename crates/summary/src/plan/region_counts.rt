//! The counts of one region, before it is known where its words go.

ghost use Rattle.std.specs.Prelude.{◌≡◌, ◌+◌};

/// The numbers of live words in a region.
#[derive(Clone, Copy)]
pub struct RegionCounts {
    /// Words at the front of the region that belong to a live object of an earlier region.
    pub partial: u32,
    /// Words of the live objects that begin in the region, up to its end.
    pub live: u32,
}

impl RegionCounts {
    /// All live words of the region.
    pub fn live_words(self) -> u64
        ensures { result ≡ self.partial + self.live }
    {
        u64::from(self.partial) + u64::from(self.live)
    }
}
