//! `RegionTable`: the data of all regions.

ghost use Rattle.std.specs.Prelude.{◌≡◌, ◌<◌, ◌≤◌, IfOk, length};
ghost use Rattle.object_heap.specs.HeapImage.{IsValid, region_words, region_count};
ghost use Rattle.summary.specs.NewAddresses.{prefix_end, new_top};
ghost use Rattle.summary.specs.RegionPlaces.{AreRegionCounts};
ghost use Rattle.summary.specs.Plan.{AreRegions};

use crate::plan::region_counts::RegionCounts;
use crate::plan::region_places::RegionPlaces;
use crate::plan::sources::set_sources;
use crate::region_row::RegionRow;
use mark_bitmap::{Listed, Surveyed};
use std::alloc::{AllocError, Global};
use std::marker::Model;
use std::snapshot::Snapshot;

/// The data of all regions of an image, where its dense prefix ends, and its new top.
///
/// A contract sees the table as the image that it was made of, as it was then.
pub(crate) struct RegionTable {
    image: Snapshot<Surveyed>,
    region_log: u32,
    prefix_end: u64,
    new_top: u64,
    regions: Vec<RegionRow>,
}

impl Drop for RegionTable {
    fn drop(self) {
        let Self {
            image,
            region_log,
            prefix_end,
            new_top,
            regions,
        } = self;
    }
}

impl Model for RegionTable {
    ghost use Rattle.object_heap.specs.HeapImage.{HeapImage};
    ghost use Rattle.summary.specs.Plan.{IsTable};

    ghost Value = { HeapImage };

    ghost view = { λ t. t.image.value };

    ghost invariant = { λ t. IsTable t.image.value t.region_log t.prefix_end t.new_top t.regions.items };
}

impl RegionTable {
    /// Makes the table of an image from the counts of its regions.
    pub(crate) fn of(
        alloc: Global,
        image: &Listed<'_>,
        counts: &[RegionCounts],
    ) -> Result<RegionTable, AllocError>
        requires { AreRegionCounts image.now counts.now }
        ensures { IfOk result (λ table. table ≡ image.now) }
    {
        let RegionPlaces {
            mut regions,
            prefix_end,
            new_top,
        } = RegionPlaces::of(alloc, image, counts)?;
        set_sources(image, prefix_end, regions.as_mut_slice());
        Ok(RegionTable {
            image: image.surveyed(),
            region_log: image.region_log(),
            prefix_end,
            new_top,
            regions,
        })
    }

    pub(crate) fn region_log(&self) -> u32
        ensures value { result ≡ self.now.region_log }
        ensures valid { IsValid self.now }
    {
        self.region_log
    }

    /// The number of words of a region.
    pub(crate) fn region_words(&self) -> u64
        ensures value { result ≡ region_words self.now }
        ensures some { 0 < result }
        ensures few { result ≤ 1048576 }
        ensures valid { IsValid self.now }
    {
        1 << self.region_log
    }

    pub(crate) fn prefix_end(&self) -> u64
        ensures value { result ≡ prefix_end self.now }
        ensures valid { IsValid self.now }
    {
        self.prefix_end
    }

    pub(crate) fn new_top(&self) -> u64
        ensures value { result ≡ new_top self.now }
        ensures valid { IsValid self.now }
    {
        self.new_top
    }

    pub(crate) fn regions(&self) -> &[RegionRow]
        ensures data { AreRegions self.now result.now }
        ensures number { length result.now ≡ region_count self.now }
        ensures valid { IsValid self.now }
    {
        self.regions.as_slice()
    }
}
