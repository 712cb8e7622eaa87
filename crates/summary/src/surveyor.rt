//! Surveying an image in one thread or in several, for code that serves both.
ghost use Rattle.std.specs.Prelude.{◌≡◌, length};
ghost use Rattle.object_heap.specs.HeapImage.{region_count};
ghost use Rattle.summary.specs.RegionPlaces.{AreOwnStarts, AreRegionCounts};

use crate::plan::counting::count_region;
use crate::plan::region_counts::RegionCounts;
use mark_bitmap::{Listed, MarkBuilder, Marks};
use std::thread::Threads;
use thread_row::{Alone, Many, for_each_mut, for_each_mut_alone};

/// The least number of regions for a thread of its own: counting fewer takes less time than starting a thread.
const LEAST: usize = 8192;

/// The threads that make marks and count the words of regions.
pub trait Surveyor: MarkBuilder {
    /// Counts the live words of each region. `starts` are the regions' own starts.
    fn count_regions(
        &self,
        image: &Listed<'_>,
        marks: &Marks,
        starts: &[u64],
        counts: &mut [RegionCounts],
    )
        requires start { Self.may_start }
        requires same { marks.now ≡ image.now }
        requires starts { AreOwnStarts image.now starts.now }
        requires room { length counts.old ≡ region_count image.now }
        ensures { AreRegionCounts image.now counts.new };
}

impl Surveyor for Alone {
    fn count_regions(
        &self,
        image: &Listed<'_>,
        marks: &Marks,
        starts: &[u64],
        counts: &mut [RegionCounts],
    ) {
        let count = |r: usize, counts: &mut RegionCounts| {
            count_region(image, marks, starts, r, counts)
        };
        for_each_mut_alone(counts, &count);
    }
}

impl<T: Threads + Sync> Surveyor for Many<'_, T> {
    fn count_regions(
        &self,
        image: &Listed<'_>,
        marks: &Marks,
        starts: &[u64],
        counts: &mut [RegionCounts],
    ) {
        let threads = self.most.min(counts.len() / LEAST).max(1);
        let count = |r: usize, counts: &mut RegionCounts| {
            count_region(image, marks, starts, r, counts)
        };
        for_each_mut(self.threads, counts, threads, &count);
    }
}
