//! `RegionPlaces`: where the words of each region go, from the counts of its live words.

ghost use Rattle.std.specs.Prelude.{◌≡◌, ◌+◌, ◌^◌, ◌<◌, ◌≤◌, IfOk};
ghost use Rattle.object_heap.specs.HeapImage.{IsValid, heap_words, region_count, start_of, last_end};
ghost use Rattle.summary.specs.NewAddresses.{prefix_end};
ghost use Rattle.summary.specs.RegionData.{destination, readers_from};
ghost use Rattle.summary.specs.RegionPlaces.{region_counts, placed_region, AreRegionCounts, AreRegionPlaces};

use super::region_counts::RegionCounts;
use crate::region_data::RegionData;
use crate::region_row::RegionRow;
use mark_bitmap::Listed;
use std::alloc::{AllocError, Global};

/// Where the words of each region go, before the sources are known.
#[derive(Drop)]
pub struct RegionPlaces {
    /// The data of each region; no region has a source.
    pub regions: Vec<RegionRow>,
    /// The address at which the dense prefix ends.
    pub prefix_end: u64,
    /// The first free address after the collection.
    pub new_top: u64,
}

impl RegionPlaces {
    /// Lays out an image from the counts of its regions.
    pub fn of(
        alloc: Global,
        image: &Listed<'_>,
        counts: &[RegionCounts],
    ) -> Result<RegionPlaces, AllocError>
        requires { AreRegionCounts image.now counts.now }
        ensures { IfOk result (λ places. AreRegionPlaces image.now places) }
    {
        let prefix = prefix_end(image, counts);
        let mut next = prefix;
        let mut regions = Vec::with_capacity(alloc, counts.len())?;
        for (r, counts) in counts.iter().enumerate() {
            let region = placed(image, prefix, next, r as u64, *counts);
            if region.destination >= prefix {
                next = region.destination + counts.live_words();
            }
            regions.push(RegionRow::without_source(region))?;
        }
        Ok(RegionPlaces {
            regions,
            prefix_end: prefix,
            new_top: next,
        })
    }
}

/// The data of region `r`, whose words go to `next` if it lies after the dense prefix.
fn placed(image: &Listed<'_>, prefix: u64, next: u64, r: u64, counts: RegionCounts) -> RegionData
    requires prefix { prefix ≡ prefix_end image.now }
    requires inside { r < region_count image.now }
    requires counts { counts ≡ region_counts image.now r }
    requires next { prefix ≤ start_of image.now r → next ≡ destination image.now r }
    ensures { result ≡ placed_region image.now r }
{
    let start = r * image.region_words();
    let (destination, count) = if start < prefix {
        (start, 0)
    } else {
        (next, readers(image, r, next, counts.live_words()))
    };
    RegionData {
        partial: counts.partial,
        live: counts.live,
        destination,
        count,
        source: None,
    }
}

/// The number of other regions that receive words of region `s`, whose words go to `destination` and after.
fn readers(image: &Listed<'_>, s: u64, destination: u64, words: u64) -> u32
    requires { destination + words < 2 ^ 64 }
    ensures { result ≡ readers_from image.now s destination words }
{
    if words == 0 {
        return 0;
    }
    let region_words = image.region_words();
    let first = destination / region_words;
    let last = (destination + words - 1) / region_words;
    u32::from(s != last) + u32::from(first != last)
}

/// The last region start that is not above the end of the last live object and has no more dead words below it than
/// the allowance.
pub fn prefix_end(image: &Listed<'_>, counts: &[RegionCounts]) -> u64
    requires { AreRegionCounts image.now counts.now }
    ensures value { result ≡ prefix_end image.now }
    ensures valid { IsValid image.now }
{
    let region_words = image.region_words();
    let mut dead = 0;
    let mut regions = 0;
    for r in 0..last_end(image) / region_words {
        dead += region_words - counts[r as usize].live_words();
        if dead <= image.allowance() {
            regions = r + 1;
        }
    }
    regions * region_words
}

/// The end of the last live object, or 0 where there is none.
fn last_end(image: &Listed<'_>) -> u64
    ensures value { result ≡ last_end image.now }
    ensures inside { result ≤ heap_words image.now }
{
    match image.live() {
        [] => 0,
        [.., last] => last + image.size_of(image.live().len() - 1),
    }
}
