//! The sources of the regions: the region whose word goes to the start of another.

ghost use Rattle.std.specs.Prelude.{◌≡◌, ◌≢◌, ℕ, Some, ◌<◌, map, MatchOption};
ghost use Rattle.std.specs.List.{range_with_len};
ghost use Rattle.object_heap.specs.HeapImage.{region_count};
ghost use Rattle.summary.specs.NewAddresses.{prefix_end};
ghost use Rattle.summary.specs.RegionData.{region_data, source};
ghost use Rattle.summary.specs.RegionPlaces.{placed_region};
ghost use Rattle.summary.specs.Sources.{StartsOnly, region_so_far};

use crate::region_row::RegionRow;
use mark_bitmap::Listed;

/// Sets the source of each region in a table that is complete but for the sources.
pub fn set_sources(image: &Listed<'_>, prefix: u64, regions: &mut [RegionRow])
    requires prefix { prefix ≡ prefix_end image.now }
    requires regions { regions.old ≡ map (placed_region image.now) (range_with_len 0 (region_count image.now)) }
    ensures { regions.new ≡ map (region_data image.now) (range_with_len 0 (region_count image.now)) }
{
    for s in 0..image.regions() {
        if let Some(d) = started_by(image, prefix, s, &regions[s as usize]) {
            regions[d as usize].set_source(s);
        }
    }
}

/// The region to whose start a word of region `s` goes, if `s` lies after the dense prefix.
fn started_by(image: &Listed<'_>, prefix: u64, s: u32, region: &RegionRow) -> Option<u64>
    requires prefix { prefix ≡ prefix_end image.now }
    requires inside { s < region_count image.now }
    requires region { region_so_far image.now s s ≡ region.now }
    ensures { MatchOption result ((d : ℕ) → source image.now d ≢ Some s) (StartsOnly image.now s) }
{
    let region_words = image.region_words();
    let destination = region.destination();
    if destination < prefix {
        return None;
    }
    let d = destination.div_ceil(region_words);
    if d * region_words < destination + region.words() {
        Some(d)
    } else {
        None
    }
}
