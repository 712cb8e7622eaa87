//! The counts of the regions: the live words of each, by where their objects begin.

ghost use Rattle.std.specs.Prelude.{◌≡◌, ℕ, ◌<◌, ◌≤◌, false, IsTrue, IfOk};
ghost use Rattle.object_heap.specs.HeapImage.{heap_words, region_count};
ghost use Rattle.mark_bitmap.specs.Marks.{is_begin};
ghost use Rattle.summary.specs.RegionPlaces.{region_counts, AreRegionCounts, IsOwnStart, AreOwnStarts};

use super::region_counts::RegionCounts;
use crate::surveyor::Surveyor;
use mark_bitmap::{Listed, Marks, listed_image_is_valid};
use std::alloc::{AllocError, Global};

/// The counts of all regions. The surveyor's threads count.
pub(crate) fn count_regions<S: Surveyor>(
    alloc: Global,
    image: &Listed<'_>,
    marks: &Marks,
    surveyor: &S,
) -> Result<Vec<RegionCounts>, AllocError>
    requires start { S.may_start }
    requires same { marks.now ≡ image.now }
    ensures { IfOk result (λ counts. AreRegionCounts image.now counts.items) }
{
    let starts = own_starts(alloc, image, marks)?;
    let none = RegionCounts {
        partial: 0,
        live: 0,
    };
    let mut counts = vec![in alloc; none; starts.len()]?;
    surveyor.count_regions(image, marks, starts.as_slice(), counts.as_mut_slice());
    Ok(counts)
}

/// Counts the live words of region `r`. `starts` are the own starts of all regions.
pub(crate) fn count_region(
    image: &Listed<'_>,
    marks: &Marks,
    starts: &[u64],
    r: usize,
    counts: &mut RegionCounts,
)
    requires same { marks.now ≡ image.now }
    requires starts { AreOwnStarts image.now starts.now }
    requires inside { r < region_count image.now }
    ensures { counts.new ≡ region_counts image.now r }
{
    listed_image_is_valid(image);
    *counts = counts_of(image, marks, r as u32, starts[r]);
}

/// The counts of one region, by population counts. The live words before its own start belong to an object of an earlier
/// region.
fn counts_of(image: &Listed<'_>, marks: &Marks, r: u32, own_start: u64) -> RegionCounts
    requires same { marks.now ≡ image.now }
    requires inside { r < region_count image.now }
    requires own_start { IsOwnStart image.now r own_start }
    ensures { result ≡ region_counts image.now r }
{
    let region_words = image.region_words();
    let start = u64::from(r) * region_words;
    let end = start + region_words;
    RegionCounts {
        partial: marks.live_words(start, own_start) as u32,
        live: marks.live_words(own_start, end) as u32,
    }
}

/// The own start of each region: the address of the first object that begins in it, or its end if none does. Each search
/// begins where the one before it ended, so no mark is read twice.
fn own_starts(alloc: Global, image: &Listed<'_>, marks: &Marks) -> Result<Vec<u64>, AllocError>
    requires { marks.now ≡ image.now }
    ensures { IfOk result (λ starts. AreOwnStarts image.now starts.items) }
{
    let region_words = image.region_words();
    let mut starts = Vec::with_capacity(alloc, image.regions() as usize)?;
    let mut begin = begin_from(image, marks, 0);
    for r in 0..image.regions() {
        let start = u64::from(r) * region_words;
        if begin < start {
            begin = begin_from(image, marks, start);
        }
        starts.push(begin.min(start + region_words))?;
    }
    Ok(starts)
}

/// The first address from `from` on at which a live object begins, or the end of the heap if none does.
fn begin_from(image: &Listed<'_>, marks: &Marks, from: u64) -> u64
    requires same { marks.now ≡ image.now }
    requires inside { from ≤ heap_words image.now }
    ensures behind { from ≤ result }
    ensures before { (k : ℕ) → from ≤ k → k < result → is_begin image.now k ≡ false }
    ensures begins { result < heap_words image.now → IsTrue (is_begin image.now result) }
{
    marks.next_begin(from).unwrap_or(image.len())
}
