//! The regions of a heap.
ghost use Rattle.std.specs.Prelude.{◌≡◌, ◌<◌, ◌≤◌, ◌^◌, All, IfOk, length};
ghost use Rattle.std.specs.List.{concat};
ghost use Rattle.object_heap.specs.HeapImage.{AreBlocks};

use crate::heap_words::HeapWords;
use crate::limits::Limits;
use heap_image::{blocks_joined, regions_by_log};
use raw_region::Region;
use std::alloc::{AllocError, Global};

/// Fills all regions with the next words.
pub(crate) fn regions_of(
    alloc: Global,
    limits: Limits,
    words: &mut HeapWords<'_>,
) -> Result<Vec<Region>, AllocError>
    ensures whole { IfOk result (λ regions. AreBlocks limits.region_log regions.items) }
    ensures count { IfOk result (λ regions. length (concat regions.items) ≡ limits.words) }
    ensures fit { IfOk result (λ regions. All (λ w. w < 2 ^ 64) (concat regions.items)) }
{
    blocks_joined();
    let mut regions = Vec::new(alloc);
    for _r in 0..limits.regions {
        let region = region_of(alloc, limits.region_log, words)?;
        regions.push(region)?;
    }
    Ok(regions)
}

/// Fills a region with the next words.
fn region_of(
    alloc: Global,
    region_log: u32,
    words: &mut HeapWords<'_>,
) -> Result<Region, AllocError>
    requires { region_log ≤ 20 }
    ensures whole { IfOk result (λ region. length region ≡ 2 ^ region_log) }
    ensures fit { IfOk result (λ region. All (λ w. w < 2 ^ 64) region) }
{
    regions_by_log();
    let mut region = Region::new(alloc, 1 << region_log)?;
    for place in 0..region.len() {
        region.set(place, words.next_word());
    }
    all_fit(region.words());
    Ok(region)
}

/// Each of these is below 2^64.
pub(crate) fn all_fit(words: &[u64])
    ensures { All (λ w. w < 2 ^ 64) words.now }
{
    words.len();
}
