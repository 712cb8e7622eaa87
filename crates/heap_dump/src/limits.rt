//! The limits of an image.
ghost use Rattle.std.specs.Prelude.{◌≡◌, ◌<◌, ◌≤◌, ◌^◌, All, OnOk, IfOk, length, ◌≢◌};
ghost use Rattle.std.specs.List.{concat};
ghost use Rattle.object_heap.specs.HeapImage.{AreBlocks, IsWithinLimits};

use dump_records::ImportError;
use heap_image::{Fault, Version, blocks_joined};
use raw_region::Region;

/// The number of words of these regions of `2 ^ region_log` words, if an image of some version may have as many.
pub(crate) fn words_within_limits(region_log: u32, regions: &[Region]) -> Result<u64, ImportError>
    requires low { 3 ≤ region_log }
    requires high { region_log ≤ 20 }
    requires whole { AreBlocks region_log regions.now }
    ensures count { IfOk result (λ words. words ≡ length (concat regions.now)) }
    ensures limits { IfOk result (λ words. IsWithinLimits region_log words 0) }
    ensures fit { OnOk result (All (λ w. w < 2 ^ 64) (concat regions.now)) }
    ensures no_device { result ≢ Err ImportError.Input }
{
    blocks_joined();
    if regions.len() as u64 > Version::Three.max_regions() {
        return Err(ImportError::NoHeap(Fault::Length));
    }
    let words = words_of(regions);
    if words == 0 || words > Version::Three.max_words() {
        return Err(ImportError::NoHeap(Fault::Length));
    }
    Ok(words)
}

/// The number of words of these regions.
fn words_of(regions: &[Region]) -> u64
    requires { length regions.now ≤ 1048576 }
    ensures count { result ≡ length (concat regions.now) }
    ensures fit { All (λ w. w < 2 ^ 64) (concat regions.now) }
{
    let mut words = 0;
    for region in regions {
        words += length_of(region.words());
    }
    words
}

/// The number of words.
fn length_of(words: &[u64]) -> u64
    ensures count { result ≡ length words.now }
    ensures fit { All (λ w. w < 2 ^ 64) words.now }
{
    words.len() as u64
}
