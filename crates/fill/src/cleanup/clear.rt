ghost use Rattle.std.specs.Prelude.{◌≡◌, ℕ, length, min};
ghost use Rattle.std.specs.List.{concat};
ghost use Rattle.object_heap.specs.HeapImage.{AreBlocks};
ghost use Rattle.fill.specs.MovedHeap.{cleared};

use raw_region::Region;

/// Zeroes every word from the address `new_top` up. `regions` are all regions of a heap, in order.
pub fn clear_above(regions: &mut [Region], new_top: u64)
    ensures words { concat regions.new ≡ cleared new_top (concat regions.old) }
    ensures blocks { (log : ℕ) → AreBlocks log regions.old → AreBlocks log regions.new }
{
    let mut kept = new_top;
    for region in regions.iter_mut() {
        kept -= clear_region(region, kept);
    }
}

/// Zeroes all but the first `kept` words of a region. Returns how many words it has kept.
fn clear_region(region: &mut Region, kept: u64) -> u64
    ensures words { region.new ≡ cleared kept region.old }
    ensures kept { result ≡ min kept (length region.old) }
{
    if kept == 0 {
        region.clear();
        return 0;
    }
    let words = region.len();
    let kept = kept.min(words as u64);
    region.fill(kept as usize, words - kept as usize, 0);
    kept
}
