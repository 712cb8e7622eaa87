ghost use Rattle.std.specs.Prelude.{◌≡◌, ℕ, ◌-◌, ◌<◌, ◌≤◌, IsTrue, length, map, slice_index};
ghost use Rattle.std.specs.List.{concat};
ghost use Rattle.raw_region.specs.Region.{with_words, part};
ghost use Rattle.object_heap.specs.HeapImage.{FormHeap, is_null_or_live};
ghost use Rattle.summary.specs.Compaction.{redirected};

use heap_image::Heap;
use raw_region::Region;
use summary::Plan;

/// The word at address `a` of a heap whose regions have `2 ^ region_log` words.
#[inline]
pub(crate) fn word(regions: &[Region], region_log: u32, a: u64) -> u64
    requires heap { FormHeap region_log regions.now }
    requires inside { a < length (concat regions.now) }
    ensures { result ≡ slice_index (concat regions.now) a }
{
    Heap::new(regions, region_log).word(a)
}

/// Redirects the references of a heap from address `at` up to `end`, or up to the end of their region. Returns the address
/// behind the last of them.
pub(crate) fn redirect_within(regions: &mut [Region], plan: &Plan, at: u64, end: u64) -> u64
    requires heap { FormHeap plan.now.region_log regions.old }
    requires some { at < end }
    requires inside { end ≤ length (concat regions.old) }
    requires sound { (p : ℕ) → at ≤ p → p < end → IsTrue (is_null_or_live plan.now (slice_index (concat regions.old) p)) }
    ensures heap { FormHeap plan.now.region_log regions.new }
    ensures more { (at < result) × (result ≤ end) }
    ensures value { concat regions.new ≡ with_words (concat regions.old) at (map (redirected plan.now) (part (concat regions.old) at (result - at))) }
{
    let size = plan.region_words();
    let region = &mut regions[(at >> plan.region_log()) as usize];
    let place = at & (size - 1);
    let n = (end - at).min(size - place);
    plan.redirect(region, place as usize, n as usize);
    at + n
}
