//! Finds the live objects of a heap with roots.
ghost use Rattle.std.specs.Prelude.{◌≡◌, ◌<◌, ◌≤◌, ◌^◌, None, [], All, length, find, nat_lt, slice_index, IfOk, OnOk, IfErr, IsTrue};
ghost use Rattle.std.specs.List.{concat, range_with_len};
ghost use Rattle.object_heap.specs.declared.version.Version.TheVariants.{Two};
ghost use Rattle.object_heap.specs.HeapImage.{FormHeap, HasLiveList, heap_words, image_of, reachable, with_live};
ghost use Rattle.heap_image.specs.Checks.{AreSeen, IsMemoryOr, MayReport, first_in_tail};
ghost use Rattle.heap_image.specs.ImageText.{from_tail};
ghost use Rattle.object_heap.specs.ObjectFaults.{misplaced_root};
ghost use Rattle.heap_marking.specs.Soundness.{AreWellFormed};

use crate::Fault;
use crate::check::check_live;
use heap_marking::{Marker, marks_are_listed, sizes_if_sound};
use object_heap::{Bits, Heap, reachable_is_the_least_closed};
use raw_region::Region;
use std::alloc::Global;

/// Returns the addresses of all objects that are reachable from the roots, ascending, or the first fault: 17 if a root
/// is above the number of words, and 7, 8 or 9 of the reachable objects. No image has more than 2^32 - 1 roots: more of
/// them are fault 11, as memory that runs out.
///
/// The heap lies in regions of `2 ^ region_log` words each, from address 0 on. A root is 0, which is null, or 1 plus an
/// address. An object without a sound header is reachable itself, but nothing is through its references. Fault 11 comes
/// if memory runs out. Takes time linear in the words, the roots and the references. The marker's threads mark a large
/// heap; the result does not depend on their number.
pub fn mark_from_roots<M: Marker>(
    alloc: Global,
    region_log: u32,
    regions: &[Region],
    roots: &[u64],
    marker: &M,
) -> Result<Vec<u64>, Fault>
    requires marker { M.may_start }
    requires heap { FormHeap region_log regions.now }
    requires few { length roots.now ≤ length (concat regions.now) }
    ensures live { IfOk result (λ live. live.items ≡ reachable (image_of region_log 0 regions.now []) roots.now) }
    ensures faults { MayReport result (first_in_tail Two (image_of region_log 0 regions.now []) roots.now) }
{
    let heap = Heap::new(regions, region_log);
    find_and_check(alloc, &heap, roots, marker)
}

/// Returns the addresses of the objects that are reachable from the roots of a heap, ascending, or the first fault.
fn find_and_check<M: Marker>(
    alloc: Global,
    heap: &Heap<'_>,
    roots: &[u64],
    marker: &M,
) -> Result<Vec<u64>, Fault>
    requires marker { M.may_start }
    requires few { length roots.now ≤ heap_words heap.now }
    ensures live { IfOk result (λ live. live.items ≡ reachable heap.now roots.now) }
    ensures faults { MayReport result (first_in_tail Two heap.now roots.now) }
{
    if roots.len() > u32::MAX as usize {
        return Err(Fault::Memory);
    }
    let Reached {
        live,
        begins,
        well_formed,
    } = find_reachable(alloc, heap, roots, marker)?;
    if well_formed && are_apart(alloc, heap, live.as_slice(), marker) {
        return Ok(live);
    }
    check_live(heap, live.as_slice(), &begins, well_formed)?;
    Ok(live)
}

/// Whether these well-formed objects are known not to overlap. `false` says nothing of them. One thread alone leaves this
/// to the check that finds the first fault, which is faster then.
fn are_apart<M: Marker>(alloc: Global, heap: &Heap<'_>, live: &[u64], marker: &M) -> bool
    requires marker { M.may_start }
    requires inside { All (λ a. a < heap_words heap.now) live.now }
    requires well_formed { AreWellFormed (with_live heap.now live.now) }
    ensures { IsTrue result → HasLiveList (with_live heap.now live.now) }
{
    marker.most() > 1 && sizes_if_sound(alloc, heap, live, None, marker).is_some()
}

/// The objects that are reachable from the roots of a heap, before they are checked.
#[derive(Drop)]
pub(crate) struct Reached {
    /// Their addresses, ascending.
    pub(crate) live: Vec<u64>,
    /// The same addresses as bits.
    pub(crate) begins: Bits,
    /// Whether each of these objects is known to have a sound header and only references that are null or to one of
    /// them.
    pub(crate) well_formed: bool,
}

/// Finds what is reachable from the roots of a heap. Fault 17 comes if a root is above the number of words.
pub(crate) fn find_reachable<M: Marker>(
    alloc: Global,
    heap: &Heap<'_>,
    roots: &[u64],
    marker: &M,
) -> Result<Reached, Fault>
    requires marker { M.may_start }
    requires few { length roots.now ≤ heap_words heap.now }
    requires fits { length roots.now < 2 ^ 32 }
    ensures live { IfOk result (λ reached. reached.live.items ≡ reachable heap.now roots.now) }
    ensures seen { IfOk result
        (λ reached. AreSeen heap.now reached.live.items reached.begins reached.well_formed) }
    ensures roots { OnOk result (misplaced_root (from_tail Two (with_live heap.now roots.now)) ≡ None) }
    ensures fault { IfErr result (IsMemoryOr (first_in_tail Two heap.now roots.now)) }
{
    reachable_is_the_least_closed();
    marks_are_listed();
    let words = heap.len();
    if let Some(index) = misplaced_root(roots, words) {
        return Err(Fault::Root(index));
    }
    let marked = marker.mark(alloc, heap, roots)?;
    let live = marker.list(alloc, &marked.bits)?;
    Ok(Reached {
        live,
        begins: marked.bits,
        well_formed: marked.well_formed,
    })
}

/// The first index of a root that is above the number of words.
fn misplaced_root(roots: &[u64], words: u64) -> Option<u32>
    requires few { length roots.now ≤ words }
    requires fits { length roots.now < 2 ^ 32 }
    ensures { result ≡ find (λ i. nat_lt words (slice_index roots.now i)) (range_with_len 0 (length roots.now)) }
{
    for (index, root) in roots.iter().enumerate() {
        if *root > words {
            return Some(index as u32);
        }
    }
    None
}
