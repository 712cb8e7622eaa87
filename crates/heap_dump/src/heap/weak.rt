//! The references of a heap that aren't followed.
ghost use Rattle.std.specs.Prelude.{◌≡◌, ◌≢◌, ◌<◌, ◌≤◌, ◌^◌, ◌∷◌, [], All, None, IfOk, OnOk, IsTrue, length, slice_index};
ghost use Rattle.std.specs.List.{concat};
ghost use Rattle.object_heap.specs.HeapImage.{AreBlocks, FormHeap, image_of, reachable};
ghost use Rattle.object_heap.specs.declared.version.Version.TheVariants.{Two};
ghost use Rattle.heap_image.specs.ImageText.{from_tail, first_some, live_list_faults};
ghost use Rattle.heap_dump.specs.Weak.{AreNull, DifferOnlyAt, slots_of};

use dump_objects::WeakReference;
use dump_records::ImportError;
use heap_image::{Alone, Fault, Heap, blocks_joined, mark_from_roots, regions_by_log};
use raw_region::Region;
use std::alloc::Global;

/// Marks a heap in whose words these weak references aren't yet, and puts those that lead to live objects. Returns the addresses of
/// the live objects, ascending.
///
/// A word of theirs that isn't null is an error, and so is an object that is reached only once they are there.
pub(super) fn put_weak(
    alloc: Global,
    region_log: u32,
    regions: &mut [Region],
    roots: &[u64],
    weak: &[WeakReference],
) -> Result<Vec<u64>, ImportError>
    requires heap { FormHeap region_log regions.old }
    requires low { 3 ≤ region_log }
    requires few { length roots.now ≤ length (concat regions.old) }
    requires fit { All (λ w. w < 2 ^ 64) (concat regions.old) }
    ensures whole { OnOk result (AreBlocks region_log regions.new) }
    ensures fit { OnOk result (All (λ w. w < 2 ^ 64) (concat regions.new)) }
    ensures live { IfOk result (λ live. live.items ≡ reachable (image_of region_log 0 regions.new []) roots.now) }
    ensures sound { OnOk result (first_some (live_list_faults (from_tail Two (image_of region_log 0 regions.new roots.now))) ≡ None) }
    // The live objects are those that are reached without these references.
    ensures strong { IfOk result (λ live. live.items ≡ reachable (image_of region_log 0 regions.old []) roots.now) }
    ensures null { OnOk result (AreNull (slots_of weak.now) (concat regions.old)) }
    ensures others { OnOk result (DifferOnlyAt (slots_of weak.now) (concat regions.old) (concat regions.new)) }
    ensures no_device { result ≢ Err ImportError.Input }
{
    if !are_null(region_log, regions, weak) {
        return Err(ImportError::NoHeap(Fault::Length));
    }
    let live = marked(alloc, region_log, regions, roots)?;
    if weak.is_empty() {
        return Ok(live);
    }
    put_live(region_log, regions, live.as_slice(), weak);
    let again = marked(alloc, region_log, regions, roots)?;
    if again.as_slice() != live.as_slice() {
        return Err(ImportError::NoHeap(Fault::Length));
    }
    Ok(again)
}

/// Marks a heap from its roots.
fn marked(
    alloc: Global,
    region_log: u32,
    regions: &[Region],
    roots: &[u64],
) -> Result<Vec<u64>, ImportError>
    requires heap { FormHeap region_log regions.now }
    requires few { length roots.now ≤ length (concat regions.now) }
    ensures live { IfOk result (λ live. live.items ≡ reachable (image_of region_log 0 regions.now []) roots.now) }
    ensures sound { OnOk result (first_some (live_list_faults (from_tail Two (image_of region_log 0 regions.now roots.now))) ≡ None) }
    ensures no_device { result ≢ Err ImportError.Input }
{
    match mark_from_roots(alloc, region_log, regions, roots, &Alone) {
        Ok(live) => Ok(live),
        Err(Fault::Memory) => Err(ImportError::Memory),
        Err(fault) => Err(ImportError::NoHeap(fault)),
    }
}

/// Whether the words of these references are null.
fn are_null(region_log: u32, regions: &[Region], weak: &[WeakReference]) -> bool
    requires { FormHeap region_log regions.now }
    ensures { IsTrue result → AreNull (slots_of weak.now) (concat regions.now) }
{
    let heap = Heap::new(regions, region_log);
    for reference in weak {
        if !is_null(&heap, reference.slot) {
            return false;
        }
    }
    true
}

/// Whether the word at an address is null, or outside the heap.
fn is_null(heap: &Heap<'_>, address: u64) -> bool
    ensures { IsTrue result → address < length heap.now.words → slice_index heap.now.words address ≡ 0 }
{
    address >= heap.len() || heap.word(address) == 0
}

/// Puts each of these references that leads to one of the live addresses, which ascend.
fn put_live(region_log: u32, regions: &mut [Region], live: &[u64], weak: &[WeakReference])
    requires low { 3 ≤ region_log }
    requires high { region_log ≤ 20 }
    requires whole { AreBlocks region_log regions.old }
    requires fit { All (λ w. w < 2 ^ 64) (concat regions.old) }
    ensures whole { AreBlocks region_log regions.new }
    ensures fit { All (λ w. w < 2 ^ 64) (concat regions.new) }
    ensures others { DifferOnlyAt (slots_of weak.now) (concat regions.old) (concat regions.new) }
{
    for reference in weak {
        let referent = reference.referent.wrapping_sub(1);
        if live.binary_search(&referent).is_ok() {
            put(region_log, regions, reference.slot, reference.referent);
        }
    }
}

/// Puts a word at an address. An address outside the heap is ignored.
fn put(region_log: u32, regions: &mut [Region], address: u64, word: u64)
    requires low { 3 ≤ region_log }
    requires high { region_log ≤ 20 }
    requires whole { AreBlocks region_log regions.old }
    requires fit { All (λ w. w < 2 ^ 64) (concat regions.old) }
    ensures whole { AreBlocks region_log regions.new }
    ensures fit { All (λ w. w < 2 ^ 64) (concat regions.new) }
    ensures others { DifferOnlyAt (address ∷ []) (concat regions.old) (concat regions.new) }
{
    regions_by_log();
    blocks_joined();
    let index = (address >> region_log) as usize;
    let place = (address & ((1 << region_log) - 1)) as usize;
    if index < regions.len() {
        regions[index].set(place, word);
    }
}
