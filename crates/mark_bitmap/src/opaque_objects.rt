//! Opaque objects, of which only the addresses and sizes are known.
ghost use Rattle.std.specs.Prelude.{◌≡◌, ◌+◌, ◌<◌, ◌≤◌, ◌^◌, ◌&&◌, nat_lt, nat_le, IfOk, IfErr, IfSome, IfNone, length};
ghost use Rattle.std.specs.Int.{div_ceil};
ghost use Rattle.object_heap.specs.HeapImage.{IsValid, region_count};
ghost use Rattle.object_heap.specs.Sizes.{AreSizesOf};
ghost use Rattle.heap_image.specs.ImageText.{with_tail};
ghost use Rattle.mark_bitmap.specs.OpaqueObjects.{opaque_image, settings_fault, object_fault, AreApart, IsFirstObjectFault, IsFirstFaultOf};

use heap_image::{Fault, live_objects_are_reached, regions_by_log};
use object_heap::layouts_are_lawful;
use std::marker::Model;

/// The numbers of a heap of opaque objects.
#[derive(Clone, Copy)]
pub struct OpaqueHeap {
    /// The logarithm, to base 2, of the number of words of a region.
    pub region_log: u32,
    /// The largest number of dead words that the dense prefix may keep.
    pub allowance: u64,
    /// The number of words. The last region may have fewer than the others.
    pub words: u64,
}

/// Opaque objects: where they lie in their heap, by the host's lists, which is all that is known of them.
///
/// Contracts view them as an image that has nothing but objects of these sizes at these addresses.
#[derive(Drop)]
pub struct OpaqueObjects<'a> {
    region_log: u32,
    allowance: u64,
    regions: u32,
    live: &'a [u64],
    sizes: &'a [u32],
}

impl<'a> Model for OpaqueObjects<'a> {
    ghost use Rattle.object_heap.specs.HeapImage.{HeapImage};
    ghost use Rattle.mark_bitmap.specs.OpaqueObjects.{opaque_image, AreOpaque};

    ghost Value = { HeapImage };

    ghost view = { λ o. opaque_image o.region_log o.allowance o.regions o.live.now o.sizes.now };

    ghost invariant = { λ o. AreOpaque o.region_log o.allowance o.regions o.live.now o.sizes.now };
}

impl<'a> OpaqueObjects<'a> {
    /// The objects at these ascending addresses with these sizes in words, of as many.
    ///
    /// Returns the first fault: 3 or 4 of the heap's numbers, or else that of the first object with which something is wrong, 6
    /// out of order or outside, 7 without a word or too long, 8 over the one before it.
    pub fn new(
        heap: OpaqueHeap,
        live: &'a [u64],
        sizes: &'a [u32],
    ) -> Result<OpaqueObjects<'a>, Fault>
        requires same { length sizes.now ≡ length live.now }
        ensures objects { IfOk result (λ objects.
            objects ≡ opaque_image heap.region_log heap.allowance (div_ceil heap.words (2 ^ heap.region_log)) live.now sizes.now) }
        ensures fault { IfErr result (IsFirstFaultOf heap.region_log heap.words live.now sizes.now) }
    {
        if let Some(fault) = settings_fault(heap, live.len()) {
            return Err(fault);
        }
        if let Some(fault) = first_object_fault(heap.words, live, sizes) {
            return Err(fault);
        }
        layouts_are_lawful();
        live_objects_are_reached();
        regions_by_log();
        let regions = heap.words.div_ceil(1 << heap.region_log) as u32;
        Ok(OpaqueObjects {
            region_log: heap.region_log,
            allowance: heap.allowance,
            regions,
            live,
            sizes,
        })
    }

    /// The logarithm, to base 2, of the number of words of a region.
    pub fn region_log(&self) -> u32
        ensures value { result ≡ self.now.region_log }
        ensures valid { IsValid self.now }
    {
        self.region_log
    }

    /// The largest number of dead words that the dense prefix may keep.
    pub(crate) fn allowance(&self) -> u64
        ensures { result ≡ self.now.allowance }
    {
        self.allowance
    }

    /// The number of regions.
    pub fn regions(&self) -> u32
        ensures value { result ≡ region_count self.now }
        ensures valid { IsValid self.now }
    {
        self.regions
    }

    /// The number of objects. The image has a root to each.
    pub fn len(&self) -> usize
        ensures value { result ≡ length self.now.live }
        ensures roots { result ≡ length (with_tail self.now).live }
    {
        self.live.len()
    }

    /// The addresses, ascending.
    pub(crate) fn live(&self) -> &[u64]
        ensures value { result.now ≡ self.now.live }
        ensures valid { IsValid self.now }
    {
        self.live
    }

    /// The sizes in words, of as many.
    pub(crate) fn sizes(&self) -> &[u32]
        ensures count { length result.now ≡ length self.now.live }
        ensures sizes { AreSizesOf self.now self.now.live result.now }
    {
        self.sizes
    }
}

/// What is wrong with the numbers of a heap with this number of objects, if anything is.
#[tactic(auto, unfolding(crate::specs::OpaqueObjects::settings_fault))]
fn settings_fault(heap: OpaqueHeap, count: usize) -> Option<Fault>
    ensures { result ≡ settings_fault heap.region_log heap.words count }
{
    if heap.region_log < 3 || heap.region_log > 20 {
        return Some(Fault::RegionLog);
    }
    let is_wrong = heap.words == 0
        || heap.words > 68_719_476_736
        || heap.words.div_ceil(1 << heap.region_log) > 1_048_576
        || count > 4_294_967_295;
    is_wrong.then_some(Fault::Length)
}

/// What is wrong with the first object with which something is.
fn first_object_fault(words: u64, live: &[u64], sizes: &[u32]) -> Option<Fault>
    requires words { words ≤ 68719476736 }
    requires count { length live.now < 2 ^ 32 }
    requires same { length sizes.now ≡ length live.now }
    ensures some { IfSome result (IsFirstObjectFault words live.now sizes.now) }
    ensures none { IfNone result (AreApart words live.now sizes.now) }
{
    let mut end = 0;
    for i in 0..live.len() {
        let at = live[i];
        let size = u64::from(sizes[i]);
        if !follows(words, end, at, size) {
            return object_fault(words, live, sizes, i);
        }
        end = at + size;
    }
    None
}

/// Whether an object of this size at `at` lies behind the one that ends at `end`, and ends within the words.
#[inline]
fn follows(words: u64, end: u64, at: u64, size: u64) -> bool
    ensures { result ≡ (nat_lt at words && (nat_le end at && (nat_lt 0 size && nat_le (at + size) words))) }
{
    at < words && end <= at && size > 0 && size <= words - at
}

/// What is wrong with the `i`-th object, if anything is.
fn object_fault(words: u64, live: &[u64], sizes: &[u32], i: usize) -> Option<Fault>
    requires words { words ≤ 68719476736 }
    requires count { length live.now < 2 ^ 32 }
    requires same { length sizes.now ≡ length live.now }
    requires inside { i < length live.now }
    ensures { result ≡ object_fault words live.now sizes.now i }
{
    let at = live[i];
    if at >= words || (i > 0 && at <= live[i - 1]) {
        return Some(Fault::LiveOrder(i as u32));
    }
    let size = u64::from(sizes[i]);
    if size == 0 || at + size > words {
        return Some(Fault::Header(at));
    }
    if i > 0 && at < live[i - 1] + u64::from(sizes[i - 1]) {
        return Some(Fault::Overlap(at));
    }
    None
}
