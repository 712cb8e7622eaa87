//! The live objects of a heap before they are checked, and their check.
ghost use Rattle.std.specs.Prelude.{◌≡◌, ◌<◌, ◌≤◌, ◌^◌, None, length, IfOk, IfSome, IfErr};
ghost use Rattle.object_heap.specs.Sizes.{AreSizes};
ghost use Rattle.object_heap.specs.HeapImage.{HasLiveList, HeapImage, heap_words, with_live};
ghost use Rattle.heap_marking.specs.Soundness.{AreReferencesOrWellFormed};
ghost use Rattle.heap_image.specs.Checks.{AreOfTail, AreSeen, IsMemoryOr, MayReport, Reports, first_in_tail};
ghost use Rattle.heap_image.specs.ImageText.{first_object_fault};

use super::{check_live, misplaced_index};
use crate::marking::{Reached, find_reachable};
use crate::{Fault, Version};
use heap_marking::{Marker, PIECE, mark_references, sizes_if_sound};
use object_heap::{Bits, Heap};
use std::alloc::{AllocError, Global};

/// Live objects that are sound.
#[derive(Drop)]
pub(crate) struct SoundObjects {
    pub(crate) found: Found,
    /// Their sizes, if there is memory for them.
    pub(crate) sizes: Option<Vec<[u32; PIECE]>>,
}

/// Live objects before they are checked.
#[derive(Drop)]
pub(crate) struct Found {
    /// Their addresses, ascending.
    pub(crate) live: Vec<u64>,
    /// The same addresses as bits.
    pub(crate) begins: Bits,
    /// Whether each of these objects is known to have a sound header and only references that are null or to one of
    /// them.
    pub(crate) well_formed: bool,
    /// The roots, in an image of version 2 or 3.
    pub(crate) roots: Option<Vec<u64>>,
}

/// The live objects of a heap, if all of them are sound, or else the first fault. `tail` is what follows the words in a
/// text of this version.
pub(crate) fn find_sound_objects<M: Marker>(
    alloc: Global,
    heap: &Heap<'_>,
    version: Version,
    tail: Vec<u64>,
    marker: &M,
) -> Result<SoundObjects, Fault>
    requires marker { M.may_start }
    requires few { length tail.items ≤ heap_words heap.now }
    requires fits { length tail.items < 2 ^ 32 }
    ensures found { IfOk result (λ sound. AreOfTail heap.now version tail.items sound.found) }
    ensures sizes { IfOk result (λ sound. IfSome sound.sizes
        (λ sizes. AreSizes (with_live heap.now sound.found.live.items) sizes.items)) }
    ensures faults { MayReport result (first_in_tail version heap.now tail.items) }
{
    let found = find_live_objects(alloc, heap, version, tail, marker)?;
    let sizes = found.sizes_if_sound(alloc, heap, marker);
    if sizes.is_none() {
        found.check(heap)?;
    }
    Ok(SoundObjects { found, sizes })
}

/// Finds the live objects of a heap. `tail` is what follows the words in a text of this version: the roots, from which
/// the marker marks, or the live list.
pub(crate) fn find_live_objects<M: Marker>(
    alloc: Global,
    heap: &Heap<'_>,
    version: Version,
    tail: Vec<u64>,
    marker: &M,
) -> Result<Found, Fault>
    requires marker { M.may_start }
    requires few { length tail.items ≤ heap_words heap.now }
    requires fits { length tail.items < 2 ^ 32 }
    ensures found { IfOk result (AreOfTail heap.now version tail.items) }
    ensures fault { IfErr result (IsMemoryOr (first_in_tail version heap.now tail.items)) }
{
    if version.has_roots() {
        let Reached {
            live,
            begins,
            well_formed,
        } = find_reachable(alloc, heap, tail.as_slice(), marker)?;
        let roots = Some(tail);
        return Ok(Found {
            live,
            begins,
            well_formed,
            roots,
        });
    }
    let words = heap.len();
    if let Some(index) = misplaced_index(tail.as_slice(), words) {
        return Err(Fault::LiveOrder(index));
    }
    let begins = Bits::of(alloc, tail.as_slice(), words)?;
    Ok(Found {
        live: tail,
        begins,
        well_formed: false,
        roots: None,
    })
}

impl Found {
    /// The references that these objects may have. `None` if all objects are known to be well-formed. The only error is that
    /// memory runs out.
    pub(crate) fn references(&self, alloc: Global) -> Result<Option<Bits>, AllocError>
        ensures { (heap : HeapImage) → AreSeen heap self.now.live.items self.now.begins self.now.well_formed
            → IfOk result (AreReferencesOrWellFormed (with_live heap self.now.live.items)) }
    {
        if self.well_formed {
            return Ok(None);
        }
        mark_references(alloc, Some(&self.begins))
    }

    /// The same objects, if all are sound, with their sizes. Without sizes one thread checks the objects of their heap, and
    /// finds the first fault.
    pub(crate) fn sound(
        self,
        heap: &Heap<'_>,
        sizes: Option<Vec<[u32; PIECE]>>,
    ) -> Result<SoundObjects, Fault>
        requires seen { AreSeen heap.now self.live.items self.begins self.well_formed }
        requires sound { IfSome sizes (λ _. HasLiveList (with_live heap.now self.live.items)) }
        requires sizes { IfSome sizes (λ sizes. AreSizes (with_live heap.now self.live.items) sizes.items) }
        ensures found { IfOk result (λ sound. sound.found ≡ self) }
        ensures sizes { IfOk result (λ sound. IfSome sound.sizes
            (λ sizes. AreSizes (with_live heap.now self.live.items) sizes.items)) }
        ensures faults { Reports result (first_object_fault (with_live heap.now self.live.items)) }
    {
        let Some(sizes) = sizes else {
            self.check(heap)?;
            return Ok(SoundObjects {
                found: self,
                sizes: None,
            });
        };
        Ok(SoundObjects {
            found: self,
            sizes: Some(sizes),
        })
    }

    /// Checks the live objects of their heap and returns their first fault. One thread visits each object once.
    fn check(&self, heap: &Heap<'_>) -> Result<(), Fault>
        requires { AreSeen heap.now self.now.live.items self.now.begins self.now.well_formed }
        ensures { Reports result (first_object_fault (with_live heap.now self.now.live.items)) }
    {
        check_live(heap, self.live.as_slice(), &self.begins, self.well_formed)
    }

    /// The sizes of the live objects, if all of them are sound. If they are known to be well-formed already, it looks for
    /// overlaps alone. Returns `None` also if memory runs out.
    fn sizes_if_sound<M: Marker>(
        &self,
        alloc: Global,
        heap: &Heap<'_>,
        marker: &M,
    ) -> Option<Vec<[u32; PIECE]>>
        requires marker { M.may_start }
        requires seen { AreSeen heap.now self.now.live.items self.now.begins self.now.well_formed }
        ensures ok { IfSome result (λ _. first_object_fault (with_live heap.now self.now.live.items) ≡ None) }
        ensures sizes { IfSome result (λ sizes. AreSizes (with_live heap.now self.now.live.items) sizes.items) }
    {
        let live = self.live.as_slice();
        if self.well_formed {
            return sizes_if_sound(alloc, heap, live, None, marker);
        }
        sizes_if_sound(alloc, heap, live, Some(&self.begins), marker)
    }
}
