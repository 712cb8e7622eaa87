//! The objects that roots reach.
ghost use Rattle.std.specs.Prelude.{◌≡◌, true, false, ◌<◌, ◌≤◌, ◌^◌, ◌++◌, [], ℕ, List, All, length, map, IfOk, IfErr, OnOk};
ghost use Rattle.object_heap.specs.HeapImage.{HeapImage, HasSoundHeader, heap_words, is_unsound, reachable, size_at};
ghost use Rattle.object_heap.specs.Reachable.{is_listed};
ghost use Rattle.coded_marking.specs.ListError.{IsTooLarge};
ghost use Rattle.coded_marking.specs.Marking.{AreAmong, references_by};

use crate::coded_heap::CodedHeap;
use crate::list_error::ListError;
use crate::live_objects::{LiveObjects, addresses_below, sizes_of};
use crate::tracing::Tracing;
use crate::unsound::Unsound;
use object_heap::{objects_without_faults, reachable_is_the_least_closed};
use std::alloc::{AllocError, Global};
use std::marker::Model;

/// The number of addresses for which the stack of a marking has room.
const STACK: usize = 16_384;

/// The objects of a heap that are marked so far.
///
/// It has two bits for each word of the heap and a stack of a fixed size. Contracts view it as the list of the marked addresses.
#[derive(Drop)]
pub struct Marking {
    tracing: Tracing,
}

impl Model for Marking {
    ghost use Rattle.coded_marking.specs.Marking.{Marks, set_below};
    ghost use Rattle.coded_marking.specs.Tracing.{IsSteady};

    ghost Value = { Marks };

    ghost view = { λ m. record { words = m.tracing.words; marked = set_below m.tracing.words m.tracing.marked } };

    ghost invariant = { λ m. IsSteady m.tracing };
}

impl Marking {
    /// Nothing is marked of a heap of `words` words, at most 68,719,476,736.
    ///
    /// Takes all memory that marking needs: 2 bits for each word and 128 KiB. Returns an error if memory runs out.
    pub fn new(alloc: Global, words: u64) -> Result<Marking, AllocError>
        requires { words ≤ 68719476736 }
        ensures words { IfOk result (λ marking. marking.words ≡ words) }
        ensures nothing { IfOk result (λ marking. marking.marked ≡ []) }
        ensures reached { IfOk result (λ marking. (image : HeapImage) → heap_words image ≡ words → marking.marked ≡ reachable image []) }
    {
        Marking::with_stack(alloc, words, STACK)
    }

    /// Like [`new`](Marking::new), with a stack of `most` addresses: 8 bytes for each. A smaller one makes marking slower.
    pub fn with_stack(alloc: Global, words: u64, most: usize) -> Result<Marking, AllocError>
        requires few { words ≤ 68719476736 }
        requires some { 0 < most }
        ensures words { IfOk result (λ marking. marking.words ≡ words) }
        ensures nothing { IfOk result (λ marking. marking.marked ≡ []) }
        ensures reached { IfOk result (λ marking. (image : HeapImage) → heap_words image ≡ words → marking.marked ≡ reachable image []) }
    {
        reachable_is_the_least_closed();
        let tracing = Tracing::new(alloc, words, most)?;
        Ok(Marking { tracing })
    }

    /// Marks the objects that these roots reach, words in the host's coding. A root that leads nowhere reaches nothing. What is
    /// marked stays marked.
    ///
    /// Returns the address of a reached object without a sound header. Then only a part of what is reached is marked, and the
    /// marking is good for nothing but to ask what that part is. The heap is never written.
    pub fn mark(&mut self, heap: &CodedHeap<'_>, roots: &[u64]) -> Result<(), Unsound>
        requires { heap_words heap.now ≡ self.old.words }
        ensures words { self.new.words ≡ self.old.words }

        // If the marks were what other roots reach, they are what those and these roots reach.
        ensures reached { OnOk result ((earlier : List ℕ) → self.old.marked ≡ reachable heap.now earlier
            → self.new.marked ≡ reachable heap.now (earlier ++ references_by heap.now roots.now)) }
        ensures sound { OnOk result (All (HasSoundHeader heap.now) self.old.marked → All (HasSoundHeader heap.now) self.new.marked) }

        // Whether all are marked or not, none else is.
        ensures kept { AreAmong self.new.marked self.old.marked }
        ensures within { (earlier : List ℕ) → self.old.marked ≡ reachable heap.now earlier
            → AreAmong (reachable heap.now (earlier ++ references_by heap.now roots.now)) self.new.marked }

        ensures unsound { IfErr result (λ e. is_unsound heap.now e.address ≡ true) }
        ensures met { IfErr result (λ e. is_listed self.new.marked e.address ≡ true) }
    {
        reachable_is_the_least_closed();
        objects_without_faults();
        self.tracing.trace(heap, roots)
    }

    /// The number of words of the heap.
    pub fn words(&self) -> u64
        ensures value { result ≡ self.now.words }
        ensures few { result ≤ 68719476736 }
    {
        self.tracing.words
    }

    /// Whether the object at this address is marked. Outside the heap none is.
    #[inline]
    pub fn is_reached(&self, address: u64) -> bool
        ensures value { result ≡ is_listed self.now.marked address }
        ensures outside { self.now.words ≤ address → result ≡ false }
    {
        self.tracing.marked.contains(address)
    }

    /// The number of marked objects.
    pub fn count(&self) -> u64
        ensures { result ≡ length self.now.marked }
    {
        self.tracing.marked.count(0, self.tracing.words)
    }

    /// The marked objects, with their sizes by their headers.
    ///
    /// Returns an error if memory runs out, or if an object has 2^32 words or more.
    pub fn live(&self, alloc: Global, heap: &CodedHeap<'_>) -> Result<LiveObjects, ListError>
        requires { heap_words heap.now ≡ self.now.words }
        ensures addresses { IfOk result (λ live. live.addresses.items ≡ self.now.marked) }
        ensures sizes { IfOk result (λ live. live.sizes.items ≡ map (size_at heap.now) self.now.marked) }
        ensures too_large { IfErr result (IsTooLarge heap.now self.now.marked) }
    {
        let addresses = addresses_below(alloc, &self.tracing.marked, self.tracing.words)?;
        let sizes = sizes_of(alloc, heap, addresses.as_slice())?;
        Ok(LiveObjects { addresses, sizes })
    }
}
