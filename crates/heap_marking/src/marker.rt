//! Marking, listing and checking in one thread or in several, for code that serves both.
ghost use Rattle.std.specs.Prelude.{◌≡◌, ◌<◌, ◌≤◌, ◌*◌, ◌^◌, ℕ, [], All, IfOk, IsTrue, length, slice_index_or};
ghost use Rattle.object_heap.specs.HeapImage.{heap_words, with_live};
ghost use Rattle.object_heap.specs.Bits.{addresses_of};
ghost use Rattle.heap_marking.specs.Marking.{AreReached, AreReachedWell};
ghost use Rattle.heap_marking.specs.Soundness.{AreNoted, AreBeginsOrWellFormed};

use crate::live_list::{list_in_threads, marked_addresses};
use crate::marking::{Marked, mark, mark_in_threads};
use crate::references::mark_references;
use crate::soundness::{PIECE, note_sizes};
use object_heap::{Bits, Heap};
use std::alloc::{AllocError, Global};
use std::thread::Threads;
use thread_row::{Alone, Hands, Many, for_each_mut, for_each_mut_alone};

/// The least number of pieces that are worth a thread.
const LEAST_PIECES: usize = 16;

/// The threads that mark, list what is marked, and check the live objects.
pub trait Marker: Hands {
    /// Marks the addresses of a heap that are reachable from the roots.
    fn mark(&self, alloc: Global, heap: &Heap<'_>, roots: &[u64]) -> Result<Marked, AllocError>
        requires { Self.may_start }
        ensures reached { IfOk result (λ marked. AreReached heap.now roots.now marked.bits) }
        ensures well_formed { IfOk result
            (λ marked. IsTrue marked.well_formed → AreReachedWell heap.now roots.now) };

    /// The marked addresses, ascending.
    fn list(&self, alloc: Global, bits: &Bits) -> Result<Vec<u64>, AllocError>
        requires start { Self.may_start }
        requires few { length bits.now < 2 ^ 58 }
        ensures { IfOk result (λ live. live.items ≡ addresses_of bits.now) };

    /// The size of each sound live object, in pieces of 64, and 0 for each unsound one. `begins` marks the
    /// live addresses, or is `None` if the objects are known to be well-formed.
    fn note_sizes(
        &self,
        alloc: Global,
        heap: &Heap<'_>,
        live: &[u64],
        begins: Option<&Bits>,
    ) -> Result<Vec<[u32; PIECE]>, AllocError>
        requires start { Self.may_start }
        requires inside { All (λ a. a < heap_words heap.now) live.now }
        requires begins { AreBeginsOrWellFormed (with_live heap.now live.now) begins }
        ensures room { IfOk result (λ sizes. length live.now ≤ 64 * length sizes.items) }
        ensures noted { IfOk result (λ sizes. (p : ℕ) → p < length sizes.items
            → AreNoted (with_live heap.now live.now) p (slice_index_or sizes.items p [])) };
}

impl Marker for Alone {
    fn mark(&self, alloc: Global, heap: &Heap<'_>, roots: &[u64]) -> Result<Marked, AllocError> {
        mark(alloc, heap, roots)
    }

    fn list(&self, alloc: Global, bits: &Bits) -> Result<Vec<u64>, AllocError> {
        marked_addresses(alloc, bits)
    }

    fn note_sizes(
        &self,
        alloc: Global,
        heap: &Heap<'_>,
        live: &[u64],
        begins: Option<&Bits>,
    ) -> Result<Vec<[u32; PIECE]>, AllocError> {
        let references = mark_references(alloc, begins)?;
        let marked = references.as_ref().map(Bits::words);
        let mut sizes = vec![in alloc; [0u32; PIECE]; live.len().div_ceil(PIECE)]?;
        let note = |piece: usize, sizes: &mut [u32; PIECE]| {
            note_sizes(heap, live, marked, piece, sizes)
        };
        for_each_mut_alone(sizes.as_mut_slice(), &note);
        Ok(sizes)
    }
}

impl<T: Threads + Sync> Marker for Many<'_, T> {
    fn mark(&self, alloc: Global, heap: &Heap<'_>, roots: &[u64]) -> Result<Marked, AllocError> {
        mark_in_threads(alloc, heap, roots, self)
    }

    fn list(&self, alloc: Global, bits: &Bits) -> Result<Vec<u64>, AllocError> {
        list_in_threads(alloc, bits, self)
    }

    fn note_sizes(
        &self,
        alloc: Global,
        heap: &Heap<'_>,
        live: &[u64],
        begins: Option<&Bits>,
    ) -> Result<Vec<[u32; PIECE]>, AllocError> {
        let references = mark_references(alloc, begins)?;
        let marked = references.as_ref().map(Bits::words);
        let mut sizes = vec![in alloc; [0u32; PIECE]; live.len().div_ceil(PIECE)]?;
        let count = self.most.min(sizes.len() / LEAST_PIECES).max(1);
        let note = |piece: usize, sizes: &mut [u32; PIECE]| {
            note_sizes(heap, live, marked, piece, sizes)
        };
        for_each_mut(self.threads, sizes.as_mut_slice(), count, &note);
        Ok(sizes)
    }
}
