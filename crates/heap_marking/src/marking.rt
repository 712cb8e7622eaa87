//! Marks the addresses that are reachable from roots, with an explicit stack.
//!
//! Several threads mark in rounds, each in parts of the heap of its own. Where rounds don't pay any more, one thread goes
//! on from the marks so far.
ghost use Rattle.std.specs.Prelude.{◌≡◌, ◌<◌, ◌≤◌, ◌/◌, ℕ, List, [], All, length, IfOk, OnOk, IsTrue};
ghost use Rattle.object_heap.specs.HeapImage.{heap_words, word_at, leads_to, refers_to};
ghost use Rattle.heap_marking.specs.Marking.{AreFetched, AreReached, AreReachedWell, AreStacked, GoesOn, Grows, HasRoom, IsBatchFollowed, IsBatchTaken, IsFinished, IsReadyBatch, IsUnderway, IsWellFormed, Notes, leads_any, waiting_addresses};

mod boxes;
mod finish;
mod part;
mod rounds;
mod start;

use object_heap::header::{self, is_unsound};
use object_heap::{Bits, Heap, reachable_is_the_least_closed};
use rounds::Rounds;
use start::part_log;
use std::alloc::{AllocError, Global};
use std::thread::Threads;
use thread_row::Many;

/// The least number of words of a heap that is worth more than one thread.
const LEAST_WORDS: u64 = 1 << 19;

/// The number of headers that are fetched before the first of them is used, so that their cache misses overlap.
const BATCH: usize = 64;

/// A marked object whose references are still to be followed.
#[derive(Clone, Copy)]
pub(crate) struct Waiting {
    pub(crate) address: u64,
    /// The word at this address.
    pub(crate) header: u64,
}

/// The addresses that are marked so far, and those among them whose references are still to be followed.
///
/// An address is pushed on the stack only when it becomes marked. The stack grows as needed.
#[derive(Drop)]
pub(crate) struct Marking {
    /// The number of words of the heap.
    words: u64,
    /// The marked addresses.
    bits: Bits,
    stack: Vec<u64>,
    /// Whether each object followed so far has a sound header, and no reference out of the heap.
    well_formed: bool,
}

/// The result of marking.
#[derive(Drop)]
pub struct Marked {
    /// The reachable addresses.
    pub bits: Bits,
    /// Whether each object there has a sound header, and no reference out of the heap.
    pub well_formed: bool,
}

/// Marks the addresses of a heap that are reachable from the roots, in the caller's thread.
pub(crate) fn mark(alloc: Global, heap: &Heap<'_>, roots: &[u64]) -> Result<Marked, AllocError>
    ensures reached { IfOk result (λ marked. AreReached heap.now roots.now marked.bits) }
    ensures well_formed { IfOk result
        (λ marked. IsTrue marked.well_formed → AreReachedWell heap.now roots.now) }
{
    reachable_is_the_least_closed();
    let words = heap.len();
    let mut marking = Marking {
        words,
        bits: Bits::new(alloc, words)?,
        stack: Vec::new(alloc),
        well_formed: true,
    };
    marking.visit_all(roots)?;
    marking.finish(alloc, heap)
}

/// Like [`mark`], in several threads if the heap is large. The result does not depend on their number.
pub(crate) fn mark_in_threads<T: Threads + Sync>(
    alloc: Global,
    heap: &Heap<'_>,
    roots: &[u64],
    many: &Many<'_, T>,
) -> Result<Marked, AllocError>
    ensures reached { IfOk result (λ marked. AreReached heap.now roots.now marked.bits) }
    ensures well_formed { IfOk result
        (λ marked. IsTrue marked.well_formed → AreReachedWell heap.now roots.now) }
{
    if many.most < 2 || heap.len() < LEAST_WORDS {
        return mark(alloc, heap, roots);
    }
    let marking = mark_in_rounds(alloc, heap, roots, many)?;
    marking.finish(alloc, heap)
}

/// Marks in rounds as long as they pay. One thread can go on from the result.
fn mark_in_rounds<T: Threads + Sync>(
    alloc: Global,
    heap: &Heap<'_>,
    roots: &[u64],
    many: &Many<'_, T>,
) -> Result<Marking, AllocError>
    requires some { 0 < heap_words heap.now }
    ensures { IfOk result (IsUnderway heap.now roots.now) }
{
    let mut rounds = Rounds::new(alloc, heap, part_log(heap.len()), roots)?;
    rounds.run(alloc, heap, many)?;
    rounds.marking(alloc, heap)
}

impl Marking {
    /// Marks what is still to be marked, in one thread.
    fn finish(self, alloc: Global, heap: &Heap<'_>) -> Result<Marked, AllocError>
        requires { (roots : List ℕ) × IsUnderway heap.now roots self }
        ensures { (roots : List ℕ) → IsUnderway heap.now roots self → IfOk result (IsFinished heap.now roots) }
    {
        reachable_is_the_least_closed();
        let mut marking = self;
        let mut batch = Vec::with_capacity(alloc, BATCH)?;
        marking.follow_all(heap, &mut batch)?;
        Ok(Marked {
            bits: marking.bits,
            well_formed: marking.well_formed,
        })
    }

    /// Follows the objects on the stack until it is empty.
    fn follow_all(&mut self, heap: &Heap<'_>, batch: &mut Vec<Waiting>) -> Result<(), AllocError>
        requires marking { (roots : List ℕ) × IsUnderway heap.now roots self.old }
        requires batch { IsReadyBatch batch.old }
        ensures { OnOk result (GoesOn heap.now self.old self.old.stack.items self.new []) }
    {
        while !self.stack.is_empty() {
            self.take_batch(heap, batch);
            self.follow_batch(heap, batch)?;
        }
        Ok(())
    }

    /// Visits the targets of these references (the roots, or some references of an object), and notes whether one leads
    /// out of the heap.
    fn visit_all(&mut self, references: &[u64]) -> Result<(), AllocError>
        requires { HasRoom self.old }
        ensures growth { OnOk result (Grows (leads_any references.now) self.old self.new) }
        ensures well_formed { OnOk result (Notes self.old.well_formed self.new.well_formed (All (λ w. w ≤ self.old.words) references.now)) }
    {
        let mut inside = true;
        for reference in references {
            inside &= *reference <= self.words;
            self.visit(*reference)?;
        }
        self.well_formed &= inside;
        Ok(())
    }

    /// Pops up to 64 addresses from the stack and fetches their headers.
    fn take_batch(&mut self, heap: &Heap<'_>, batch: &mut Vec<Waiting>)
        requires words { self.old.words ≡ heap_words heap.now }
        requires inside { AreStacked self.old.words self.old.bits self.old.stack.items }
        requires batch { IsReadyBatch batch.old }
        ensures { IsBatchTaken heap.now self.old self.new batch.old batch.new }
    {
        while batch.len() < BATCH {
            let Some(address) = self.stack.pop() else {
                return;
            };
            let header = heap.word(address);
            batch.push_reserved(Waiting { address, header });
        }
    }

    /// Follows the objects of a batch, and leaves it empty.
    fn follow_batch(&mut self, heap: &Heap<'_>, batch: &mut Vec<Waiting>) -> Result<(), AllocError>
        requires words { self.old.words ≡ heap_words heap.now }
        requires bits { self.old.words / 64 < length self.old.bits }
        requires inside { All (λ a. a < self.old.words) (waiting_addresses batch.old.items) }
        requires fetched { AreFetched heap.now batch.old.items }
        ensures { OnOk result (IsBatchFollowed heap.now self.old self.new batch.old batch.new) }
    {
        reachable_is_the_least_closed();
        while let Some(object) = batch.pop() {
            self.follow(heap, object)?;
        }
        Ok(())
    }

    /// Visits the targets of an object's references, if its header is sound, and notes whether the object is
    /// well-formed.
    fn follow(&mut self, heap: &Heap<'_>, object: Waiting) -> Result<(), AllocError>
        requires words { self.old.words ≡ heap_words heap.now }
        requires inside { object.address < self.old.words }
        requires header { object.header ≡ word_at heap.now object.address }
        requires bits { self.old.words / 64 < length self.old.bits }
        ensures growth { OnOk result (Grows (refers_to heap.now object.address) self.old self.new) }
        ensures well_formed { OnOk result (Notes self.old.well_formed self.new.well_formed (IsWellFormed heap.now object.address)) }
    {
        heap.own();
        if is_unsound(object.header, object.address, heap.len()) {
            self.well_formed = false;
            return Ok(());
        }
        let mut next = object.address + 1;
        let end = next + u64::from(header::references(object.header));
        while next < end {
            let row = heap.row(next, end);
            self.visit_all(row)?;
            next += row.len() as u64;
        }
        Ok(())
    }

    /// Marks the target of a reference and pushes it on the stack, unless it is marked already or outside the heap.
    #[inline]
    fn visit(&mut self, reference: u64) -> Result<(), AllocError>
        requires { HasRoom self.old }
        ensures growth { OnOk result (Grows (leads_to reference) self.old self.new) }
        ensures well_formed { OnOk result (self.new.well_formed ≡ self.old.well_formed) }
    {
        if reference == 0 || reference > self.words {
            return Ok(());
        }
        let a = reference - 1;
        if self.bits.has(a) {
            return Ok(());
        }
        self.bits.insert(a);
        self.stack.push(a)?;
        Ok(())
    }
}
