//! Follows references from what is marked until all that they reach is.
ghost use Rattle.std.specs.Prelude.{◌≡◌, false, true, ◌<◌, ◌≤◌, ◌+◌, ◌*◌, [], ℕ, Bool, List, length, take, IfOk, IfErr, OnOk, OnErr};
ghost use Rattle.object_heap.specs.Bits.{has};
ghost use Rattle.object_heap.specs.HeapImage.{heap_words, is_unsound, leads_to, refers_to};
ghost use Rattle.coded_marking.specs.Tracing.{IsSteady, Pushes, PushesWord, Grows, Follows, Stops, IsUnderway, GoesOn, KeepsFollowed, KeepsStacked, IsEmptied, GetsOn, IsUnsoundThere, IsFetched, AreFetched, AreFollowed, Takes, absent, leads_any};

use crate::coded_heap::CodedHeap;
use crate::unsound::Unsound;
use crate::waiting::Waiting;
use object_heap::Bits;
use std::alloc::{AllocError, Global};

/// The number of headers that are read before the first of them is used, so that their cache misses overlap.
const BATCH: usize = 64;

/// The addresses that are marked so far, and those among them whose references are still to be followed.
///
/// An address is pushed on the stack only when it becomes marked, if there is room. Otherwise the bits are searched for it
/// later.
#[derive(Drop)]
pub(crate) struct Tracing {
    /// The number of words of the heap.
    pub(crate) words: u64,
    /// The marked addresses.
    pub(crate) marked: Bits,
    /// The addresses whose references were followed.
    followed: Bits,
    /// Addresses that were not followed. It never grows beyond its first capacity.
    stack: Vec<u64>,
    /// Whether each marked address that was not followed is on the stack.
    complete: bool,
}

impl Tracing {
    /// Nothing is marked. The stack has room for `most` addresses.
    pub(crate) fn new(alloc: Global, words: u64, most: usize) -> Result<Tracing, AllocError>
        requires few { words ≤ 68719476736 }
        requires some { 0 < most }
        ensures steady { IfOk result IsSteady }
        ensures words { IfOk result (λ t. t.words ≡ words) }
        ensures clear { IfOk result (λ t. (a : ℕ) → has t.marked a ≡ false) }
    {
        Ok(Tracing {
            words,
            marked: Bits::new(alloc, words)?,
            followed: Bits::new(alloc, words)?,
            stack: Vec::with_capacity(alloc, most)?,
            complete: true,
        })
    }

    /// Marks what these words as roots reach. Stops at an object without a sound header, with part of it marked.
    pub(crate) fn trace(&mut self, heap: &CodedHeap<'_>, roots: &[u64]) -> Result<(), Unsound>
        requires steady { IsSteady self.old }
        requires words { self.old.words ≡ heap_words heap.now }
        ensures steady { IsSteady self.new }
        ensures words { self.new.words ≡ self.old.words }
        ensures underway { IsUnderway heap.now roots.now (has self.old.marked) (heap_words heap.now) [] self.new }
        ensures complete { OnOk result (self.new.complete ≡ true) }
        ensures empty { OnOk result (self.new.stack.items ≡ []) }
        ensures unsound { IfErr result (λ e. IsUnsoundThere heap.now self.new e.address) }
    {
        self.visit_all(heap, roots);
        self.finish(heap)
    }

    /// Follows what waits until nothing does.
    fn finish(&mut self, heap: &CodedHeap<'_>) -> Result<(), Unsound>
        requires steady { IsSteady self.old }
        requires words { self.old.words ≡ heap_words heap.now }
        ensures steady { IsSteady self.new }
        ensures words { self.new.words ≡ self.old.words }
        ensures goes_on { (roots : List ℕ) (before : ℕ → Bool) → IsUnderway heap.now roots before (heap_words heap.now) [] self.old
            → IsUnderway heap.now roots before (heap_words heap.now) [] self.new }
        ensures complete { OnOk result (self.new.complete ≡ true) }
        ensures empty { OnOk result (self.new.stack.items ≡ []) }
        ensures unsound { IfErr result (λ e. IsUnsoundThere heap.now self.new e.address) }
    {
        self.drain(heap)?;
        while !self.complete {
            self.sweep(heap)?;
        }
        Ok(())
    }

    /// Follows all marked addresses that were not followed, each found by its bits.
    fn sweep(&mut self, heap: &CodedHeap<'_>) -> Result<(), Unsound>
        requires steady { IsSteady self.old }
        requires words { self.old.words ≡ heap_words heap.now }
        requires empty { self.old.stack.items ≡ [] }
        ensures steady { IsSteady self.new }
        ensures words { self.new.words ≡ self.old.words }
        ensures goes_on { (roots : List ℕ) (before : ℕ → Bool) → IsUnderway heap.now roots before (heap_words heap.now) [] self.old
            → IsUnderway heap.now roots before (heap_words heap.now) [] self.new }
        ensures keeps { KeepsFollowed self.old self.new }
        ensures gets_on { OnOk result (GetsOn self.old self.new) }
        ensures empty { OnOk result (self.new.stack.items ≡ []) }
        ensures unsound { IfErr result (λ e. IsUnsoundThere heap.now self.new e.address) }
    {
        self.complete = true;
        for i in 0..self.marked.words().len() {
            self.follow_word(heap, i)?;
        }
        Ok(())
    }

    /// Follows the marked addresses of the word of bits with index `i` that were not followed, and what becomes marked.
    fn follow_word(&mut self, heap: &CodedHeap<'_>, i: usize) -> Result<(), Unsound>
        requires steady { IsSteady self.old }
        requires words { self.old.words ≡ heap_words heap.now }
        requires empty { self.old.stack.items ≡ [] }
        requires inside { i < length self.old.marked }
        ensures steady { IsSteady self.new }
        ensures words { self.new.words ≡ self.old.words }
        ensures goes_on { (roots : List ℕ) (before : ℕ → Bool) → IsUnderway heap.now roots before (64 * i) [] self.old
            → IsUnderway heap.now roots before (64 * (i + 1)) [] self.new }
        ensures keeps { KeepsFollowed self.old self.new }
        ensures gets_on { self.old.complete ≡ true → OnOk result (GetsOn self.old self.new) }
        ensures empty { OnOk result (self.new.stack.items ≡ []) }
        ensures incomplete { OnErr result (self.new.complete ≡ false) }
        ensures unsound { IfErr result (λ e. IsUnsoundThere heap.now self.new e.address) }
    {
        if self.marked.word(i) == self.followed.word(i) {
            return Ok(());
        }
        self.push_word(i);
        self.drain(heap)
    }

    /// Pushes the marked addresses of the word of bits with index `i` that were not followed.
    fn push_word(&mut self, i: usize)
        requires steady { IsSteady self.old }
        requires inside { i < length self.old.marked }
        ensures steady { IsSteady self.new }
        ensures pushes { PushesWord i self.old self.new }
    {
        let first = 64 * i as u64;
        for a in first..first + 64 {
            if self.marked.has(a) && !self.followed.has(a) {
                self.push(a);
            }
        }
    }

    /// Follows the addresses on the stack until it is empty.
    fn drain(&mut self, heap: &CodedHeap<'_>) -> Result<(), Unsound>
        requires steady { IsSteady self.old }
        requires words { self.old.words ≡ heap_words heap.now }
        ensures steady { IsSteady self.new }
        ensures words { self.new.words ≡ self.old.words }
        ensures goes_on { GoesOn heap.now self.old self.new }
        ensures keeps { KeepsFollowed self.old self.new }
        ensures emptied { OnOk result (IsEmptied self.old self.new) }
        ensures idle { self.old.stack.items ≡ [] → self.new.complete ≡ self.old.complete }
        ensures empty { OnOk result (self.new.stack.items ≡ []) }
        ensures incomplete { OnErr result (self.new.complete ≡ false) }
        ensures unsound { IfErr result (λ e. IsUnsoundThere heap.now self.new e.address) }
    {
        let mut batch = [Waiting {
            address: 0,
            header: 0,
        }; BATCH];
        while !self.stack.is_empty() {
            let count = self.take_batch(heap, &mut batch);
            self.follow_batch(heap, &batch[..count])?;
        }
        Ok(())
    }

    /// Pops addresses from the stack and reads their headers, as many as there is room for. Returns their number.
    fn take_batch(&mut self, heap: &CodedHeap<'_>, batch: &mut [Waiting]) -> usize
        requires steady { IsSteady self.old }
        requires words { self.old.words ≡ heap_words heap.now }
        ensures steady { IsSteady self.new }
        ensures inside { result ≤ length batch.new }
        ensures takes { Takes heap.now self.old self.new (take result batch.new) }
        ensures some { 0 < length batch.old → 0 < length self.old.stack.items → 0 < result }
    {
        let mut count = 0;
        while count < batch.len() {
            let Some(address) = self.stack.pop() else {
                return count;
            };
            let header = heap.word(address);
            batch[count] = Waiting { address, header };
            count += 1;
        }
        count
    }

    /// Follows these objects.
    fn follow_batch(&mut self, heap: &CodedHeap<'_>, batch: &[Waiting]) -> Result<(), Unsound>
        requires steady { IsSteady self.old }
        requires words { self.old.words ≡ heap_words heap.now }
        requires fetched { AreFetched heap.now self.old batch.now }
        ensures steady { IsSteady self.new }
        ensures words { self.new.words ≡ self.old.words }
        ensures goes_on { (roots : List ℕ) (before : ℕ → Bool) (limit : ℕ) → IsUnderway heap.now roots before limit batch.now self.old
            → IsUnderway heap.now roots before limit [] self.new }
        ensures keeps { KeepsFollowed self.old self.new }
        ensures followed { OnOk result (AreFollowed batch.now self.new) }
        ensures stacked { OnOk result (KeepsStacked self.old self.new) }
        ensures total { OnOk result (length self.new.stack.items + absent self.new.words self.new.marked
            ≤ length self.old.stack.items + absent self.old.words self.old.marked) }
        ensures incomplete { OnErr result (self.new.complete ≡ false) }
        ensures unsound { IfErr result (λ e. IsUnsoundThere heap.now self.new e.address) }
    {
        for object in batch {
            self.follow(heap, *object)?;
        }
        Ok(())
    }

    /// Visits the targets of the references of a marked object.
    fn follow(&mut self, heap: &CodedHeap<'_>, object: Waiting) -> Result<(), Unsound>
        requires steady { IsSteady self.old }
        requires words { self.old.words ≡ heap_words heap.now }
        requires fetched { IsFetched heap.now self.old object }
        ensures steady { IsSteady self.new }
        ensures growth { OnOk result (Grows (refers_to heap.now object.address) self.old self.new) }
        ensures followed { OnOk result (Follows object.address self.old self.new) }
        ensures sound { OnOk result (is_unsound heap.now object.address ≡ false) }
        ensures stops { OnErr result (Stops self.old self.new) }
        ensures unsound { IfErr result (λ e. (e.address ≡ object.address) × (is_unsound heap.now object.address ≡ true)) }
    {
        let Waiting { address, header } = object;
        if heap.is_unsound(header, address) {
            self.complete = false;
            return Err(Unsound { address });
        }
        self.followed.insert(address);
        self.visit_all(heap, heap.referring(header, address));
        Ok(())
    }

    /// Visits the targets of these words.
    fn visit_all(&mut self, heap: &CodedHeap<'_>, words: &[u64])
        requires steady { IsSteady self.old }
        requires words { self.old.words ≡ heap_words heap.now }
        ensures steady { IsSteady self.new }
        ensures growth { Grows (leads_any heap.now.layout words.now) self.old self.new }
        ensures followed { self.new.followed ≡ self.old.followed }
    {
        for word in words {
            self.visit(heap.reference(*word));
        }
    }

    /// Marks the target of a reference, and pushes it, unless it is marked already.
    #[inline]
    fn visit(&mut self, reference: u64)
        requires steady { IsSteady self.old }
        requires inside { reference ≤ self.old.words }
        ensures steady { IsSteady self.new }
        ensures growth { Grows (leads_to reference) self.old self.new }
        ensures followed { self.new.followed ≡ self.old.followed }
    {
        if reference == 0 {
            return;
        }
        let a = reference - 1;
        if self.marked.has(a) {
            return;
        }
        self.marked.insert(a);
        self.push(a);
    }

    /// Pushes a marked address, or notes that the stack isn't complete.
    #[inline]
    fn push(&mut self, a: u64)
        requires steady { IsSteady self.old }
        requires marked { has self.old.marked a ≡ true }
        ensures steady { IsSteady self.new }
        ensures pushes { Pushes a self.old self.new }
    {
        if self.stack.len() == self.stack.capacity() {
            self.complete = false;
            return;
        }
        self.stack.push_reserved(a);
    }
}
