//! The marks of one part of a heap.
ghost use Rattle.std.specs.Prelude.{◌≡◌, ℕ, ◌+◌, ◌*◌, ◌/◌, ◌^◌, ◌<◌, ◌≤◌, ◌⊎◌, ◌&&◌, [], All, ◌++◌, take, Contains, IfOk, OnOk, IsTrue, length};
ghost use Rattle.std.specs.Vec.{vec_capacity};
ghost use Rattle.object_heap.specs.HeapImage.{heap_words, word_at, leads_to, refers_to};
ghost use Rattle.heap_marking.specs.Boxes.{arrives};
ghost use Rattle.heap_marking.specs.Marking.{AreFetched, IsReadyBatch, IsWellFormed, Notes, leads_any, waiting_addresses};
ghost use Rattle.heap_marking.specs.Rounds.{IsNew};
ghost use Rattle.heap_marking.specs.Spread.{IsIn, is_in, IsPart, IsReady, IsSpread, IsTaken, AreWaiting, AreWaitingIn, AreRows, IsBatchTaken, IsBatchFollowed, IsRoundOf, RunsOn};

use super::boxes::Boxes;
use super::{BATCH, Waiting};
use object_heap::header::{self, is_unsound};
use object_heap::{Bits, Heap};
use std::alloc::{AllocError, Global};

/// The part of its addresses that a part may send as references in a round before it stops: one of 64.
const SENT_LOG: u32 = 6;

/// What is marked in one part of a heap, and what goes from there to the other parts.
///
/// The parts of a heap lie in a row and have `2 ^ log` addresses each.
#[derive(Drop)]
pub(crate) struct Part {
    /// The first address.
    pub(crate) first: u64,
    /// A bit for each address of the part, from the first on: whether it is marked.
    pub(crate) bits: Bits,
    /// The marked addresses whose references are still to be followed.
    pub(crate) stack: Vec<u64>,
    /// The references to other parts.
    pub(crate) out: Boxes,
    /// Whether each object followed so far has a sound header, and no reference out of the heap.
    pub(crate) well_formed: bool,
    /// The number of batches of the last round. No contract depends on it.
    pub(crate) work: u64,
    /// Whether memory ran out.
    pub(crate) failed: bool,
}

impl Part {
    /// The part that begins at this address, with nothing marked, beside this number of parts in all.
    pub(crate) fn new(alloc: Global, log: u32, first: u64, parts: usize) -> Result<Part, AllocError>
        requires { log ≤ 30 }
        ensures { IfOk result (IsNew log first parts) }
    {
        Ok(Part {
            first,
            bits: Bits::new(alloc, part_size(log))?,
            stack: Vec::new(alloc),
            out: Boxes::new(alloc, parts)?,
            well_formed: true,
            work: u64::MAX,
            failed: false,
        })
    }

    /// The index of the part.
    fn number(&self, log: u32) -> usize
        requires { log ≤ 30 }
        ensures { result ≡ self.now.first / 2 ^ log }
    {
        (self.first >> log) as usize
    }

    /// Marks an address of the part and pushes it on the stack, unless it is marked already.
    #[inline]
    fn mark(&mut self, log: u32, a: u64) -> Result<(), AllocError>
        requires inside { IsIn log self.old a }
        requires bits { 2 ^ log < 64 * length self.old.bits }
        ensures { OnOk result ((words : ℕ) → a < words → IsTaken log words (leads_to (a + 1)) self.old self.new) }
    {
        let i = a - self.first;
        if self.bits.has(i) {
            return Ok(());
        }
        self.bits.insert(i);
        self.stack.push(a)?;
        Ok(())
    }

    /// Marks the target of a reference, or sends the reference to the part of its target.
    #[inline]
    fn visit(&mut self, words: u64, log: u32, reference: u64) -> Result<(), AllocError>
        requires { IsPart log words self.old }
        ensures spread { OnOk result (IsSpread log words (leads_to reference) self.old self.new) }
        ensures well_formed { OnOk result (self.new.well_formed ≡ self.old.well_formed) }
    {
        if reference == 0 || reference > words {
            return Ok(());
        }
        let a = reference - 1;
        if a >= self.first && a - self.first < part_size(log) {
            return self.mark(log, a);
        }
        self.out.send((a >> log) as usize, reference)
    }

    /// Visits the targets of some references of an object, and notes whether one leads out of the heap.
    fn visit_all(&mut self, words: u64, log: u32, references: &[u64]) -> Result<(), AllocError>
        requires { IsPart log words self.old }
        ensures spread { OnOk result (IsSpread log words (leads_any references.now) self.old self.new) }
        ensures well_formed { OnOk result (Notes self.old.well_formed self.new.well_formed (All (λ w. w ≤ words) references.now)) }
    {
        let mut inside = true;
        for reference in references {
            inside &= *reference <= words;
            self.visit(words, log, *reference)?;
        }
        self.well_formed &= inside;
        Ok(())
    }

    /// Visits the targets of an object's references, if its header is sound, and notes whether the object is
    /// well-formed.
    fn follow(&mut self, heap: &Heap<'_>, log: u32, object: Waiting) -> Result<(), AllocError>
        requires part { IsPart log (heap_words heap.now) self.old }
        requires inside { object.address < heap_words heap.now }
        requires header { object.header ≡ word_at heap.now object.address }
        ensures spread { OnOk result (IsSpread log (heap_words heap.now) (refers_to heap.now object.address) self.old self.new) }
        ensures well_formed { OnOk result (Notes self.old.well_formed self.new.well_formed (IsWellFormed heap.now object.address)) }
    {
        let words = heap.len();
        heap.own();
        if is_unsound(object.header, object.address, words) {
            self.well_formed = false;
            return Ok(());
        }
        let mut next = object.address + 1;
        let end = next + u64::from(header::references(object.header));
        while next < end {
            let row = heap.row(next, end);
            self.visit_all(words, log, row)?;
            next += row.len() as u64;
        }
        Ok(())
    }

    /// Marks the target of a reference, if it is one of the part's.
    #[inline]
    fn take(&mut self, words: u64, log: u32, reference: u64) -> Result<(), AllocError>
        requires { IsPart log words self.old }
        ensures { OnOk result (IsTaken log words (λ b. leads_to reference b && is_in log self.old b) self.old self.new) }
    {
        if reference == 0 || reference > words {
            return Ok(());
        }
        let a = reference - 1;
        if a < self.first || a - self.first >= part_size(log) {
            return Ok(());
        }
        self.mark(log, a)
    }

    /// Marks the targets of these references, as far as they are the part's.
    fn take_box(&mut self, words: u64, log: u32, references: &[u64]) -> Result<(), AllocError>
        requires { IsPart log words self.old }
        ensures { OnOk result (IsTaken log words (λ b. leads_any references.now b && is_in log self.old b) self.old self.new) }
    {
        for reference in references {
            self.take(words, log, *reference)?;
        }
        Ok(())
    }

    /// Marks the targets of what these rows of boxes have for the part.
    fn take_all(&mut self, words: u64, log: u32, sent: &[Boxes]) -> Result<(), AllocError>
        requires part { IsPart log words self.old }
        requires sent { AreRows log words sent.now }
        ensures { OnOk result (IsTaken log words
            (λ b. arrives sent.now (self.old.first / 2 ^ log) b && is_in log self.old b) self.old self.new) }
    {
        let number = self.number(log);
        for boxes in sent {
            self.take_box(words, log, boxes.get(number))?;
        }
        Ok(())
    }

    /// Pops up to 64 addresses from the stack and fetches their headers.
    fn take_batch(&mut self, heap: &Heap<'_>, batch: &mut Vec<Waiting>)
        requires inside { (a : ℕ) → Contains self.old.stack.items a → a < heap_words heap.now }
        requires batch { IsReadyBatch batch.old }
        ensures { IsBatchTaken heap.now self.old self.new batch.old batch.new }
    {
        let from = self.stack.len() - self.stack.len().min(BATCH);
        fetch(heap, &self.stack[from..], batch);
        self.stack.truncate(from);
    }

    /// Follows the objects of a batch, and leaves it empty.
    fn follow_batch(
        &mut self,
        heap: &Heap<'_>,
        log: u32,
        batch: &mut Vec<Waiting>,
    ) -> Result<(), AllocError>
        requires part { IsPart log (heap_words heap.now) self.old }
        requires inside { AreWaitingIn log (heap_words heap.now) self.old (self.old.stack.items ++ waiting_addresses batch.old.items) }
        requires fetched { AreFetched heap.now batch.old.items }
        ensures { OnOk result (IsBatchFollowed log heap.now self.old self.new batch.old batch.new) }
    {
        while let Some(object) = batch.pop() {
            self.follow(heap, log, object)?;
        }
        Ok(())
    }

    /// Follows the objects on the stack until it is empty or the part has sent its share of references. Returns the
    /// number of batches.
    fn follow_all(
        &mut self,
        heap: &Heap<'_>,
        log: u32,
        batch: &mut Vec<Waiting>,
    ) -> Result<u64, AllocError>
        requires part { IsPart log (heap_words heap.now) self.old }
        requires inside { AreWaiting log (heap_words heap.now) self.old }
        requires batch { IsReadyBatch batch.old }
        ensures { OnOk result (RunsOn log heap.now self.old self.old.stack.items self.new) }
    {
        let mut work: u64 = 0;
        while !self.stack.is_empty() {
            if self.is_full(log) {
                return Ok(work);
            }
            self.take_batch(heap, batch);
            self.follow_batch(heap, log, batch)?;
            work = work.wrapping_add(1);
        }
        Ok(work)
    }

    /// Whether the part has sent its share of references.
    fn is_full(&self, log: u32) -> bool
        requires { log ≤ 30 }
    {
        self.out.load() as u64 > part_size(log) >> SENT_LOG
    }

    /// Marks the targets of what these rows of boxes have for the part, and what is reachable from there within the
    /// part. Returns the number of batches.
    fn try_round(
        &mut self,
        alloc: Global,
        heap: &Heap<'_>,
        log: u32,
        sent: &[Boxes],
    ) -> Result<u64, AllocError>
        requires { IsReady log (heap_words heap.now) sent.now self.old }
        ensures { OnOk result (IsRoundOf log heap.now sent.now self.old self.new) }
    {
        let mut batch = Vec::with_capacity(alloc, BATCH)?;
        self.out.clear();
        self.take_all(heap.len(), log, sent)?;
        self.follow_all(heap, log, &mut batch)
    }

    /// Does the work of the part in a round, or notes that memory ran out.
    pub(crate) fn round(&mut self, alloc: Global, heap: &Heap<'_>, log: u32, sent: &[Boxes])
        requires { IsReady log (heap_words heap.now) sent.now self.old }
        ensures { IsTrue self.new.failed ⊎ IsRoundOf log heap.now sent.now self.old self.new }
    {
        match self.try_round(alloc, heap, log, sent) {
            Ok(work) => self.work = work,
            Err(_) => self.failed = true,
        }
    }

    /// Appends the words of the part's bits to those of the parts before it.
    pub(crate) fn append_bits(&self, log: u32, words: &mut Vec<u64>) -> Result<(), AllocError>
        requires { log ≤ 30 }
        ensures { OnOk result (words.new.items ≡ words.old.items ++ take ((2 ^ log + 63) / 64) self.now.bits) }
    {
        words.extend_from_slice(self.bits.words_below(part_size(log)))
    }
}

/// Fetches the headers at these addresses.
fn fetch(heap: &Heap<'_>, addresses: &[u64], batch: &mut Vec<Waiting>)
    requires inside { All (λ a. a < heap_words heap.now) addresses.now }
    requires empty { batch.old.items ≡ [] }
    requires room { length addresses.now ≤ vec_capacity batch.old }
    ensures addresses { waiting_addresses batch.new.items ≡ addresses.now }
    ensures fetched { AreFetched heap.now batch.new.items }
    ensures batch_capacity { vec_capacity batch.new ≡ vec_capacity batch.old }
{
    for &address in addresses {
        let header = heap.word(address);
        batch.push_reserved(Waiting { address, header });
    }
}

/// The number of addresses of a part.
#[inline]
pub(crate) fn part_size(log: u32) -> u64
    requires { log ≤ 30 }
    ensures { result ≡ 2 ^ log }
{
    1 << log
}
