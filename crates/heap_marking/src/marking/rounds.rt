//! Rounds of threads, each of which marks in parts of its own.
ghost use Rattle.std.specs.Prelude.{◌≡◌, ◌<◌, ◌≤◌, ◌⊎◌, All, false, IfOk, OnOk, IsTrue, length};
ghost use Rattle.object_heap.specs.HeapImage.{heap_words};
ghost use Rattle.heap_marking.specs.Spread.{IsReady, IsRoundOf};
ghost use Rattle.heap_marking.specs.Rounds.{Advances, AreExchanged, HasBegun, HasLayout, HaveTurned, IsSwapped};

use super::boxes::Boxes;
use super::part::Part;
use super::start::{part_count, parts_of, root_row, rows_of};
use object_heap::Heap;
use std::alloc::{AllocError, Global};
use std::mem;
use std::thread::Threads;
use thread_row::{Many, for_each_mut};

/// The most rounds.
const MOST_ROUNDS: usize = 65_536;

/// The most small rounds.
const MOST_SMALL_ROUNDS: usize = 64;

/// How many small rounds an uneven one counts for.
const UNEVEN: usize = 32;

/// The least number of references on their way and of addresses that wait that is worth more than one thread.
const LEAST_LOAD: usize = 4_096;

/// The least number of batches of the last round that is worth more than one thread.
const LEAST_BATCHES: u64 = 256;

/// The part of the words of the heap up to which boxes may have room for references before a round: one of 8.
const ROOM_LOG: u32 = 3;

/// The marks of a heap in parts, and the references on their way between the parts.
///
/// In a round each part belongs to one thread. It marks what is on its way to the part, and what is reachable from
/// there within the part. References to other parts go into boxes, which the next round only reads.
#[derive(Drop)]
pub(crate) struct Rounds {
    /// The parts have `2 ^ log` addresses each.
    pub(crate) log: u32,
    pub(crate) parts: Vec<Part>,
    /// A row of boxes from each part.
    pub(crate) sent: Vec<Boxes>,
}

impl Rounds {
    /// Nothing is marked, and the roots are on their way.
    pub(crate) fn new(
        alloc: Global,
        heap: &Heap<'_>,
        log: u32,
        roots: &[u64],
    ) -> Result<Rounds, AllocError>
        requires log { log ≤ 30 }
        requires some { 0 < heap_words heap.now }
        ensures { IfOk result (HasBegun heap.now log roots.now) }
    {
        let words = heap.len();
        let count = part_count(words, log);
        let parts = parts_of(alloc, heap, log, count)?;
        let row = root_row(alloc, words, log, count, roots)?;
        let sent = rows_of(alloc, row, count)?;
        Ok(Rounds { log, parts, sent })
    }

    /// Runs rounds as long as they pay: until nothing is on its way, many small rounds or some uneven ones have run, or the
    /// boxes take too much memory. What is still to be marked then is on its way or waits.
    pub(crate) fn run<T: Threads + Sync>(
        &mut self,
        alloc: Global,
        heap: &Heap<'_>,
        many: &Many<'_, T>,
    ) -> Result<(), AllocError>
        requires { HasLayout heap.now self.old }
        ensures { OnOk result (Advances heap.now self.old self.new) }
    {
        let mut small: usize = 0;
        for _ in 0..MOST_ROUNDS {
            let load = self.load();
            if load == 0 || small >= MOST_SMALL_ROUNDS || self.is_full(heap) {
                return Ok(());
            }
            let smallness = smallness_of(load, self.parts.as_slice());
            small = small.wrapping_add(smallness);
            let many = Many {
                threads: many.threads,
                most: threads_of(smallness, many.most),
            };
            self.turn(alloc, heap, &many)?;
        }
        Ok(())
    }

    /// One round.
    fn turn<T: Threads + Sync>(
        &mut self,
        alloc: Global,
        heap: &Heap<'_>,
        many: &Many<'_, T>,
    ) -> Result<(), AllocError>
        requires threads { 0 < many.now.most }
        requires layout { HasLayout heap.now self.old }
        ensures { OnOk result (Advances heap.now self.old self.new) }
    {
        self.turn_all(alloc, heap, many);
        if has_failed(self.parts.as_slice()) {
            return Err(AllocError);
        }
        exchange(self.parts.as_mut_slice(), self.sent.as_mut_slice());
        Ok(())
    }

    /// Each part does its work of a round.
    fn turn_all<T: Threads + Sync>(&mut self, alloc: Global, heap: &Heap<'_>, many: &Many<'_, T>)
        requires threads { 0 < many.now.most }
        requires layout { HasLayout heap.now self.old }
        ensures log { self.new.log ≡ self.old.log }
        ensures sent { self.new.sent ≡ self.old.sent }
        ensures turned { HaveTurned self.old.log heap.now self.old.sent.items self.old.parts.items self.new.parts.items }
    {
        let log = self.log;
        let sent = self.sent.as_slice();
        let work = |_: usize, part: &mut Part|
            requires { IsReady log (heap_words heap.now) sent.now part.old }
            ensures { IsTrue part.new.failed ⊎ IsRoundOf log heap.entry.now sent.entry.now part.old part.new }
        { part.round(alloc, heap, log, sent) };
        for_each_mut(many.threads, self.parts.as_mut_slice(), many.most, &work);
    }

    /// The number of references on their way and of addresses that wait. No contract depends on it.
    fn load(&self) -> usize {
        let mut load: usize = 0;
        for boxes in &self.sent {
            load = load.wrapping_add(boxes.load());
        }
        load.wrapping_add(waiting_in(self.parts.as_slice()))
    }

    /// Whether the boxes have taken their share of memory. No contract depends on it.
    fn is_full(&self, heap: &Heap<'_>) -> bool {
        let mut room: usize = 0;
        for boxes in &self.sent {
            room = room.wrapping_add(boxes.room());
        }
        room as u64 > heap.len() >> ROOM_LOG
    }
}

/// Whether memory ran out in one of the parts.
fn has_failed(parts: &[Part]) -> bool
    ensures { result ≡ false → All (λ p. p.failed ≡ false) parts.now }
{
    for part in parts {
        if part.failed {
            return true;
        }
    }
    false
}

/// Puts on its way what a part has sent.
fn swap_out(part: &mut Part, row: &mut Boxes)
    ensures { IsSwapped part.old part.new row.old row.new }
{
    mem::swap(&mut part.out, row);
}

/// Puts on their way what the parts have sent.
fn exchange(parts: &mut [Part], sent: &mut [Boxes])
    requires { length parts.old ≡ length sent.old }
    ensures { AreExchanged parts.old parts.new sent.old sent.new }
{
    for k in 0..parts.len() {
        swap_out(&mut parts[k], &mut sent[k]);
    }
}

/// The number of threads of a round.
fn threads_of(smallness: usize, most: usize) -> usize
    ensures { 0 < result }
{
    if smallness > 0 { 1 } else { most.max(1) }
}

/// How many small rounds a round counts for with this load: 0 if much is on its way, 1 if the last round did little, more
/// if one part alone did it, as along a list in the order of addresses. No contract depends on it.
fn smallness_of(load: usize, parts: &[Part]) -> usize {
    if load >= LEAST_LOAD {
        0
    } else if batches_of(parts) < LEAST_BATCHES {
        1
    } else if busy_parts(parts, most_batches(parts)) < 2 {
        UNEVEN
    } else {
        0
    }
}

/// The number of batches of the last round. No contract depends on it.
fn batches_of(parts: &[Part]) -> u64 {
    let mut batches: u64 = 0;
    for part in parts {
        batches = batches.saturating_add(part.work);
    }
    batches
}

/// The number of batches of the part that had most of them in the last round. No contract depends on it.
fn most_batches(parts: &[Part]) -> u64 {
    let mut most: u64 = 0;
    for part in parts {
        most = most.max(part.work);
    }
    most
}

/// The number of parts that had more than a quarter of this number of batches. No contract depends on it.
fn busy_parts(parts: &[Part], most: u64) -> usize {
    let mut busy: usize = 0;
    for part in parts {
        busy = busy.wrapping_add(usize::from(part.work > most / 4));
    }
    busy
}

/// The number of addresses that wait. No contract depends on it.
fn waiting_in(parts: &[Part]) -> usize {
    let mut waiting: usize = 0;
    for part in parts {
        waiting = waiting.wrapping_add(part.stack.len());
    }
    waiting
}
