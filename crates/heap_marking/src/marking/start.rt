//! The start of rounds: parts without marks, and the roots on their way.
ghost use Rattle.std.specs.Prelude.{◌≡◌, ℕ, ◌<◌, ◌≤◌, ◌/◌, ◌^◌, IfOk, OnOk, length};
ghost use Rattle.object_heap.specs.HeapImage.{heap_words};
ghost use Rattle.heap_marking.specs.Rounds.{AreRowsOf, AreUnmarked, IsPartCount, IsRooted, IsRootRow};

use super::boxes::Boxes;
use super::part::Part;
use object_heap::{Heap, is_small};
use std::alloc::{AllocError, Global};

/// The least logarithm, to base 2, of the number of addresses of a part.
const LEAST_LOG: u32 = 18;

/// The greatest. 64 such parts are the most words of a heap.
const GREATEST_LOG: u32 = 30;

/// The logarithm of the most parts.
const PARTS_LOG: u32 = 6;

/// The logarithm, to base 2, of the number of addresses of a part, such that there are at most 64 parts.
pub(crate) fn part_log(words: u64) -> u32
    ensures low { 6 ≤ result }
    ensures high { result ≤ 30 }
{
    let bits = u64::BITS - words.saturating_sub(1).leading_zeros();
    bits.saturating_sub(PARTS_LOG)
        .max(LEAST_LOG)
        .min(GREATEST_LOG)
}

/// The number of parts of `2 ^ log` addresses that cover this number of words.
pub(crate) fn part_count(words: u64, log: u32) -> usize
    requires log { log ≤ 30 }
    requires some { 0 < words }
    requires few { words ≤ 68719476736 }
    ensures { IsPartCount log words result }
{
    (((words - 1) >> log) + 1) as usize
}

/// The parts of a heap, without marks.
pub(crate) fn parts_of(
    alloc: Global,
    heap: &Heap<'_>,
    log: u32,
    count: usize,
) -> Result<Vec<Part>, AllocError>
    requires log { log ≤ 30 }
    requires count { IsPartCount log (heap_words heap.now) count }
    ensures { IfOk result (λ parts. AreUnmarked log heap.now count parts.items) }
{
    is_small(heap);
    let mut parts = Vec::with_capacity(alloc, count)?;
    for k in 0..count {
        parts.push(Part::new(alloc, log, (k as u64) << log, count)?)?;
    }
    Ok(parts)
}

/// Puts a root into the box of the part of its target, if it leads into the heap.
fn send_root(row: &mut Boxes, words: u64, log: u32, root: u64) -> Result<(), AllocError>
    requires log { log ≤ 30 }
    requires inside { (b : ℕ) → b < words → b / 2 ^ log < length row.old }
    ensures count { length row.new ≡ length row.old }
    ensures sent { OnOk result (IsRooted log words root row.old row.new) }
{
    if root == 0 || root > words {
        return Ok(());
    }
    row.send(((root - 1) >> log) as usize, root)
}

/// The roots, each in the box of the part of its target.
pub(crate) fn root_row(
    alloc: Global,
    words: u64,
    log: u32,
    count: usize,
    roots: &[u64],
) -> Result<Boxes, AllocError>
    requires log { log ≤ 30 }
    requires inside { (b : ℕ) → b < words → b / 2 ^ log < count }
    ensures { IfOk result (IsRootRow log words count roots.now) }
{
    let mut row = Boxes::new(alloc, count)?;
    for root in roots {
        send_root(&mut row, words, log, *root)?;
    }
    Ok(row)
}

/// This row of boxes and empty ones, `count` in all.
pub(crate) fn rows_of(alloc: Global, row: Boxes, count: usize) -> Result<Vec<Boxes>, AllocError>
    requires some { 0 < count }
    requires row { length row ≡ count }
    ensures { IfOk result (λ rows. AreRowsOf count row rows.items) }
{
    let mut rows = Vec::with_capacity(alloc, count)?;
    rows.push(row)?;
    for _ in 1..count {
        rows.push(Boxes::new(alloc, count)?)?;
    }
    Ok(rows)
}
