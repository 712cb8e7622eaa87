//! Checks a live list in one thread or several, and notes the sizes of its objects.
//!
//! The objects are taken in pieces of 64. Their references are read a row of words at a time, and looked up in a set of
//! those that objects may have. If the objects are known to be well-formed, only their headers are read. The result only says whether all objects are sound: `check` finds the first fault.
//! No object waits for another one, so that the processor reads some headers and references ahead by itself.
ghost use Rattle.std.specs.Prelude.{◌≡◌, ◌<◌, ◌≤◌, ◌+◌, ◌*◌, ◌/◌, ◌%◌, ℕ, All, IfSome, IsTrue, IfOk, length, [], List, slice_index, slice_index_or};
ghost use Rattle.object_heap.specs.HeapImage.{HasLiveList, heap_words, is_null_or_live, size_at, with_live, word_at};
ghost use Rattle.object_heap.specs.Bits.{has, MarkBegins};
ghost use Rattle.object_heap.specs.Sizes.{AreSizes};
ghost use Rattle.heap_marking.specs.Soundness.{AreBeginsOrWellFormed, AreKnown, AreMarked, AreNoted, AreWordsMarked, IsSoundObject};

use crate::marker::Marker;
use object_heap::header::{self, is_unsound};
use object_heap::{Bits, Heap, objects_without_faults};
use std::alloc::Global;

/// The number of objects of a piece.
pub const PIECE: usize = 64;

/// The sizes in words of the live objects, if all of them are sound. The marker's threads visit each object once. Returns
/// `None` also if memory runs out.
///
/// `begins` marks the live addresses. It is `None` for objects that are known to be well-formed: then only overlaps are
/// possible, and no reference is looked up.
pub fn sizes_if_sound<M: Marker>(
    alloc: Global,
    heap: &Heap<'_>,
    live: &[u64],
    begins: Option<&Bits>,
    marker: &M,
) -> Option<Vec<[u32; PIECE]>>
    requires marker { M.may_start }
    requires inside { All (λ a. a < heap_words heap.now) live.now }
    requires begins { AreBeginsOrWellFormed (with_live heap.now live.now) begins }
    ensures sound { IfSome result (λ _. HasLiveList (with_live heap.now live.now)) }
    ensures sizes { IfSome result (λ sizes. AreSizes (with_live heap.now live.now) sizes.items) }
{
    let Ok(sizes) = marker.note_sizes(alloc, heap, live, begins) else {
        return None;
    };
    if are_all_noted(sizes.as_slice(), live.len()) {
        Some(sizes)
    } else {
        None
    }
}

/// Notes the sizes of the sound live objects of a piece. `marked` marks the references that are null or lead to a live
/// object, or is `None` for well-formed objects.
pub(crate) fn note_sizes(
    heap: &Heap<'_>,
    live: &[u64],
    marked: Option<&[u64]>,
    piece: usize,
    sizes: &mut [u32; PIECE],
)
    requires known { AreKnown heap.now live.now marked }
    requires piece { 64 * piece < length live.now }
    ensures { AreNoted (with_live heap.now live.now) piece sizes.new }
{
    let from = piece * PIECE;
    let to = live.len().min(from + PIECE);
    for i in from..to {
        sizes[i - from] = size_if_sound(heap, live, marked, i);
    }
}

/// Whether the sizes of all objects are noted.
pub(crate) fn are_all_noted(sizes: &[[u32; PIECE]], objects: usize) -> bool
    requires { objects ≤ 64 * length sizes.now }
    ensures { IsTrue result → (i : ℕ) → i < objects → 0 < slice_index (slice_index_or sizes.now (i / 64) []) (i % 64) }
{
    let whole = objects / PIECE;
    let mut all = true;
    for piece in 0..whole {
        all &= are_noted(&sizes[piece]);
    }
    let rest = objects % PIECE;
    all && (rest == 0 || are_noted(&sizes[whole][..rest]))
}

/// Whether each of these sizes is noted, that is, above 0. Taking the least of them compiles to vector instructions.
fn are_noted(sizes: &[u32]) -> bool
    ensures { IsTrue result → (k : ℕ) → k < length sizes.now → 0 < slice_index sizes.now k }
{
    let mut least = u32::MAX;
    for size in sizes {
        least = least.min(*size);
    }
    least > 0
}

/// The size of the live object with this index, or 0 if it isn't sound.
#[inline]
fn size_if_sound(heap: &Heap<'_>, live: &[u64], marked: Option<&[u64]>, i: usize) -> u32
    requires known { AreKnown heap.now live.now marked }
    requires index { i < length live.now }
    ensures sound { 0 < result → IsSoundObject (with_live heap.now live.now) i }
    ensures size { 0 < result → result ≡ size_at (with_live heap.now live.now) (slice_index live.now i) }
{
    heap.own();
    let header = heap.word(live[i]);
    if is_sound(heap, live, marked, i, header) {
        header::size(header)
    } else {
        0
    }
}

/// Whether the live object with this index and this header fits in the heap, ends before the next one begins, and has
/// only references that are null or lead to live objects.
#[inline]
fn is_sound(heap: &Heap<'_>, live: &[u64], marked: Option<&[u64]>, i: usize, header: u64) -> bool
    requires known { AreKnown heap.now live.now marked }
    requires index { i < length live.now }
    requires header { header ≡ word_at heap.now (slice_index live.now i) }
    ensures { IsTrue result → IsSoundObject (with_live heap.now live.now) i }
{
    objects_without_faults();
    heap.own();
    let a = live[i];
    if is_unsound(header, a, heap.len()) {
        return false;
    }
    let end = a + u64::from(header::size(header));
    if i + 1 < live.len() && end > live[i + 1] {
        return false;
    }
    are_sound_references(
        heap,
        marked,
        a + 1,
        a + 1 + u64::from(header::references(header)),
    )
}

/// Whether each word from `from` up to `to` is a marked reference, or nothing is looked up.
#[inline]
fn are_sound_references(heap: &Heap<'_>, marked: Option<&[u64]>, from: u64, to: u64) -> bool
    requires inside { to ≤ heap_words heap.now }
    requires room { IfSome marked (λ bits. heap_words heap.now / 64 < length bits.now) }
    ensures { IsTrue result → IfSome marked.entry (λ bits. AreWordsMarked heap.now bits.now from to) }
{
    match marked {
        Some(marked) => are_words_marked(heap, marked, from, to),
        None => true,
    }
}

/// Whether each word from `from` up to `to` is a marked reference.
#[inline]
fn are_words_marked(heap: &Heap<'_>, marked: &[u64], from: u64, to: u64) -> bool
    requires inside { to ≤ heap_words heap.now }
    requires room { heap_words heap.now / 64 < length marked.now }
    ensures { IsTrue result → AreWordsMarked heap.now marked.now from to }
{
    let words = heap.len();
    let mut next = from;
    while next < to {
        let row = heap.row(next, to);
        if !are_marked(words, marked, row) {
            return false;
        }
        next += row.len() as u64;
    }
    true
}

/// Whether each of these references is at most the number of words, and marked.
///
/// It ends at the first that isn't: without that exit the loop is unrolled, and rows of a few references take longer.
#[inline]
fn are_marked(words: u64, marked: &[u64], references: &[u64]) -> bool
    requires { words / 64 < length marked.now }
    ensures { IsTrue result → AreMarked words marked.now references.now }
{
    for reference in references {
        if *reference > words || !has(marked, *reference) {
            return false;
        }
    }
    true
}

/// Whether bit `i` of these words is set.
#[inline]
fn has(words: &[u64], i: u64) -> bool
    requires { i / 64 < length words.now }
    ensures { result ≡ has words.now i }
{
    (words[(i / 64) as usize] >> (i % 64)) & 1 == 1
}

/// Whether a reference is null or to a live object. `bits` marks the live addresses.
#[inline]
pub fn is_null_or_live(heap: &Heap<'_>, reference: u64, bits: &Bits) -> bool
    requires { heap_words heap.now / 64 < length bits.now }
    ensures { (live : List ℕ) → All (λ b. b < heap_words heap.now) live → MarkBegins live (heap_words heap.now) bits.now
        → result ≡ is_null_or_live (with_live heap.now live) reference }
{
    reference <= heap.len() && (reference == 0) | bits.has(reference.saturating_sub(1))
}
