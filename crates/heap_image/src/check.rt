//! Checks a live list in one thread, and finds its first fault.
ghost use Rattle.std.specs.Prelude.{◌≡◌, ◌<◌, ◌≤◌, ◌+◌, ◌/◌, ◌^◌, ◌⊎◌, ◌==◌, ℕ, Option, Some, None, [], ◌∷◌, List, All, option_map, find, map, OnOk, IfErr, IsTrue, length};
ghost use Rattle.std.specs.List.{list_any, range_with_len};
ghost use Rattle.object_heap.specs.HeapImage.{heap_words, with_live, references_at, is_null_or_live};
ghost use Rattle.heap_image.specs.Checks.{AreSeen, Reports};
ghost use Rattle.heap_image.specs.ImageText.{first_object_fault};
ghost use Rattle.object_heap.specs.ObjectFaults.{misplaced_index, is_dangling};
ghost use Rattle.object_heap.specs.Bits.{MarkBegins};
ghost use Rattle.heap_marking.specs.Soundness.{AreWellFormed};

pub(crate) mod unchecked;

use crate::Fault;
use heap_marking::is_null_or_live;
use object_heap::header::{self, is_unsound};
use object_heap::{Bits, Heap, is_small};

/// The first index of an address that is outside the heap or not above the one before it.
pub(crate) fn misplaced_index(live: &[u64], words: u64) -> Option<u32>
    requires few { length live.now ≤ words }
    requires fits { length live.now < 2 ^ 32 }
    ensures { result ≡ misplaced_index words live.now }
{
    let mut next = 0;
    for (index, a) in live.iter().enumerate() {
        if *a < next || *a >= words {
            return Some(index as u32);
        }
        next = *a + 1;
    }
    None
}

/// Checks that each live address has the header of an object that fits, that no two objects overlap, and that each
/// reference is null or to a live object. `bits` marks the live addresses. Each object is visited once.
fn check_objects(heap: &Heap<'_>, live: &[u64], bits: &Bits) -> Result<(), Fault>
    requires inside { All (λ a. a < heap_words heap.now) live.now }
    requires bits { MarkBegins live.now (heap_words heap.now) bits.now }
    ensures { Reports result (first_object_fault (with_live heap.now live.now)) }
{
    heap.own();
    let words = heap.len();
    let mut end = 0;
    let mut overlap = None;
    let mut dangling = None;
    for a in live {
        let word = heap.word(*a);
        if is_unsound(word, *a, words) {
            return Err(Fault::Header(*a));
        }
        overlap = overlap.or((*a < end).then_some(*a));
        end = *a + u64::from(header::size(word));
        if dangling.is_none() {
            let field = dangling_field(heap, *a, header::references(word), bits);
            dangling = match field {
                Some(field) => Some((*a, field)),
                None => None,
            };
        }
    }
    match (overlap, dangling) {
        (Some(a), _) => Err(Fault::Overlap(a)),
        (None, Some((a, field))) => Err(Fault::Reference(a, field)),
        (None, None) => Ok(()),
    }
}

/// Checks the live objects of a heap and returns their first fault. `bits` marks their addresses; `well_formed` says
/// that only overlaps are still possible. Each object is visited once.
pub(crate) fn check_live(
    heap: &Heap<'_>,
    live: &[u64],
    bits: &Bits,
    well_formed: bool,
) -> Result<(), Fault>
    requires { AreSeen heap.now live.now bits.now well_formed }
    ensures { Reports result (first_object_fault (with_live heap.now live.now)) }
{
    if well_formed {
        return check_overlaps(heap, live);
    }
    check_objects(heap, live, bits)
}

/// Checks that no live object begins before the end of the one before it. All are well-formed.
fn check_overlaps(heap: &Heap<'_>, live: &[u64]) -> Result<(), Fault>
    requires inside { All (λ a. a < heap_words heap.now) live.now }
    requires well_formed { AreWellFormed (with_live heap.now live.now) }
    ensures { Reports result (first_object_fault (with_live heap.now live.now)) }
{
    is_small(heap);
    heap.own();
    let mut end = 0;
    let mut overlap = None;
    for a in live {
        overlap = overlap.or((*a < end).then_some(*a));
        end = *a + heap.size_at(*a);
    }
    match overlap {
        Some(a) => Err(Fault::Overlap(a)),
        None => Ok(()),
    }
}

/// The first field of the object at `a` whose reference is neither null nor to a live object.
pub(crate) fn dangling_field(heap: &Heap<'_>, a: u64, references: u32, bits: &Bits) -> Option<u32>
    requires inside { a + references < heap_words heap.now }
    requires bits { heap_words heap.now / 64 < length bits.now }
    ensures { (live : List ℕ) → All (λ b. b < heap_words heap.now) live → MarkBegins live (heap_words heap.now) bits.now
        → result ≡ find (λ f. is_dangling (with_live heap.now live) (a, f)) (range_with_len 0 references) }
{
    for field in 0..references {
        if !is_null_or_live(heap, heap.reference(a, field), bits) {
            return Some(field);
        }
    }
    None
}
