//! The references that objects may have, as a set in which null is one of them.
//!
//! The bit of a reference is found by its own value. So to look one up takes no test for null, which no processor foresees.
ghost use Rattle.std.specs.Prelude.{◌≡◌, ◌-◌, ◌<◌, ◌≤◌, ◌==◌, ◌||◌, ℕ, All, IfOk, MatchOption, length};
ghost use Rattle.object_heap.specs.HeapImage.{HeapImage, heap_words};
ghost use Rattle.object_heap.specs.Bits.{has, room, MarkBegins};
ghost use Rattle.heap_marking.specs.Soundness.{AreBeginsOrWellFormed, AreReferencesOrWellFormed, MarkReferences};

use object_heap::Bits;
use std::alloc::{AllocError, Global};

/// The set of the references that are null or lead to a live object, or `None` for objects that are known to be
/// well-formed. `begins` marks the live addresses.
pub fn mark_references(alloc: Global, begins: Option<&Bits>) -> Result<Option<Bits>, AllocError>
    ensures { (image : HeapImage) → All (λ a. a < heap_words image) image.live → AreBeginsOrWellFormed image begins.entry
        → IfOk result (AreReferencesOrWellFormed image) }
{
    match begins {
        Some(begins) => Ok(Some(null_or_to(alloc, begins)?)),
        None => Ok(None),
    }
}

/// The set of the references that are null or lead to one of these addresses, which are marked.
fn null_or_to(alloc: Global, begins: &Bits) -> Result<Bits, AllocError>
    ensures { (image : HeapImage) → All (λ a. a < heap_words image) image.live → MarkBegins image.live (heap_words image) begins.now
        → IfOk result (λ references. MarkReferences image references) }
{
    let references = moved_up(alloc, begins.words())?;
    Ok(Bits::from_words(references))
}

/// These words of bits with each bit one place higher, and bit 0 set. A bit that is highest in the last word is dropped.
fn moved_up(alloc: Global, words: &[u64]) -> Result<Vec<u64>, AllocError>
    ensures room { IfOk result (λ moved. length moved.items ≡ length words.now) }
    ensures bits { IfOk result (λ moved. (r : ℕ) → r < room moved.items
        → has moved.items r ≡ (r == 0 || has words.now (r - 1))) }
{
    let mut moved = vec![in alloc; 0u64; words.len()]?;
    let mut before = 1 << 63;
    for i in 0..words.len() {
        moved[i] = words[i] << 1 | before >> 63;
        before = words[i];
    }
    Ok(moved)
}
