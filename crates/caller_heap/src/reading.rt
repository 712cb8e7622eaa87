//! The image of a heap in memory.
ghost use Rattle.std.specs.Prelude.{◌≡◌, ◌⊎◌, ℕ, List, Some, IfOk, IfErr, length};
ghost use Rattle.image_streams.specs.declared.fault.Fault.TheVariants.{Memory};
ghost use Rattle.object_heap.specs.HeapImage.{IsValid, heap_words};
ghost use Rattle.heap_image.specs.ImageText.{text, with_tail, first_fault};
ghost use Rattle.heap_image.specs.Refusals.{IsReason};
ghost use Rattle.caller_heap.specs.HeapWords.{heap_bytes};

use crate::heap_words::{HeapWords, front_of};
use crate::settings::HeapSettings;
use heap_image::{Alone, Fault, Image, Version, read_image, text_tells_its_size};
use std::alloc::Global;

/// The image of a heap with these words and, in version 1, live addresses, otherwise roots. If it isn't valid, the first
/// fault of its bytes, or fault 11 if memory runs out.
pub fn image_of_heap(
    alloc: Global,
    version: Version,
    settings: HeapSettings,
    words: &[u64],
    tail: &[u64],
) -> Result<Image, Fault>
    ensures valid { IfOk result (λ image. IsValid image) }
    ensures version { IfOk result (λ image. image.version ≡ version) }
    ensures text { IfOk result (λ image. heap_bytes version settings words.now tail.now ≡ text image) }
    ensures words { IfOk result (λ image. heap_words image ≡ length words.now) }
    ensures tail { IfOk result (λ image. length (with_tail image).live ≡ length tail.now) }
    ensures fault { IfErr result (λ fault. (fault ≡ Memory) ⊎ (first_fault (heap_bytes version settings words.now tail.now) ≡ Some fault)) }
{
    text_tells_its_size();
    let front = front_of(version, settings, words.len(), tail.len());
    let mut heap = HeapWords {
        front: &front,
        words,
        tail,
        has_failed: false,
    };
    match read_image(alloc, &mut heap, &Alone) {
        Ok(image) => Ok(image),
        Err(fault) => Err(without_device(fault)),
    }
}

/// The fault of reading an image from a device that fails only if memory runs out.
fn without_device(fault: Fault) -> Fault
    ensures { (input : List ℕ) → IsReason input fault → (result ≡ Memory) ⊎ (first_fault input ≡ Some result) }
{
    match fault {
        Fault::Io => Fault::Memory,
        _ => fault,
    }
}
