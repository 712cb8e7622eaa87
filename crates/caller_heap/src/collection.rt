//! The collection of a copy of a heap's words, and an image's words put over them.
ghost use Rattle.std.specs.Prelude.{◌≡◌, IfOk, OnErr, IfErr, length};
ghost use Rattle.image_streams.specs.declared.fault.Fault.TheVariants.{Memory};
ghost use Rattle.object_heap.specs.HeapImage.{HeapImage, IsValid, heap_words};
ghost use Rattle.heap_image.specs.ImageText.{text, with_tail};
ghost use Rattle.summary.specs.Compaction.{compact};
ghost use Rattle.collector.specs.Collections.{figures_of};
ghost use Rattle.caller_heap.specs.Collected.{IsTailOf, IsWhyKept};
ghost use Rattle.caller_heap.specs.HeapWords.{heap_bytes};

use crate::reading::image_of_heap;
use crate::settings::HeapSettings;
use collector::{Figures, OpenGate, collect_alone};
use heap_image::{Fault, Image, Version};
use std::alloc::Global;

/// Compacts the heap with these words in place. In version 1 `tail` has the live addresses, which become the new ones in
/// the same order. Otherwise it has the roots: the live objects are those that they reach, and the roots then lead to their
/// new addresses. After a fault words and tail are as they were.
///
/// The fault is the first fault of the bytes of its image, 3, 4, 6 to 9 or 17, or 11 if memory runs out. Takes the memory of
/// a copy of the words, and what a collection by one worker takes.
pub fn collect_words(
    alloc: Global,
    version: Version,
    settings: HeapSettings,
    words: &mut [u64],
    tail: &mut [u64],
) -> Result<Figures, Fault>
    ensures collected { IfOk result (λ figures. (image : HeapImage) × IsValid image
        × (heap_bytes version settings words.old tail.old ≡ text image)
        × (words.new ≡ (compact image).words) × IsTailOf version (compact image) tail.new
        × (figures ≡ figures_of image)) }
    ensures kept { OnErr result ((words.new ≡ words.old) × (tail.new ≡ tail.old)) }
    ensures fault { IfErr result (IsWhyKept (heap_bytes version settings words.old tail.old)) }
{
    let image = image_of_heap(alloc, version, settings, words, tail)?;
    let (after, figures) = compact_image(alloc, image)?;
    put_words(&after, words);
    put_tail(&after, tail);
    Ok(figures)
}

/// The compaction of an image by one worker in the caller's thread, and its figures.
///
/// Fails with fault 11 if memory runs out; the image, a copy, is lost then.
fn compact_image(alloc: Global, image: Image) -> Result<(Image, Figures), Fault>
    ensures image { IfOk result (λ done. done.0 ≡ compact image) }
    ensures figures { IfOk result (λ done. done.1 ≡ figures_of image) }
    ensures fault { IfErr result (λ fault. fault ≡ Memory) }
{
    match collect_alone(alloc, image, &OpenGate) {
        Ok((outcome, _board)) => Ok((outcome.image, outcome.figures)),
        Err(refusal) => Err(refusal.fault()),
    }
}

/// Writes the words of an image over a list of as many words.
pub fn put_words(image: &Image, words: &mut [u64])
    requires { length words.old ≡ heap_words image.now }
    ensures { words.new ≡ image.now.words }
{
    let size = image.region_words() as usize;
    for r in 0..image.regions() {
        let start = r as usize * size;
        words[start..start + size].copy_from_slice(image.region(r).words());
    }
}

/// Writes the live addresses of an image of version 1 over a list of as many numbers, otherwise its roots.
pub fn put_tail(image: &Image, tail: &mut [u64])
    requires { length tail.old ≡ length (with_tail image.now).live }
    ensures { tail.new ≡ (with_tail image.now).live }
{
    match image.version() {
        Version::One => tail.copy_from_slice(image.live()),
        Version::Two | Version::Three => tail.copy_from_slice(image.roots()),
    }
}
