//! Collections of a heap where its words lie, in regions that a host lends.
ghost use Rattle.std.specs.Prelude.{◌≡◌, ◌⊎◌, All, IsTrue, IfOk, OnOk, IfErr, length, vec_len};
ghost use Rattle.image_streams.specs.declared.fault.Fault.TheVariants.{Memory, Workers};
ghost use Rattle.object_heap.specs.HeapImage.{HeapImage, IsValid, region_count};
ghost use Rattle.heap_image.specs.ImageText.{text, with_tail};
ghost use Rattle.summary.specs.Compaction.{compact};
ghost use Rattle.collector.specs.Collections.{figures_of};
ghost use Rattle.collector.specs.Sessions.{image_of};
ghost use Rattle.caller_heap.specs.Collected.{IsTailOf};
ghost use Rattle.caller_heap.specs.HeapWords.{heap_bytes};
ghost use Rattle.caller_heap.specs.Lent.{AreBack, HoldImage, IsGone, IsNotLent, IsWhyLentKept, heap_in};
ghost use Rattle.caller_heap.specs.Parts.{IsPartOf};
ghost use Rattle.caller_heap.specs.declared.part.Origin.TheVariants.{Lent};

use crate::collection::put_tail;
use crate::lending::{image_of_lent, keep_image};
use crate::part::{Origin, Part, boxed_parts};
use crate::settings::HeapSettings;
use collector::{Figures, OpenGate, Outcome, Refusal, Share, collect_alone};
use heap_image::{Fault, Image, Version};
use raw_region::HostWords;
use std::alloc::Global;

/// Compacts the heap with these words, a region each from address 0 up, where they lie: afterwards each holds its region's
/// words of the compaction. `tail` is that of [`collect_words`](crate::collect_words). No word is copied but by the
/// compaction.
///
/// The fault is that of [`collect_words`](crate::collect_words), or 4 if some words aren't held or are more or fewer than
/// a region has. After a fault all are held as they were. No contract excludes fault 12, as none follows whose memory a
/// region has: after it nothing is promised of words and tail.
pub fn collect_lent_words(
    alloc: Global,
    version: Version,
    settings: HeapSettings,
    words: &mut [HostWords],
    tail: &mut [u64],
) -> Result<Figures, Fault>
    ensures collected { IfOk result (λ figures. (image : HeapImage) × IsValid image
        × (heap_bytes version settings (heap_in words.old) tail.old ≡ text image)
        × HoldImage (compact image) words.new × IsTailOf version (compact image) tail.new
        × (figures ≡ figures_of image)) }
    ensures kept { IfErr result (λ fault. (AreBack words.old words.new × (tail.new ≡ tail.old)) ⊎ IsNotLent fault) }
    ensures fault { IfErr result
        (IsWhyLentKept settings.region_log words.old (heap_bytes version settings (heap_in words.old) tail.old)) }
{
    let image = image_of_lent(alloc, version, settings, words, tail)?;
    match collect_alone(alloc, image, &OpenGate) {
        Ok((outcome, _board)) => put_back(outcome, words, tail),
        Err(Refusal::Kept(image, fault)) => {
            keep_image(words, image)?;
            Err(fault)
        }
        // No gate refuses.
        Err(Refusal::Lost(_)) => unreachable!(),
    }
}

/// Begins a collection of an image in these words by `workers` workers, and returns a part for each, which says that the
/// words were lent in a list at this place. Its end by [`end_lent_words`](crate::end_lent_words) puts the words back; until
/// then none is held.
///
/// The fault is 12 if there aren't 1 to 64 workers, or 11 if memory runs out. All words are held as they were then. No contract
/// excludes fault 12 for another reason, as none follows whose memory a region has: so none promises the words after it.
pub fn begin_lent(
    alloc: Global,
    image: Image,
    words: &mut [HostWords],
    workers: u32,
    place: u64,
) -> Result<Vec<Box<Part, Global>>, Fault>
    requires gone { All IsGone words.old }
    requires count { length words.old ≡ region_count image }
    ensures parts { IfOk result (λ parts. All (λ part. IsPartOf image (Lent place) part.value) parts.items) }
    ensures count { IfOk result (λ parts. vec_len parts ≡ workers) }
    ensures gone { OnOk result (All IsGone words.new) }
    ensures back { IfErr result (λ fault. HoldImage image words.new ⊎ IsNotLent fault) }
    ensures fault { IfErr result (λ fault. (fault ≡ Memory) ⊎ IsNotLent fault) }
{
    match boxed_parts(alloc, image, workers, Origin::Lent(place)) {
        Ok(parts) => Ok(parts),
        Err(Refusal::Kept(image, fault)) => {
            keep_image(words, image)?;
            Err(fault)
        }
        // All memory is taken while the image is whole.
        Err(Refusal::Lost(_)) => unreachable!(),
    }
}

/// Whether the session's image has `regions` regions and, in version 1, `numbers` live addresses, otherwise roots.
pub fn suits(share: &Share, regions: usize, numbers: usize) -> bool
    ensures regions { IsTrue result → regions ≡ region_count (image_of share.now) }
    ensures numbers { IsTrue result → numbers ≡ length (with_tail (image_of share.now)).live }
{
    regions == share.regions() as usize && numbers == share.numbers()
}

/// Ends a session over lent words that [`suits`](crate::suits): fills what is left to fill, gives the words of the
/// compaction back to the host, each region in its place, and writes the new live addresses or roots. `others` are the
/// shares of all other workers.
///
/// Fails with fault 12 if these aren't all shares of one session over lent words. The words are lost then.
pub fn end_lent_words(
    words: &mut [HostWords],
    tail: &mut [u64],
    share: Share,
    others: Vec<Share>,
) -> Result<Figures, Fault>
    requires gone { All IsGone words.old }
    requires words { length words.old ≡ region_count (image_of share) }
    requires tail { length tail.old ≡ length (with_tail (image_of share)).live }
    ensures words { OnOk result (HoldImage (compact (image_of share)) words.new) }
    ensures tail { OnOk result (tail.new ≡ (with_tail (compact (image_of share))).live) }
    ensures figures { IfOk result (λ figures. figures ≡ figures_of (image_of share)) }
    ensures fault { IfErr result (λ fault. fault ≡ Workers) }
{
    let outcome = share.end(others)?;
    put_back(outcome, words, tail)
}

/// Gives the words of a compaction back, each region in its place, and writes its live addresses or roots. Fails with fault
/// 12 if the words weren't lent.
fn put_back(outcome: Outcome, words: &mut [HostWords], tail: &mut [u64]) -> Result<Figures, Fault>
    requires gone { All IsGone words.old }
    requires words { length words.old ≡ region_count outcome.image }
    requires tail { length tail.old ≡ length (with_tail outcome.image).live }
    ensures put { IfOk result (λ figures. HoldImage outcome.image words.new
        × (tail.new ≡ (with_tail outcome.image).live) × (figures ≡ outcome.figures)) }
    ensures fault { IfErr result IsNotLent }
{
    put_tail(&outcome.image, tail);
    keep_image(words, outcome.image)?;
    Ok(outcome.figures)
}
