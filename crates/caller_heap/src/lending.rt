//! The image of a heap in words that a host lends, a region each, and their way back.
ghost use Rattle.std.specs.Prelude.{◌≡◌, ◌≤◌, ◌<◌, ◌^◌, ◌⊎◌, ◌++◌, true, false, All, IsTrue, IfOk, IfErr, OnOk, length, map, take, drop, vec_len};
ghost use Rattle.std.specs.Vec.{vec_capacity};
ghost use Rattle.object_heap.specs.HeapImage.{IsValid, AreBlocks, region_count};
ghost use Rattle.heap_image.specs.ImageText.{text, listed_text, with_tail};
ghost use Rattle.heap_image.specs.Unchecked.{numbers_in};
ghost use Rattle.image_streams.specs.declared.fault.Fault.TheVariants.{Memory, Length};
ghost use Rattle.caller_heap.specs.HeapWords.{heap_bytes};
ghost use Rattle.caller_heap.specs.Lent.{IsHeld, IsGone, AreRegions, AreBack, HoldImage, IsNotLent, IsWhyLentKept, content, heap_in, held, words_in};

use crate::settings::HeapSettings;
use heap_image::{Alone, Fault, Image, UncheckedParts, Version, image_of_regions};
use raw_region::{HostWords, Region};
use std::alloc::Global;

/// The image of the heap in these words, which lends each as a region, from address 0 up, with these live addresses in
/// version 1, otherwise roots. No word is copied.
///
/// The fault is the first fault of the bytes of the image, 3, 4, 6 to 9 or 17, or 4 if some words aren't held or are more
/// or fewer than a region has, or 11 if memory runs out. All words are held as they were then. No contract excludes fault 12,
/// as none follows whose memory a region has: after it nothing is promised of them.
pub fn image_of_lent(
    alloc: Global,
    version: Version,
    settings: HeapSettings,
    words: &mut [HostWords],
    tail: &[u64],
) -> Result<Image, Fault>
    ensures valid { IfOk result (λ image. IsValid image) }
    ensures version { IfOk result (λ image. image.version ≡ version) }
    ensures text { IfOk result (λ image. heap_bytes version settings (heap_in words.old) tail.now ≡ text image) }
    ensures words { IfOk result (λ image. HoldImage image words.old) }
    ensures count { IfOk result (λ image. length words.old ≡ region_count image) }
    ensures tail { IfOk result (λ image. length tail.now ≡ length (with_tail image).live) }
    ensures gone { OnOk result (All IsGone words.new) }
    ensures back { IfErr result (λ fault. AreBack words.old words.new ⊎ IsNotLent fault) }
    ensures fault { IfErr result
        (IsWhyLentKept settings.region_log words.old (heap_bytes version settings (heap_in words.old) tail.now)) }
{
    let parts = lend_parts(alloc, version, settings, words, tail)?;
    match image_of_regions(alloc, parts, &Alone) {
        Ok(image) => Ok(image),
        Err(refused) => {
            keep_all(words, refused.regions)?;
            Err(refused.fault)
        }
    }
}

/// Lends all of these words, a region each, as parts with a copy of these live addresses or roots. Fails as [`lend_all`].
pub(crate) fn lend_parts(
    alloc: Global,
    version: Version,
    settings: HeapSettings,
    words: &mut [HostWords],
    tail: &[u64],
) -> Result<UncheckedParts, Fault>
    ensures version { IfOk result (λ parts. parts.version ≡ version) }
    ensures settings { IfOk result (λ parts. (parts.region_log ≡ settings.region_log) × (parts.allowance ≡ settings.allowance)) }
    ensures regions { IfOk result (λ parts. parts.regions.items ≡ map words_in words.old) }
    ensures whole { IfOk result (λ parts. AreBlocks parts.region_log parts.regions.items) }
    ensures tail { IfOk result (λ parts. parts.tail.items ≡ tail.now) }
    ensures bytes { IfOk result (λ parts.
        heap_bytes version settings (heap_in words.old) tail.now ≡ listed_text parts.version (numbers_in parts)) }
    ensures held { OnOk result (All IsHeld words.old) }
    ensures gone { OnOk result (All IsGone words.new) }
    ensures back { IfErr result (λ fault. AreBack words.old words.new ⊎ IsNotLent fault) }
    ensures fault { IfErr result (λ fault. (fault ≡ Memory)
        ⊎ (((fault ≡ Length) × (AreRegions settings.region_log words.old → ⊥)) ⊎ IsNotLent fault)) }
{
    if tail.len() > u32::MAX as usize {
        return Err(Fault::Memory);
    }
    let numbers = Vec::from_slice(alloc, tail)?;
    let regions = lend_all(alloc, words, settings.region_log)?;
    Ok(UncheckedParts {
        version,
        region_log: settings.region_log,
        allowance: settings.allowance,
        regions,
        tail: numbers,
    })
}

/// Lends all of these words, a region of `2 ^ region_log` words each.
///
/// After a fault they are back: 11 if memory runs out, 4 if some aren't held or are more or fewer. After fault 12, where a
/// region isn't a host's, only some of them are.
pub(crate) fn lend_all(
    alloc: Global,
    words: &mut [HostWords],
    region_log: u32,
) -> Result<Vec<Region>, Fault>
    ensures regions { IfOk result (λ regions. regions.items ≡ map words_in words.old) }
    ensures whole { OnOk result (AreBlocks region_log (map words_in words.old)) }
    ensures held { OnOk result (All IsHeld words.old) }
    ensures gone { OnOk result (All IsGone words.new) }
    ensures back { IfErr result (λ fault. AreBack words.old words.new ⊎ IsNotLent fault) }
    ensures fault { IfErr result (λ fault. (fault ≡ Memory)
        ⊎ (((fault ≡ Length) × (AreRegions region_log words.old → ⊥)) ⊎ IsNotLent fault)) }
{
    let mut regions = Vec::with_capacity(alloc, words.len())?;
    if lend_each(alloc, words, region_log, &mut regions) {
        return Ok(regions);
    }
    keep_all(words, regions)?;
    Err(Fault::Length)
}

/// Lends words in their order, up to the first that aren't a region's. Returns whether all are.
fn lend_each(
    alloc: Global,
    words: &mut [HostWords],
    region_log: u32,
    regions: &mut Vec<Region>,
) -> bool
    requires empty { vec_len regions.old ≡ 0 }
    requires room { length words.old ≤ vec_capacity regions.old }
    ensures lent { regions.new.items ≡ map words_in (take (vec_len regions.new) words.old) }
    ensures held { All IsHeld (take (vec_len regions.new) words.old) }
    ensures gone { All IsGone (take (vec_len regions.new) words.new) }
    ensures rest { drop (vec_len regions.new) words.new ≡ drop (vec_len regions.new) words.old }
    ensures few { vec_len regions.new ≤ length words.old }
    ensures all { IsTrue result → vec_len regions.new ≡ length words.old }
    ensures whole { IsTrue result → AreBlocks region_log (map words_in words.old) }
    ensures stopped { result ≡ false → AreRegions region_log words.old → ⊥ }
{
    let size = region_size(region_log);
    for place in words.iter_mut() {
        let Some(region) = place.lend(alloc) else {
            return false;
        };
        let is_whole = region.len() == size;
        regions.push_reserved(region);
        if !is_whole {
            return false;
        }
    }
    true
}

/// The number of words of a region, or 0 if no version allows as many.
fn region_size(region_log: u32) -> usize
    ensures size { region_log ≤ 20 → result ≡ 2 ^ region_log }
    ensures none { 20 < region_log → result ≡ 0 }
{
    if region_log > 20 {
        return 0;
    }
    1 << region_log
}

/// Gives the regions back as the first words of a list. Fails with fault 12 if one isn't a host's.
pub(crate) fn keep_all(words: &mut [HostWords], mut regions: Vec<Region>) -> Result<(), Fault>
    requires few { vec_len regions ≤ length words.old }
    requires gone { All IsGone (take (vec_len regions) words.old) }
    ensures kept { OnOk result (map content words.new
        ≡ map held regions.items ++ map content (drop (vec_len regions) words.old)) }
    ensures fault { IfErr result IsNotLent }
{
    while let Some(region) = regions.pop() {
        let r = regions.len();
        if let Err(_other) = words[r].keep(region) {
            return Err(Fault::Workers);
        }
    }
    Ok(())
}

/// Gives each region of an image back, in its place. Fails with fault 12 if one isn't a host's.
pub(crate) fn keep_image(words: &mut [HostWords], image: Image) -> Result<(), Fault>
    requires gone { All IsGone words.old }
    requires count { length words.old ≡ region_count image }
    ensures kept { OnOk result (HoldImage image words.new) }
    ensures fault { IfErr result IsNotLent }
{
    keep_all(words, image.into_parts().regions)
}
