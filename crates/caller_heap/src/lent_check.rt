//! The check of a heap by several threads, where its words lie, in regions that a host lends.
ghost use Rattle.std.specs.Prelude.{◌≡◌, ◌≤◌, ◌⊎◌, [], All, IfErr, IfOk, IfSome, OnOk, Some, length, map, vec_len};
ghost use Rattle.std.specs.Vec.{vec_capacity};
ghost use Rattle.image_streams.specs.declared.fault.Fault.TheVariants.{Memory};
ghost use Rattle.object_heap.specs.HeapImage.{IsValid, region_count};
ghost use Rattle.heap_image.specs.ImageText.{first_fault, text};
ghost use Rattle.heap_image.specs.SharedCheck.{bytes_of, image_in};
ghost use Rattle.caller_heap.specs.HeapWords.{heap_bytes};
ghost use Rattle.caller_heap.specs.Lent.{AreBack, IsGone, IsNotLent, IsWhyLentKept, blocks_of, heap_in};
ghost use Rattle.caller_heap.specs.LentChecks.{HoldBlocks, IsCheckPartOf, heap_of_lent};
ghost use Rattle.caller_heap.specs.declared.part.Origin.{Origin};
ghost use Rattle.caller_heap.specs.declared.part.Origin.TheVariants.{Checked};

use crate::lending::{keep_all, lend_parts};
use crate::part::{Origin, Part, empty_parts};
use crate::settings::HeapSettings;
use heap_image::{Alone, CheckShare, Fault, Image, SharedCheck, Version, begin_check};
use raw_region::HostWords;
use std::alloc::{AllocError, Global};
use std::mem;

/// The check of the heap in these words, which lends each as a region, from address 0 up, with these live addresses in version 1,
/// otherwise roots. Finds the live objects. No word is copied.
///
/// The fault is the first fault of the bytes of the image, 3, 4, 6 or 17, or 4 if some words aren't held or are more or fewer
/// than a region has, or 11 if memory runs out. All words are held as they were then. No contract excludes fault 12, as none
/// follows whose memory a region has: after it nothing is promised of them.
pub fn check_of_lent(
    alloc: Global,
    version: Version,
    settings: HeapSettings,
    words: &mut [HostWords],
    tail: &[u64],
) -> Result<SharedCheck, Fault>
    ensures check { IfOk result (λ check. check ≡ heap_of_lent version settings words.old tail.now) }
    ensures bytes { OnOk result (heap_bytes version settings (heap_in words.old) tail.now
        ≡ bytes_of (heap_of_lent version settings words.old tail.now)) }
    ensures words { IfOk result (λ check. HoldBlocks check.blocks words.old) }
    ensures gone { OnOk result (All IsGone words.new) }
    ensures back { IfErr result (λ fault. AreBack words.old words.new ⊎ IsNotLent fault) }
    ensures fault { IfErr result
        (IsWhyLentKept settings.region_log words.old (heap_bytes version settings (heap_in words.old) tail.now)) }
{
    let parts = lend_parts(alloc, version, settings, words, tail)?;
    match begin_check(alloc, parts, &Alone) {
        Ok(check) => Ok(check),
        Err(refused) => {
            keep_all(words, refused.regions)?;
            Err(refused.fault)
        }
    }
}

/// Deals a check of the heap in these words to `workers` workers, and returns a part for each, which says that the words were
/// lent in a list at this place. [`end_check_lent`] ends it.
///
/// The fault is 11, if memory runs out: all words are held as they were then. No contract excludes fault 12, as none follows
/// whose memory a region has: so none promises the words after it.
pub fn begin_check_lent(
    alloc: Global,
    check: SharedCheck,
    words: &mut [HostWords],
    workers: u32,
    place: u64,
) -> Result<Vec<Box<Part, Global>>, Fault>
    requires some { 1 ≤ workers }
    requires gone { All IsGone words.old }
    requires count { length words.old ≡ length check.blocks }
    ensures parts { IfOk result (λ parts. All (λ part. IsCheckPartOf check (Checked place) part.value) parts.items) }
    ensures count { IfOk result (λ parts. vec_len parts ≡ workers) }
    ensures gone { OnOk result (All IsGone words.new) }
    ensures back { IfErr result (λ fault. HoldBlocks check.blocks words.new ⊎ IsNotLent fault) }
    ensures fault { IfErr result (λ fault. (fault ≡ Memory) ⊎ IsNotLent fault) }
{
    match boxed_checks(alloc, check, workers, Origin::Checked(place)) {
        Ok(parts) => Ok(parts),
        Err(Some(check)) => {
            keep_all(words, check.into_regions())?;
            Err(Fault::Memory)
        }
        // No share outlives its part. No contract says so.
        Err(None) => Err(Fault::Workers),
    }
}

/// Ends a check of the heap in these words by one of its shares, once its others are gone, and returns the image.
///
/// The fault is the first fault of the bytes of the image, 7 to 9. All words are held as they were then. Fails with fault 12 if
/// other shares are left: the words are lost then. No contract excludes fault 12 for another reason, as none follows whose memory
/// a region has.
pub fn end_check_lent(
    alloc: Global,
    share: CheckShare,
    words: &mut [HostWords],
) -> Result<Image, Fault>
    requires gone { All IsGone words.old }
    requires count { length words.old ≡ length share.blocks }
    ensures valid { IfOk result (λ image. IsValid image) }
    ensures text { IfOk result (λ image. text image ≡ bytes_of share) }
    ensures blocks { IfOk result (λ image. share.blocks ≡ blocks_of image) }
    ensures count { IfOk result (λ image. length words.new ≡ region_count image) }
    ensures gone { OnOk result (All IsGone words.new) }
    ensures back { IfErr result (λ fault. HoldBlocks share.blocks words.new ⊎ IsNotLent fault) }
    ensures fault { IfErr result (λ fault. (first_fault (bytes_of share) ≡ Some fault) ⊎ IsNotLent fault) }
{
    let Ok(check) = share.into_check() else {
        return Err(Fault::Workers);
    };
    match check.finish(alloc) {
        Ok(image) => Ok(image),
        Err(refused) => {
            keep_all(words, refused.regions)?;
            Err(refused.fault)
        }
    }
}

/// A part in a check for each of `workers` workers, in a box of its own. If memory runs out the check comes back, unless another
/// share of it is left.
fn boxed_checks(
    alloc: Global,
    check: SharedCheck,
    workers: u32,
    origin: Origin,
) -> Result<Vec<Box<Part, Global>>, Option<SharedCheck>>
    ensures count { IfOk result (λ boxes. vec_len boxes ≡ workers) }
    ensures parts { IfOk result (λ boxes. All (λ part. IsCheckPartOf check origin part.value) boxes.items) }
    ensures back { IfErr result (λ back. IfSome back (λ back. back ≡ check)) }
{
    let (Ok(room), Ok(empty)) = (
        Vec::with_capacity(alloc, workers as usize),
        empty_parts(alloc, workers, origin),
    ) else {
        return Err(Some(check));
    };
    match CheckShare::of(alloc, check) {
        Ok(share) => deal(share, empty, room),
        Err(check) => Err(Some(check)),
    }
}

/// Puts a share of the check into each of these parts, and those into a list that has room for them.
fn deal(
    share: CheckShare,
    parts: Vec<Box<Part, Global>>,
    whole: Vec<Box<Part, Global>>,
) -> Result<Vec<Box<Part, Global>>, Option<SharedCheck>>
    requires empty { whole.items ≡ [] }
    requires room { vec_len parts ≤ vec_capacity whole }
    ensures count { IfOk result (λ made. vec_len made ≡ vec_len parts) }
    ensures parts { IfOk result (λ made. (origin : Origin) → All (λ part. part.value.origin ≡ origin) parts.items
        → All (λ part. IsCheckPartOf share origin part.value) made.items) }
    ensures back { IfErr result (λ back. IfSome back (λ back. back ≡ share)) }
{
    match with_checks(&share, parts, whole) {
        Ok(made) => Ok(made),
        Err(AllocError) => Err(share.into_check().ok()),
    }
}

/// The same by a share that stays.
fn with_checks(
    share: &CheckShare,
    mut parts: Vec<Box<Part, Global>>,
    mut whole: Vec<Box<Part, Global>>,
) -> Result<Vec<Box<Part, Global>>, AllocError>
    requires empty { whole.items ≡ [] }
    requires room { vec_len parts ≤ vec_capacity whole }
    ensures count { IfOk result (λ made. vec_len made ≡ vec_len parts) }
    ensures parts { IfOk result (λ made. (origin : Origin) → All (λ part. part.value.origin ≡ origin) parts.items
        → All (λ part. IsCheckPartOf share.now origin part.value) made.items) }
{
    while let Some(mut part) = parts.pop() {
        let other = share.another()?;
        drop(mem::replace(&mut part.check, Some(other)));
        whole.push_reserved(part);
    }
    Ok(whole)
}
