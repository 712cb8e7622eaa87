//! The check of a heap by several threads, before its collection by them.
ghost use Rattle.std.specs.Prelude.{◌≡◌, ◌<◌, ◌≤◌, ◌⊎◌, false, All, IfErr, IfOk, IfSome, OnOk, Some, length};
ghost use Rattle.image_streams.specs.declared.fault.Fault.TheVariants.{Memory, Workers};
ghost use Rattle.object_heap.specs.declared.version.Version.TheVariants.{One, Three};
ghost use Rattle.object_heap.specs.HeapImage.{HeapImage, IsValid, region_count};
ghost use Rattle.heap_image.specs.ImageText.{first_fault, text};
ghost use Rattle.heap_image.specs.SharedCheck.{UncheckedHeap, bytes_of};
ghost use Rattle.caller_heap.specs.HeapWords.{heap_bytes};
ghost use Rattle.caller_heap.specs.Lent.{AreBack, IsGone, IsNotLent, IsWhyLentKept, blocks_of, heap_in};
ghost use Rattle.caller_heap.specs.LentChecks.{HoldBlocks, heap_of_lent};
ghost use Rattle.caller_heap.specs.declared.part.Origin.TheVariants.{Checked, Lent};
ghost use Rattle.pcompact_c.specs.Checks.{AreReleased, IsCheckHandleOf, IsWhyNotChecked, first_checked};
ghost use Rattle.pcompact_c.specs.Faults.{IsFaultFor};
ghost use Rattle.pcompact_c.specs.Handles.{AreFrom, AreReady, AreSpent, HaveNoParts, HaveSameParts, IsHandleOf};

use crate::begin::{MOST_WORKERS, PcompactLentSettings, are_ready, deal_lent, hand_out};
use crate::end::{are_all_of_one, are_gone};
use crate::fault::PcompactFault;
use crate::handle::PcompactHandle;
use crate::slide::have_regions;
use caller_heap::{Origin, Part, begin_check_lent, check_of_lent, end_check_lent};
use heap_image::{CheckShare, Fault, Image, SharedCheck, Version};
use raw_region::HostWords;
use std::alloc::Global;

/// Begins the check of the heap with these words, a region each from address 0 up, and these live addresses, by as many workers
/// as there are handles, and gives each handle a worker's part. No word is held until the collection ends, which
/// [`pcompact_begin_checked_at`] begins. After a fault handles and words are as they were.
///
/// The fault is 12 if there aren't 1 to 64 handles or one is held, or the first fault of the bytes of the heap's image, 3, 4 or
/// 6, or 4 if some words aren't held or are more or fewer than a region has, or 11 if memory runs out. No contract excludes fault
/// 12 for handles that are ready, as none follows whose memory a region has: after it nothing is promised of the words.
#[unsafe(no_mangle)]
pub extern "C" fn pcompact_begin_check_at(
    alloc: Global,
    words: &mut [HostWords],
    live: &[u64],
    settings: PcompactLentSettings,
    handles: &mut [PcompactHandle],
) -> PcompactFault
    ensures begun { result.number ≡ 0
        → All (IsCheckHandleOf (heap_of_lent One settings.heap words.old live.now) (Checked settings.place)) handles.new }
    ensures ready { result.number ≡ 0 → AreReady handles.old }
    ensures gone { result.number ≡ 0 → All IsGone words.new }
    ensures kept { 0 < result.number → handles.new ≡ handles.old }
    ensures back { 0 < result.number → AreBack words.old words.new ⊎ ((result.number ≡ 12) × AreReady handles.old) }
    ensures fault { 0 < result.number → IsFaultFor (λ fault. (fault ≡ Workers)
        ⊎ IsWhyLentKept settings.heap.region_log words.old (heap_bytes One settings.heap (heap_in words.old) live.now) fault) result }
{
    if !are_ready(handles) {
        return PcompactFault::of(Fault::Workers);
    }
    match check_of_lent(alloc, Version::One, settings.heap, words, live) {
        Ok(check) => deal_check(alloc, check, settings.place, words, handles),
        Err(fault) => PcompactFault::of(fault),
    }
}

/// As [`pcompact_begin_check_at`], for a heap with roots. Marks what they reach. The first fault of the bytes of its image is 3, 4
/// or 17.
#[unsafe(no_mangle)]
pub extern "C" fn pcompact_begin_check_rooted_at(
    alloc: Global,
    words: &mut [HostWords],
    roots: &[u64],
    settings: PcompactLentSettings,
    handles: &mut [PcompactHandle],
) -> PcompactFault
    ensures begun { result.number ≡ 0
        → All (IsCheckHandleOf (heap_of_lent Three settings.heap words.old roots.now) (Checked settings.place)) handles.new }
    ensures ready { result.number ≡ 0 → AreReady handles.old }
    ensures gone { result.number ≡ 0 → All IsGone words.new }
    ensures kept { 0 < result.number → handles.new ≡ handles.old }
    ensures back { 0 < result.number → AreBack words.old words.new ⊎ ((result.number ≡ 12) × AreReady handles.old) }
    ensures fault { 0 < result.number → IsFaultFor (λ fault. (fault ≡ Workers)
        ⊎ IsWhyLentKept settings.heap.region_log words.old (heap_bytes Three settings.heap (heap_in words.old) roots.now) fault) result }
{
    if !are_ready(handles) {
        return PcompactFault::of(Fault::Workers);
    }
    match check_of_lent(alloc, Version::Three, settings.heap, words, roots) {
        Ok(check) => deal_check(alloc, check, settings.place, words, handles),
        Err(fault) => PcompactFault::of(fault),
    }
}

/// Ends the check of a heap, and begins its collection by the same handles: each has a worker's part in that then. Checks what
/// no thread has. `handles` are all those of one begin of a check, `words` those that it lent, and `place` is the one that it
/// named.
///
/// The fault is 12 if these aren't the handles of one check with this place, or 4 if the words aren't as many regions as there or
/// some are held: then handles and words are as they were, and the check goes on. It is the first fault of the bytes of the heap's
/// image, 7 to 9, or 11 if memory runs out: then the words are held as they were, and no handle is. No contract excludes that none
/// is held after fault 12 and nothing is promised of the words, as none follows which handles are all of one check, and whose
/// memory a region has.
#[unsafe(no_mangle)]
pub extern "C" fn pcompact_begin_checked_at(
    alloc: Global,
    handles: &mut [PcompactHandle],
    words: &mut [HostWords],
    place: u64,
) -> PcompactFault
    ensures origin { AreFrom (Checked place) handles.old ⊎ (result.number ≡ 12) }
    ensures begun { result.number ≡ 0 → (heap : UncheckedHeap) × (image : HeapImage)
        × (first_checked handles.old ≡ Some heap) × IsValid image × (text image ≡ bytes_of heap)
        × All (IsHandleOf image (Lent place)) handles.new }
    ensures gone { result.number ≡ 0 → All IsGone words.new }
    ensures kept { 0 < result.number → ((words.new ≡ words.old) × HaveSameParts handles.old handles.new)
        ⊎ (AreReleased handles.old handles.new words.new ⊎ ((result.number ≡ 12) × AreSpent (Checked place) handles.old handles.new)) }
    ensures fault { 0 < result.number → IsFaultFor (IsWhyNotChecked handles.old) result }
{
    if handles.len() > MOST_WORKERS || !are_all_of_one(alloc, Origin::Checked(place), handles) {
        return PcompactFault::of(Fault::Workers);
    }
    if !have_regions(alloc, handles, words.len()) || !are_gone(words) {
        return PcompactFault::of(Fault::Length);
    }
    match image_checked(alloc, handles, words) {
        Ok(image) => deal_lent(alloc, image, place, words, handles),
        Err(fault) => PcompactFault::of(fault),
    }
}

/// Gives each handle a worker's part in a check of the heap in these words, in a list at this place. After fault 11 all is as it
/// was, and after fault 12 the handles are.
fn deal_check(
    alloc: Global,
    check: SharedCheck,
    place: u64,
    words: &mut [HostWords],
    handles: &mut [PcompactHandle],
) -> PcompactFault
    requires ready { AreReady handles.old }
    requires gone { All IsGone words.old }
    requires count { length words.old ≡ length check.blocks }
    ensures parts { result.number ≡ 0 → All (IsCheckHandleOf check (Checked place)) handles.new }
    ensures gone { result.number ≡ 0 → All IsGone words.new }
    ensures kept { 0 < result.number → handles.new ≡ handles.old }
    ensures back { 0 < result.number → HoldBlocks check.blocks words.new ⊎ (result.number ≡ 12) }
    ensures fault { 0 < result.number → IsFaultFor (λ fault. (fault ≡ Memory) ⊎ IsNotLent fault) result }
{
    match begin_check_lent(alloc, check, words, handles.len() as u32, place) {
        Ok(parts) => {
            hand_out(parts, handles);
            PcompactFault::NONE
        }
        Err(fault) => PcompactFault::of(fault),
    }
}

/// Takes the shares of a check out of these handles, ends it, and returns the image of the heap in these words. After a fault the
/// words are held as they were, unless it is 12.
fn image_checked(
    alloc: Global,
    handles: &mut [PcompactHandle],
    words: &mut [HostWords],
) -> Result<Image, Fault>
    requires some { 1 ≤ length handles.old }
    requires gone { All IsGone words.old }
    ensures image { IfOk result (λ image. (heap : UncheckedHeap) × (first_checked handles.old ≡ Some heap)
        × IsValid image × (text image ≡ bytes_of heap) × (heap.blocks ≡ blocks_of image)) }
    ensures count { IfOk result (λ image. length words.new ≡ region_count image) }
    ensures gone { OnOk result (All IsGone words.new) }
    ensures free { All (λ h. h.0 ≡ false) handles.new }
    ensures none { HaveNoParts handles.new }
    ensures back { IfErr result (λ fault. ((heap : UncheckedHeap) × (first_checked handles.old ≡ Some heap)
        × HoldBlocks heap.blocks words.new) ⊎ IsNotLent fault) }
    ensures fault { IfErr result (λ fault. ((heap : UncheckedHeap) × (first_checked handles.old ≡ Some heap)
        × (first_fault (bytes_of heap) ≡ Some fault)) ⊎ IsNotLent fault) }
{
    let Some(share) = take_check(alloc, handles) else {
        return Err(Fault::Workers);
    };
    if share.regions() != words.len() {
        return Err(Fault::Workers);
    }
    end_check_lent(alloc, share, words)
}

/// Takes the parts out of these handles. Returns the share of the first one's check; the others are gone.
fn take_check(alloc: Global, handles: &mut [PcompactHandle]) -> Option<CheckShare>
    requires { 1 ≤ length handles.old }
    ensures share { IfSome result (λ share. first_checked handles.old ≡ Some share) }
    ensures free { All (λ h. h.0 ≡ false) handles.new }
    ensures none { HaveNoParts handles.new }
    ensures count { length handles.new ≡ length handles.old }
{
    let first = handles[0].leave(alloc);
    release_all(alloc, handles);
    check_of(first?)
}

/// The share in a check that a part has.
fn check_of(part: Box<Part, Global>) -> Option<CheckShare>
    ensures { result ≡ part.value.check }
{
    let Part { check, .. } = Box::into_inner(part);
    check
}

/// Takes the part out of each handle that has one, and drops it.
fn release_all(alloc: Global, handles: &mut [PcompactHandle])
    ensures free { All (λ h. h.0 ≡ false) handles.new }
    ensures none { HaveNoParts handles.new }
    ensures count { length handles.new ≡ length handles.old }
{
    for handle in handles.iter_mut() {
        drop(handle.leave(alloc));
    }
}
