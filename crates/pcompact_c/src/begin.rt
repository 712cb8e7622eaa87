//! The begin of a collection by several threads.
ghost use Rattle.std.specs.Prelude.{◌≡◌, ◌<◌, ◌≤◌, ◌⊎◌, ℕ, List, Option, Some, false, IsTrue, All, length, option_map, vec_len};
ghost use Rattle.collector.specs.Sessions.{held_of};
ghost use Rattle.pcompact_c.specs.Slides.{held_in};
ghost use Rattle.image_streams.specs.declared.fault.Fault.TheVariants.{Memory, Workers};
ghost use Rattle.object_heap.specs.declared.version.Version.TheVariants.{One, Three};
ghost use Rattle.object_heap.specs.HeapImage.{HeapImage, IsValid, region_count};
ghost use Rattle.heap_image.specs.ImageText.{text};
ghost use Rattle.caller_heap.specs.HeapWords.{heap_bytes};
ghost use Rattle.caller_heap.specs.Lent.{AreBack, HoldImage, IsGone, IsNotLent, IsWhyLentKept, heap_in};
ghost use Rattle.heap_image.specs.SharedCheck.{UncheckedHeap};
ghost use Rattle.caller_heap.specs.LentChecks.{IsCheckPartOf};
ghost use Rattle.caller_heap.specs.Parts.{IsPartOf};
ghost use Rattle.caller_heap.specs.declared.part.Origin.{Origin};
ghost use Rattle.caller_heap.specs.declared.part.Origin.TheVariants.{Copied, Lent};
ghost use Rattle.pcompact_c.specs.Checks.{IsCheckHandleOf};
ghost use Rattle.pcompact_c.specs.Faults.{IsFaultFor, IsOf};
ghost use Rattle.pcompact_c.specs.Handles.{AreReady, IsHandleOf, IsWhyNotBegun};

use crate::fault::PcompactFault;
use crate::handle::PcompactHandle;
use caller_heap::{
    HeapSettings, Origin, Part, begin_lent, boxed_parts, image_of_heap, image_of_lent,
};
use heap_image::{Fault, Image, Version};
use raw_region::HostWords;
use std::alloc::Global;

/// The most workers of a collection.
pub(crate) const MOST_WORKERS: usize = 64;

/// What the words of a heap that a host lends don't say.
#[repr(C)]
#[derive(Clone, Copy)]
pub struct PcompactLentSettings {
    pub heap: HeapSettings,
    /// Where the host has the list of these words.
    pub place: u64,
}

/// Begins a collection of the heap with these words and live addresses by as many workers as there are handles, and gives
/// each handle a worker's part. Works on a copy of the words. Returns the fault; after one the handles are as they were.
///
/// The fault is 12 if there aren't 1 to 64 handles or one is held, or the first fault of the bytes of its image, 3, 4 or 6
/// to 9, or 11 if memory runs out.
#[unsafe(no_mangle)]
pub extern "C" fn pcompact_begin(
    alloc: Global,
    words: &[u64],
    live: &[u64],
    settings: HeapSettings,
    handles: &mut [PcompactHandle],
) -> PcompactFault
    ensures begun { result.number ≡ 0 → (image : HeapImage) × IsValid image
        × (heap_bytes One settings words.now live.now ≡ text image)
        × All (IsHandleOf image Copied) handles.new }
    ensures ready { result.number ≡ 0 → AreReady handles.old }
    ensures kept { 0 < result.number → handles.new ≡ handles.old }
    ensures fault { 0 < result.number → IsFaultFor (IsWhyNotBegun (heap_bytes One settings words.now live.now)) result }
{
    if !are_ready(handles) {
        return PcompactFault::of(Fault::Workers);
    }
    match image_of_heap(alloc, Version::One, settings, words, live) {
        Ok(image) => deal(alloc, image, handles),
        Err(fault) => PcompactFault::of(fault),
    }
}

/// As [`pcompact_begin`], for a heap with roots. The first fault of the bytes of its image is 3, 4, 7 to 9 or 17.
#[unsafe(no_mangle)]
pub extern "C" fn pcompact_begin_rooted(
    alloc: Global,
    words: &[u64],
    roots: &[u64],
    settings: HeapSettings,
    handles: &mut [PcompactHandle],
) -> PcompactFault
    ensures begun { result.number ≡ 0 → (image : HeapImage) × IsValid image
        × (heap_bytes Three settings words.now roots.now ≡ text image)
        × All (IsHandleOf image Copied) handles.new }
    ensures ready { result.number ≡ 0 → AreReady handles.old }
    ensures kept { 0 < result.number → handles.new ≡ handles.old }
    ensures fault { 0 < result.number → IsFaultFor (IsWhyNotBegun (heap_bytes Three settings words.now roots.now)) result }
{
    if !are_ready(handles) {
        return PcompactFault::of(Fault::Workers);
    }
    match image_of_heap(alloc, Version::Three, settings, words, roots) {
        Ok(image) => deal(alloc, image, handles),
        Err(fault) => PcompactFault::of(fault),
    }
}

/// As [`pcompact_begin`], but the workers compact the words where they lie, a region each from address 0 up. None of them is
/// held then, and the end must name the same place. After a fault handles and words are as they were.
///
/// The fault is also 4 if some words aren't held or are more or fewer than a region has. No contract excludes fault 12 for
/// handles that are ready, as none follows whose memory a region has: after it nothing is promised of the words.
#[unsafe(no_mangle)]
pub extern "C" fn pcompact_begin_lent_at(
    alloc: Global,
    words: &mut [HostWords],
    live: &[u64],
    settings: PcompactLentSettings,
    handles: &mut [PcompactHandle],
) -> PcompactFault
    ensures begun { result.number ≡ 0 → (image : HeapImage) × IsValid image
        × (heap_bytes One settings.heap (heap_in words.old) live.now ≡ text image)
        × All (IsHandleOf image (Lent settings.place)) handles.new }
    ensures ready { result.number ≡ 0 → AreReady handles.old }
    ensures gone { result.number ≡ 0 → All IsGone words.new }
    ensures kept { 0 < result.number → handles.new ≡ handles.old }
    ensures back { 0 < result.number → AreBack words.old words.new ⊎ ((result.number ≡ 12) × AreReady handles.old) }
    ensures fault { 0 < result.number → IsFaultFor (λ fault. (fault ≡ Workers)
        ⊎ IsWhyLentKept settings.heap.region_log words.old (heap_bytes One settings.heap (heap_in words.old) live.now) fault) result }
{
    if !are_ready(handles) {
        return PcompactFault::of(Fault::Workers);
    }
    match image_of_lent(alloc, Version::One, settings.heap, words, live) {
        Ok(image) => deal_lent(alloc, image, settings.place, words, handles),
        Err(fault) => PcompactFault::of(fault),
    }
}

/// As [`pcompact_begin_lent_at`], for a heap with roots, with the faults of [`pcompact_begin_rooted`].
#[unsafe(no_mangle)]
pub extern "C" fn pcompact_begin_lent_rooted_at(
    alloc: Global,
    words: &mut [HostWords],
    roots: &[u64],
    settings: PcompactLentSettings,
    handles: &mut [PcompactHandle],
) -> PcompactFault
    ensures begun { result.number ≡ 0 → (image : HeapImage) × IsValid image
        × (heap_bytes Three settings.heap (heap_in words.old) roots.now ≡ text image)
        × All (IsHandleOf image (Lent settings.place)) handles.new }
    ensures ready { result.number ≡ 0 → AreReady handles.old }
    ensures gone { result.number ≡ 0 → All IsGone words.new }
    ensures kept { 0 < result.number → handles.new ≡ handles.old }
    ensures back { 0 < result.number → AreBack words.old words.new ⊎ ((result.number ≡ 12) × AreReady handles.old) }
    ensures fault { 0 < result.number → IsFaultFor (λ fault. (fault ≡ Workers)
        ⊎ IsWhyLentKept settings.heap.region_log words.old (heap_bytes Three settings.heap (heap_in words.old) roots.now) fault) result }
{
    if !are_ready(handles) {
        return PcompactFault::of(Fault::Workers);
    }
    match image_of_lent(alloc, Version::Three, settings.heap, words, roots) {
        Ok(image) => deal_lent(alloc, image, settings.place, words, handles),
        Err(fault) => PcompactFault::of(fault),
    }
}

/// Whether a collection can begin with these handles: they are 1 to 64, and none is held.
pub(crate) fn are_ready(handles: &mut [PcompactHandle]) -> bool
    ensures ready { IsTrue result → AreReady handles.old }
    ensures same { handles.new ≡ handles.old }
{
    1 <= handles.len() && handles.len() <= MOST_WORKERS && are_free(handles)
}

/// Whether no handle is held.
fn are_free(handles: &mut [PcompactHandle]) -> bool
    ensures free { IsTrue result → All (λ h. h.0 ≡ false) handles.old }
    ensures same { handles.new ≡ handles.old }
{
    for handle in handles.iter_mut() {
        if handle.is_held() {
            return false;
        }
    }
    true
}

/// Gives each handle a worker's part in the compaction of an image, whose words are a copy. Returns fault 11 if memory runs
/// out, and then the handles are as they were.
fn deal(alloc: Global, image: Image, handles: &mut [PcompactHandle]) -> PcompactFault
    requires ready { AreReady handles.old }
    ensures parts { result.number ≡ 0 → All (IsHandleOf image Copied) handles.new }
    ensures kept { 0 < result.number → handles.new ≡ handles.old }
    ensures fault { 0 < result.number → IsOf Workers result ⊎ IsOf Memory result }
{
    match boxed_parts(alloc, image, handles.len() as u32, Origin::Copied) {
        Ok(parts) => {
            hand_out(parts, handles);
            PcompactFault::NONE
        }
        Err(refusal) => PcompactFault::of(refusal.fault()),
    }
}

/// Gives each handle a worker's part in the compaction of an image whose words were lent from these, in a list at this
/// place. After fault 11 all is as it was, and after fault 12 the handles are.
pub(crate) fn deal_lent(
    alloc: Global,
    image: Image,
    place: u64,
    words: &mut [HostWords],
    handles: &mut [PcompactHandle],
) -> PcompactFault
    requires ready { AreReady handles.old }
    requires gone { All IsGone words.old }
    requires count { length words.old ≡ region_count image }
    ensures parts { result.number ≡ 0 → All (IsHandleOf image (Lent place)) handles.new }
    ensures gone { result.number ≡ 0 → All IsGone words.new }
    ensures kept { 0 < result.number → handles.new ≡ handles.old }
    ensures back { 0 < result.number → HoldImage image words.new ⊎ (result.number ≡ 12) }
    ensures fault { 0 < result.number → IsFaultFor (λ fault. (fault ≡ Memory) ⊎ IsNotLent fault) result }
{
    match begin_lent(alloc, image, words, handles.len() as u32, place) {
        Ok(parts) => {
            hand_out(parts, handles);
            PcompactFault::NONE
        }
        Err(fault) => PcompactFault::of(fault),
    }
}

/// Gives each handle one of as many parts.
pub(crate) fn hand_out(mut parts: Vec<Box<Part, Global>>, handles: &mut [PcompactHandle])
    requires free { All (λ h. h.0 ≡ false) handles.old }
    requires count { vec_len parts ≡ length handles.old }
    ensures parts { (image : HeapImage) → (origin : Origin) → All (λ part. IsPartOf image origin part.value) parts.items
        → All (IsHandleOf image origin) handles.new }
    ensures held { (held : Option (List (List ℕ))) → All (λ part. option_map held_of part.value.share ≡ Some held) parts.items
        → All (λ h. held_in h ≡ Some held) handles.new }
    ensures checks { (heap : UncheckedHeap) → (origin : Origin) → All (λ part. IsCheckPartOf heap origin part.value) parts.items
        → All (IsCheckHandleOf heap origin) handles.new }
{
    for handle in handles.iter_mut() {
        match parts.pop() {
            Some(part) => handle.enter(part),
            None => unreachable!(),
        }
    }
}
