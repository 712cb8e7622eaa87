//! Slides of opaque objects, by the host's threads.
ghost use Rattle.std.specs.Prelude.{◌≡◌, ◌<◌, ◌≤◌, ◌⊎◌, ◌^◌, ℕ, List, ◌++◌, ◌∷◌, [], Some, None, Err, IfOk, OnOk, IfErr, IfSome, IfNone, All, map, length};
ghost use Rattle.std.specs.Int.{div_ceil};
ghost use Rattle.image_streams.specs.declared.fault.Fault.TheVariants.{Length, Memory, Workers};
ghost use Rattle.object_heap.specs.HeapImage.{HeapImage};
ghost use Rattle.mark_bitmap.specs.OpaqueObjects.{opaque_image};
ghost use Rattle.collector.specs.Collections.{figures_of};
ghost use Rattle.collector.specs.Sessions.{image_of, held_of};
ghost use Rattle.collector.specs.declared.session.share.Share.{Share};
ghost use Rattle.caller_heap.specs.Lent.{AreBack, IsGone, words_in};
ghost use Rattle.caller_heap.specs.Slides.{HoldSlid, IsWhyNotSlid, planned_in};
ghost use Rattle.caller_heap.specs.declared.part.Origin.TheVariants.{Slid};
ghost use Rattle.pcompact_c.specs.Answers.{IsSummaryOf};
ghost use Rattle.pcompact_c.specs.Checks.{checked_in};
ghost use Rattle.pcompact_c.specs.Faults.{IsFaultFor};
ghost use Rattle.pcompact_c.specs.Handles.{Handle, AreFrom, AreReady, AreSpent, HaveNoParts, HaveSameParts, IsWhyNotEnded, share_in};
ghost use Rattle.pcompact_c.specs.Slides.{IsLast, IsSlidHandle, IsWhyNotPlanned, plan_in};

use crate::answer::PcompactAnswer;
use crate::begin::{are_ready, hand_out};
use crate::end::{are_all_of_one, are_gone, room_for, take_shares};
use crate::fault::PcompactFault;
use crate::handle::PcompactHandle;
use caller_heap::{HeapSettings, Origin, Part, PlannedSlide, SlideBack, begin_slide, end_slide};
use collector::{Figures, Share, Slide};
use heap_image::Fault;
use mark_bitmap::{OpaqueHeap, OpaqueObjects};
use raw_region::HostWords;
use std::alloc::Global;
use std::mem;

/// The numbers of a heap of opaque objects, laid out as C has them.
#[repr(C)]
#[derive(Clone, Copy)]
pub struct PcompactOpaqueHeap {
    pub settings: HeapSettings,
    /// The number of words, which the words of a region need not divide.
    pub words: u64,
}

/// Plans the slide of opaque objects at these ascending addresses with these sizes in words, of as many, for a handle that isn't
/// held. Takes no words: they may change until the slide begins. Returns the fault; after one the handle is as it was.
///
/// The fault is 12 if the handle is held, 4 if there are not as many sizes, 3 or 4 of the heap's numbers, or that of the first
/// object with which something is wrong: 6 out of order or outside, 7 without a word or too long, 8 over the one before it. It is
/// 11 if memory runs out.
#[unsafe(no_mangle)]
pub extern "C" fn pcompact_plan_at(
    alloc: Global,
    live: &[u64],
    sizes: &[u32],
    heap: PcompactOpaqueHeap,
    plan: &mut PcompactHandle,
) -> PcompactFault
    ensures planned { result.number ≡ 0 → plan_in plan.new
        ≡ Some (opaque_image heap.settings.region_log heap.settings.allowance (div_ceil heap.words (2 ^ heap.settings.region_log)) live.now sizes.now) }
    ensures kept { 0 < result.number → plan.new ≡ plan.old }
    ensures fault { 0 < result.number
        → IsFaultFor (IsWhyNotPlanned heap.settings.region_log heap.words live.now sizes.now) result }
{
    if plan.is_held() {
        return PcompactFault::of(Fault::Workers);
    }
    match planned(alloc, live, sizes, heap) {
        Ok(part) => {
            plan.enter(part);
            PcompactFault::NONE
        }
        Err(fault) => PcompactFault::of(fault),
    }
}

/// A part with the planned slide of these objects.
pub(crate) fn planned(
    alloc: Global,
    live: &[u64],
    sizes: &[u32],
    heap: PcompactOpaqueHeap,
) -> Result<Box<Part, Global>, Fault>
    ensures share { IfOk result (λ part. part.value.share ≡ None) }
    ensures slide { IfOk result (λ part. part.value.slide
        ≡ Some (opaque_image heap.settings.region_log heap.settings.allowance (div_ceil heap.words (2 ^ heap.settings.region_log)) live.now sizes.now)) }
    ensures fault { IfErr result (IsWhyNotPlanned heap.settings.region_log heap.words live.now sizes.now) }
{
    if live.len() != sizes.len() {
        return Err(Fault::Length);
    }
    let numbers = OpaqueHeap {
        region_log: heap.settings.region_log,
        allowance: heap.settings.allowance,
        words: heap.words,
    };
    let objects = OpaqueObjects::new(numbers, live, sizes)?;
    let slide = Slide::plan(alloc, &objects)?;
    let part = Part {
        share: None,
        check: None,
        slide: Some(PlannedSlide::new(slide)),
        marking: None,
        origin: Origin::Planned,
    };
    Ok(Box::new(alloc, part)?)
}

/// Gives a handle that isn't held the slide that another has planned, which keeps it: so several threads can ask where words will
/// go, each by a handle of its own. The slide can't begin before all others have forgotten it. Returns the fault, 12 if nothing is
/// planned or the other handle is held, or 11 if memory runs out; after one both handles are as they were.
#[unsafe(no_mangle)]
pub extern "C" fn pcompact_share_plan(
    alloc: Global,
    plan: &mut PcompactHandle,
    other: &mut PcompactHandle,
) -> PcompactFault
    ensures shared { result.number ≡ 0 → (image : HeapImage) × (plan_in plan.old ≡ Some image) × (plan_in other.new ≡ Some image) }
    ensures same { plan.new.2 ≡ plan.old.2 }
    ensures kept { 0 < result.number → other.new ≡ other.old }
    ensures fault { 0 < result.number → IsFaultFor (λ fault. (fault ≡ Workers) ⊎ (fault ≡ Memory)) result }
{
    if other.is_held() {
        return PcompactFault::of(Fault::Workers);
    }
    let Some(mut part) = plan.leave(alloc) else {
        return PcompactFault::of(Fault::Workers);
    };
    let shared = share_plan(alloc, &mut part);
    plan.enter(part);
    match shared {
        Ok(part) => {
            other.enter(part);
            PcompactFault::NONE
        }
        Err(fault) => PcompactFault::of(fault),
    }
}

/// Another part with the planned slide of this one, which keeps it.
fn share_plan(alloc: Global, part: &mut Box<Part, Global>) -> Result<Box<Part, Global>, Fault>
    ensures slide { IfOk result (λ other. (image : HeapImage) × (planned_in part.old.value.share part.old.value.slide ≡ Some image)
        × (planned_in other.value.share other.value.slide ≡ Some image)) }
    ensures same { part.new.value ≡ part.old.value }
    ensures fault { IfErr result (λ fault. (fault ≡ Workers) ⊎ (fault ≡ Memory)) }
{
    let Some(planned) = take_planned(part) else {
        return Err(Fault::Workers);
    };
    let (planned, other) = planned.share(alloc);
    put_planned(part, planned);
    let other = Part {
        share: None,
        check: None,
        slide: Some(other?),
        marking: None,
        origin: Origin::Planned,
    };
    Ok(Box::new(alloc, other)?)
}

/// Forgets the planned slide or the marking of a handle, if it has one. Returns 0, or 12 if the handle has a worker's part, and then keeps it.
#[unsafe(no_mangle)]
pub extern "C" fn pcompact_forget(alloc: Global, plan: &mut PcompactHandle) -> u32
    ensures gone { result ≡ 0 → plan.new.2 ≡ None }
    ensures kept { 0 < result → plan.new.2 ≡ plan.old.2 }
    ensures share { IfSome (share_in plan.old) (λ _. result ≡ 12) }
    ensures check { IfSome (checked_in plan.old) (λ _. result ≡ 12) }
{
    let Some(part) = plan.leave(alloc) else {
        return 0;
    };
    if part.share.is_none() && part.check.is_none() {
        return 0;
    }
    plan.enter(part);
    12
}

/// Begins the slide that a handle has planned by as many workers as there are handles, and gives each handle a worker's part. The
/// workers slide the words where they lie, a region each from address 0 up. None of them is held then, and the end must name the
/// same place. After a fault all is as it was.
///
/// The fault is 12 if nothing is planned or another handle shares the plan, there aren't 1 to 64 handles or one is held, 4 if the
/// words aren't as many regions as the plan has, or some aren't held or are more or fewer than a region has, or 11 if memory runs
/// out. No contract excludes fault 12 for another reason, as none follows whose memory a region has: after it nothing is promised
/// of the words.
#[unsafe(no_mangle)]
pub extern "C" fn pcompact_begin_slide_at(
    alloc: Global,
    plan: &mut PcompactHandle,
    words: &mut [HostWords],
    handles: &mut [PcompactHandle],
    place: u64,
) -> PcompactFault
    ensures begun { result.number ≡ 0 → (image : HeapImage) × (plan_in plan.old ≡ Some image)
        × All (IsSlidHandle image (map words_in words.old) (Slid place)) handles.new }
    ensures ready { result.number ≡ 0 → AreReady handles.old }
    ensures taken { result.number ≡ 0 → plan.new.2 ≡ None }
    ensures gone { result.number ≡ 0 → All IsGone words.new }
    ensures kept { 0 < result.number → (handles.new ≡ handles.old) × (plan.new.2 ≡ plan.old.2) }
    ensures back { 0 < result.number → AreBack words.old words.new ⊎ (result.number ≡ 12) }
    ensures fault { 0 < result.number → IsFaultFor IsWhyNotSlid result }
{
    if !are_ready(handles) {
        return PcompactFault::of(Fault::Workers);
    }
    let Some(mut part) = plan.leave(alloc) else {
        return PcompactFault::of(Fault::Workers);
    };
    let Some(slide) = take_slide(&mut part) else {
        plan.enter(part);
        return PcompactFault::of(Fault::Workers);
    };
    match begin_slide(alloc, slide, words, handles.len() as u32, place) {
        Ok(parts) => {
            hand_out(parts, handles);
            PcompactFault::NONE
        }
        Err(SlideBack { slide, fault }) => {
            put_planned(&mut part, PlannedSlide::new(slide));
            plan.enter(part);
            PcompactFault::of(fault)
        }
    }
}

/// The planned slide of a part that has no share, which has none then either. `None` also if it is shared.
fn take_slide(part: &mut Box<Part, Global>) -> Option<Slide>
    ensures slide { IfSome result (λ slide. part.old.value.slide ≡ Some slide) }
    ensures share { IfSome result (λ _. part.old.value.share ≡ None) }
    ensures rest { IfSome result (λ _. part.new.value ≡ record part.old.value { slide = None }) }
    ensures kept { IfNone result (part.new.value ≡ part.old.value) }
{
    match take_planned(part)?.into_slide() {
        Ok(slide) => Some(slide),
        Err(planned) => {
            put_planned(part, planned);
            None
        }
    }
}

/// What a part that has no share has planned, which has nothing planned then either.
fn take_planned(part: &mut Box<Part, Global>) -> Option<PlannedSlide>
    ensures slide { IfSome result (λ planned. part.old.value.slide ≡ Some planned) }
    ensures share { IfSome result (λ _. part.old.value.share ≡ None) }
    ensures rest { IfSome result (λ _. part.new.value ≡ record part.old.value { slide = None }) }
    ensures kept { IfNone result (part.new.value ≡ part.old.value) }
{
    if part.share.is_some() {
        return None;
    }
    mem::replace(&mut part.slide, None)
}

/// Gives a part without one a planned slide.
fn put_planned(part: &mut Box<Part, Global>, planned: PlannedSlide)
    ensures { part.new.value ≡ record part.old.value { slide = Some planned } }
{
    drop(mem::replace(&mut part.slide, Some(planned)));
}

/// Ends a slide by several threads: fills what is left to fill, and gives each region back in its place. `handles` are all those
/// of one begin, `words` those that it lent, and `place` is the one that it named.
///
/// The fault is 12 if these aren't the handles of one begin of a slide with this place, 4 if the words are not as many regions as
/// there or some are held, or 11 if memory runs out: then handles and words are as they were, and the slide goes on. After 0 no
/// handle is held. No contract excludes that none is held after fault 12 and nothing is promised of the words, as none follows
/// which handles are all of one begin, and whose memory a region has.
#[unsafe(no_mangle)]
pub extern "C" fn pcompact_end_slide_at(
    alloc: Global,
    handles: &mut [PcompactHandle],
    words: &mut [HostWords],
    place: u64,
) -> PcompactAnswer
    ensures origin { AreFrom (Slid place) handles.old ⊎ (result.fault.number ≡ 12) }
    ensures free { result.fault.number ≡ 0 → HaveNoParts handles.new }
    ensures slid { result.fault.number ≡ 0 → (last : Handle) → IsLast last handles.old
        → (image : HeapImage) (blocks : List (List ℕ)) → IsSlidHandle image blocks (Slid place) last
        → HoldSlid image blocks words.new × IsSummaryOf image result }
    ensures kept { 0 < result.fault.number → ((words.new ≡ words.old) × HaveSameParts handles.old handles.new)
        ⊎ ((result.fault.number ≡ 12) × AreSpent (Slid place) handles.old handles.new) }
    ensures fault { 0 < result.fault.number → IsFaultFor IsWhyNotEnded result.fault }
{
    PcompactAnswer::of(end_slid(alloc, handles, words, place))
}

/// Ends the slide of these handles, whose words were lent in a list at this place, and puts the words back. After a fault all is
/// as it was, unless no handle has a share after fault 12.
fn end_slid(
    alloc: Global,
    handles: &mut [PcompactHandle],
    words: &mut [HostWords],
    place: u64,
) -> Result<Figures, Fault>
    ensures origin { AreFrom (Slid place) handles.old ⊎ (result ≡ Err Workers) }
    ensures free { OnOk result (HaveNoParts handles.new) }
    ensures slid { IfOk result (λ figures. (last : Handle) → IsLast last handles.old
        → (image : HeapImage) (blocks : List (List ℕ)) → IsSlidHandle image blocks (Slid place) last
        → HoldSlid image blocks words.new × (figures ≡ figures_of image)) }
    ensures kept { IfErr result (λ fault. ((words.new ≡ words.old) × HaveSameParts handles.old handles.new)
        ⊎ ((fault ≡ Workers) × AreSpent (Slid place) handles.old handles.new)) }
    ensures fault { IfErr result IsWhyNotEnded }
{
    if !are_all_of_one(alloc, Origin::Slid(place), handles) {
        return Err(Fault::Workers);
    }
    if !have_regions(alloc, handles, words.len()) || !are_gone(words) {
        return Err(Fault::Length);
    }
    let room = room_for(alloc, handles.len())?;
    match take_shares(alloc, Ok(room), handles) {
        Ok(shares) => end_shares(shares, words),
        Err(_) => Err(Fault::Workers),
    }
}

/// Whether the slide, or the check, of these handles has `regions` regions.
pub(crate) fn have_regions(alloc: Global, handles: &mut [PcompactHandle], regions: usize) -> bool
    requires { 1 ≤ length handles.old }
    ensures { HaveSameParts handles.old handles.new }
{
    handles[0].has_regions(alloc, regions)
}

/// Ends the slide of these shares into words that are as many regions. Fails with fault 12 if they aren't all of one slide over
/// lent words.
fn end_shares(mut shares: Vec<Share>, words: &mut [HostWords]) -> Result<Figures, Fault>
    requires gone { All IsGone words.old }
    ensures slid { IfOk result (λ figures. (others : List Share) × (last : Share) × (shares.items ≡ others ++ last ∷ [])
        × ((blocks : List (List ℕ)) → held_of last ≡ Some blocks → HoldSlid (image_of last) blocks words.new)
        × (figures ≡ figures_of (image_of last))) }
    ensures fault { IfErr result (λ fault. fault ≡ Workers) }
{
    let Some(share) = shares.pop() else {
        return Err(Fault::Workers);
    };
    if share.regions() as usize != words.len() {
        return Err(Fault::Workers);
    }
    end_slide(words, share, shares)
}
