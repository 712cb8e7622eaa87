//! Markings of the objects that a host's roots reach, and the plan of their slide.
ghost use Rattle.std.specs.Prelude.{◌≡◌, ◌⊎◌, ◌<◌, [], Some, None, false, length, map, IfOk, IfErr};
ghost use Rattle.image_streams.specs.declared.fault.Fault.TheVariants.{Length, Memory, Workers};
ghost use Rattle.object_heap.specs.HeapImage.{HeapImage, heap_words, reachable, size_at};
ghost use Rattle.object_heap.specs.Layout.{IsCoding};
ghost use Rattle.object_heap.specs.Reachable.{is_listed};
ghost use Rattle.object_coding.specs.ObjectLayout.{coding_of};
ghost use Rattle.coded_marking.specs.Marking.{Marks};
ghost use Rattle.caller_heap.specs.Markings.{IsMarkedFrom};
ghost use Rattle.caller_heap.specs.declared.settings.HeapSettings.{HeapSettings};
ghost use Rattle.pcompact_c.specs.Faults.{IsFaultFor};
ghost use Rattle.pcompact_c.specs.Layouts.{IsLayoutFault};
ghost use Rattle.pcompact_c.specs.Markings.{marking_in, heap_by, slide_of, IsWhyNotMarked, IsWhyMarkedNotPlanned};
ghost use Rattle.pcompact_c.specs.Slides.{plan_in};

use crate::fault::PcompactFault;
use crate::handle::PcompactHandle;
use crate::layout::coding_for;
use crate::slide::{PcompactOpaqueHeap, planned};
use caller_heap::{HeapSettings, Origin, Part};
use coded_marking::{CodedHeap, ListError, LiveObjects, Marking};
use heap_image::Fault;
use object_coding::ObjectLayout;
use std::alloc::Global;

/// Begins a marking of a heap with this number of words, for a handle that isn't held. Nothing is marked yet. Takes all memory that
/// marking needs: 2 bits for each word and 128 KiB.
///
/// Returns the fault, 12 if the handle is held, 4 if there are more than 68,719,476,736 words, or 11 if memory runs out. After one
/// the handle is as it was.
#[unsafe(no_mangle)]
pub extern "C" fn pcompact_begin_marking(
    alloc: Global,
    words: u64,
    marking: &mut PcompactHandle,
) -> PcompactFault
    ensures begun { result.number ≡ 0 → marking_in marking.new ≡ Some (record { words = words; marked = [] }) }
    ensures reached { result.number ≡ 0 → (image : HeapImage) → heap_words image ≡ words → reachable image [] ≡ [] }
    ensures kept { 0 < result.number → marking.new ≡ marking.old }
    ensures fault { 0 < result.number → IsFaultFor (λ fault. (fault ≡ Workers) ⊎ ((fault ≡ Length) ⊎ (fault ≡ Memory))) result }
{
    if marking.is_held() {
        return PcompactFault::of(Fault::Workers);
    }
    match empty_marking(alloc, words) {
        Ok(part) => {
            marking.enter(part);
            PcompactFault::NONE
        }
        Err(fault) => PcompactFault::of(fault),
    }
}

/// A part with a marking of a heap with this number of words.
fn empty_marking(alloc: Global, words: u64) -> Result<Box<Part, Global>, Fault>
    ensures marking { IfOk result (λ part. part.value.marking ≡ Some (record { words = words; marked = [] })) }
    ensures reached { IfOk result (λ _. (image : HeapImage) → heap_words image ≡ words → reachable image [] ≡ []) }
    ensures fault { IfErr result (λ fault. (fault ≡ Length) ⊎ (fault ≡ Memory)) }
{
    if words > 68_719_476_736 {
        return Err(Fault::Length);
    }
    let part = Part {
        share: None,
        check: None,
        slide: None,
        marking: Some(Marking::new(alloc, words)?),
        origin: Origin::Planned,
    };
    Ok(Box::new(alloc, part)?)
}

/// Marks the objects that these roots reach, in any number of calls: what was marked stays marked. Takes no memory.
///
/// Returns the fault: 12 if the handle has no marking, 4 if that is of another number of words, 18 for the layout, and then nothing
/// more is marked; or 7 with the address of a reached object without a sound header, and then only a part of what is reached may be.
#[unsafe(no_mangle)]
pub extern "C" fn pcompact_mark(
    alloc: Global,
    marking: &mut PcompactHandle,
    words: &[u64],
    layout: &ObjectLayout,
    roots: &[u64],
) -> PcompactFault
    ensures marked { result.number ≡ 0 → (before : Marks) → marking_in marking.old ≡ Some before
        → (after : Marks) × (marking_in marking.new ≡ Some after) × IsMarkedFrom (heap_by layout.now words.now) roots.now before after }
    ensures lawful { result.number ≡ 0 → IsCoding (coding_of layout.now (length words.now)) (length words.now) }
    ensures fault { 0 < result.number → IsWhyNotMarked layout.now words.now result }
{
    let coding = match coding_for(layout, words.len() as u64) {
        Ok(coding) => coding,
        Err(fault) => return fault,
    };
    let Some(heap) = CodedHeap::new(words, &coding) else {
        return PcompactFault::of(Fault::Length);
    };
    match marking.mark(alloc, &heap, roots) {
        Ok(()) => PcompactFault::NONE,
        Err(fault) => PcompactFault::of(fault),
    }
}

/// Whether the object at this address is marked. None is if the handle has no marking.
#[unsafe(no_mangle)]
pub extern "C" fn pcompact_is_reached(
    alloc: Global,
    marking: &mut PcompactHandle,
    address: u64,
) -> bool
    ensures part { marking.new.2 ≡ marking.old.2 }
    ensures marking { (marks : Marks) → marking_in marking.old ≡ Some marks → result ≡ is_listed marks.marked address }
    ensures none { marking_in marking.old ≡ None → result ≡ false }
{
    marking.is_reached(alloc, address)
}

/// Plans the slide of the objects that are marked, in place of their marking.
///
/// Returns the fault, and then the marking is as it was: 12 if the handle has none, 4 if that is of another number of words, 18 for
/// the layout, 11 if memory runs out, or what keeps the slide of the marked objects from being planned: 3 or 4 for the settings, 7
/// for one with 2^32 words or more, 8 over another.
#[unsafe(no_mangle)]
pub extern "C" fn pcompact_plan_marked_at(
    alloc: Global,
    marking: &mut PcompactHandle,
    words: &[u64],
    layout: &ObjectLayout,
    settings: HeapSettings,
) -> PcompactFault
    ensures planned { result.number ≡ 0 → (marks : Marks) × (marking_in marking.old ≡ Some marks)
        × (plan_in marking.new ≡ Some (slide_of (heap_by layout.now words.now) marks.marked settings)) }
    ensures kept { 0 < result.number → marking.new.2 ≡ marking.old.2 }
    ensures fault { 0 < result.number → (marks : Marks) → marking_in marking.old ≡ Some marks
        → IsLayoutFault layout.now (length words.now) result
        ⊎ IsFaultFor (IsWhyMarkedNotPlanned (heap_by layout.now words.now) marks.marked settings) result }
{
    let coding = match coding_for(layout, words.len() as u64) {
        Ok(coding) => coding,
        Err(fault) => return fault,
    };
    let Some(heap) = CodedHeap::new(words, &coding) else {
        return PcompactFault::of(Fault::Length);
    };
    let Some(part) = marking.leave(alloc) else {
        return PcompactFault::of(Fault::Workers);
    };
    match plan_marked(alloc, &part, &heap, settings) {
        Ok(planned) => {
            marking.enter(planned);
            PcompactFault::NONE
        }
        Err(fault) => {
            marking.enter(part);
            PcompactFault::of(fault)
        }
    }
}

/// A part with the planned slide of the objects that another has marked.
fn plan_marked(
    alloc: Global,
    part: &Box<Part, Global>,
    heap: &CodedHeap<'_>,
    settings: HeapSettings,
) -> Result<Box<Part, Global>, Fault>
    ensures planned { IfOk result (λ planned. (marks : Marks) × (part.now.value.marking ≡ Some marks) × (planned.value.share ≡ None)
        × (planned.value.slide ≡ Some (slide_of heap.now marks.marked settings))) }
    ensures fault { IfErr result (λ fault. (marks : Marks) → part.now.value.marking ≡ Some marks
        → IsWhyMarkedNotPlanned heap.now marks.marked settings fault) }
{
    let Some(marking) = &part.marking else {
        return Err(Fault::Workers);
    };
    let live = list_marked(alloc, marking, heap)?;
    let numbers = PcompactOpaqueHeap {
        settings,
        words: heap.len(),
    };
    planned(
        alloc,
        live.addresses.as_slice(),
        live.sizes.as_slice(),
        numbers,
    )
}

/// The objects that are marked, with their sizes. Fails with fault 4 if the marking is of another number of words, 7 if an object has
/// 2^32 words or more, or 11 if memory runs out.
fn list_marked(alloc: Global, marking: &Marking, heap: &CodedHeap<'_>) -> Result<LiveObjects, Fault>
    ensures addresses { IfOk result (λ live. live.addresses.items ≡ marking.now.marked) }
    ensures sizes { IfOk result (λ live. live.sizes.items ≡ map (size_at heap.now) marking.now.marked) }
    ensures fault { IfErr result (λ fault. (settings : HeapSettings) → IsWhyMarkedNotPlanned heap.now marking.now.marked settings fault) }
{
    if marking.words() != heap.len() {
        return Err(Fault::Length);
    }
    match marking.live(alloc, heap) {
        Ok(live) => Ok(live),
        Err(ListError::Memory) => Err(Fault::Memory),
        Err(ListError::TooLarge { address }) => Err(Fault::Header(address)),
    }
}
