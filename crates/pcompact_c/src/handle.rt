//! A worker's part in a collection, as a host keeps it.
ghost use Rattle.std.specs.Prelude.{◌≡◌, true, false, IsTrue, Some, None, Option, MatchOption, Err, OnOk, IfErr, is_some, map};
ghost use Rattle.caller_heap.specs.declared.part.Part.{Part};
ghost use Rattle.pcompact_c.specs.Handles.{parts_coded};

use crate::objects::PcompactObjects;
use crate::raw_box::RawBox;
use caller_heap::{Origin, Part, SlotCoding};
use coded_marking::CodedHeap;
use collector::{NewPlace, Progress};
use heap_image::Fault;
use object_coding::ObjectCoding;
use std::alloc::Global;
use std::marker::{Model, Send};
use std::mem;

/// One worker's part in a collection by several threads, or none. One thread at a time may use it.
///
/// A contract sees whether it is held, its place, and its part if it has one. All zeros are a handle without a part.
#[repr(C)]
pub struct PcompactHandle {
    is_held: bool,
    at: *mut u8,
    ghost part: { Option Part } by { parts_coded },
}

impl Model for PcompactHandle {
    ghost use Rattle.std.specs.Prelude.{◌≡◌, Bool, Option, is_some};
    ghost use Rattle.std.specs.Ptr.{Ptr};
    ghost use Rattle.caller_heap.specs.declared.part.Part.{Part};
    ghost use Rattle.std.specs.Coded.{codes};
    ghost use Rattle.pcompact_c.specs.Handles.{held, parts_coded};

    ghost Value = { Bool × Ptr × Option Part };

    ghost coded = { Prim.hlevel (codes, parts_coded) };

    ghost view = { λ h. (h.is_held, h.at, h.part) };

    ghost inverse = { λ v. record { is_held = v.0; at = v.1; part = v.2 } };

    ghost invariant = { λ h. h.is_held ≡ is_some h.part };

    ghost also_owns = { λ h. held h.at h.part };
}

unsafe impl Send for PcompactHandle {}

impl PcompactHandle {
    ghost use Rattle.image_streams.specs.declared.fault.Fault.TheVariants.{Length, Workers};
    ghost use Rattle.object_heap.specs.HeapImage.{HeapImage, heap_words, is_live_word};
    ghost use Rattle.object_heap.specs.Reachable.{is_listed};
    ghost use Rattle.mark_bitmap.specs.Marks.{IsObjectOver};
    ghost use Rattle.coded_marking.specs.Marking.{Marks};
    ghost use Rattle.coded_redirection.specs.References.{redirected_words};
    ghost use Rattle.collector.specs.Slides.{IsNextObject};
    ghost use Rattle.caller_heap.specs.Markings.{IsMarkedFrom, IsStoppedAt};
    ghost use Rattle.caller_heap.specs.Slots.{redirected_slot};
    ghost use Rattle.pcompact_c.specs.Checks.{checked_in};
    ghost use Rattle.pcompact_c.specs.Handles.{image_in, origin_in};
    ghost use Rattle.pcompact_c.specs.Markings.{marking_in};
    ghost use Rattle.pcompact_c.specs.Places.{IsNewAddress};
    ghost use Rattle.pcompact_c.specs.Slides.{plan_in, held_in};

    /// A handle without a part: all zeros.
    fn empty() -> PcompactHandle
        ensures free { result.0 ≡ false }
        ensures none { result.2 ≡ None }
    {
        PcompactHandle {
            is_held: false,
            at: std::ptr::null_mut(),
        }
    }

    /// The handle of a boxed part.
    fn of(part: RawBox<Part, Global>) -> PcompactHandle
        ensures { result.2 ≡ Some part.value }
    {
        let RawBox { at, alloc: _ } = part;
        PcompactHandle {
            is_held: true,
            at: at as *mut u8,
        }
    }

    /// The boxed part of a handle.
    fn take(self, alloc: Global) -> RawBox<Part, Global>
        requires { is_some self.2 ≡ true }
        ensures { self.2 ≡ Some result.value }
    {
        let PcompactHandle { is_held: _, at } = self;
        RawBox {
            at: at as *mut Part,
            alloc,
        }
    }

    /// Drops a handle that has no part.
    fn vacate(self)
        requires { self.0 ≡ false }
    {
        let PcompactHandle { is_held: _, at: _ } = self;
    }

    /// Whether it has a part.
    pub(crate) fn is_held(&mut self) -> bool
        ensures held { result ≡ self.old.0 }
        ensures same { self.new ≡ self.old }
    {
        self.is_held
    }

    /// The part of the handle, which has none then.
    pub(crate) fn leave(&mut self, alloc: Global) -> Option<Box<Part, Global>>
        ensures free { self.new.0 ≡ false }
        ensures none { self.new.2 ≡ None }
        ensures part { MatchOption result (self.old.2 ≡ None) (λ part. self.old.2 ≡ Some part.value) }
    {
        let handle = mem::replace(self, PcompactHandle::empty());
        if handle.is_held {
            Some(handle.take(alloc).into_box())
        } else {
            handle.vacate();
            None
        }
    }

    /// From now on it has this part, in place of none.
    pub(crate) fn enter(&mut self, part: Box<Part, Global>)
        requires { self.old.0 ≡ false }
        ensures { self.new.2 ≡ Some part.value }
    {
        mem::replace(self, PcompactHandle::of(RawBox::of(part))).vacate();
    }

    /// Counts the share among those at hand. Returns whether the handle is held, by a part of a collection whose words come
    /// from there.
    pub(crate) fn count_in(&mut self, alloc: Global, origin: Origin) -> bool
        ensures part { self.new.2 ≡ self.old.2 }
        ensures origin { IsTrue result → origin_in self.old ≡ Some origin }
    {
        let Some(part) = self.leave(alloc) else {
            return false;
        };
        part.count_in();
        let is_from = part.origin == origin;
        self.enter(part);
        is_from
    }

    /// Takes the share, if it has one, out of that count.
    pub(crate) fn count_out(&mut self, alloc: Global)
        ensures { self.new.2 ≡ self.old.2 }
    {
        if let Some(part) = self.leave(alloc) {
            part.count_out();
            self.enter(part);
        }
    }

    /// Whether it has a share, exactly `shares` shares are counted, and its session has no other.
    pub(crate) fn are_all_counted(&mut self, alloc: Global, shares: usize) -> bool
        ensures { self.new.2 ≡ self.old.2 }
    {
        let Some(part) = self.leave(alloc) else {
            return false;
        };
        let are_all = part.are_all_counted(shares);
        self.enter(part);
        are_all
    }

    /// Whether it has a share of a session whose image has `regions` regions and `numbers` live addresses or roots.
    pub(crate) fn suits(&mut self, alloc: Global, regions: usize, numbers: usize) -> bool
        ensures { self.new.2 ≡ self.old.2 }
    {
        let Some(part) = self.leave(alloc) else {
            return false;
        };
        let it_suits = part.suits(regions, numbers);
        self.enter(part);
        it_suits
    }

    /// Whether it has a share of a session with as many regions.
    pub(crate) fn has_regions(&mut self, alloc: Global, regions: usize) -> bool
        ensures { self.new.2 ≡ self.old.2 }
    {
        let Some(part) = self.leave(alloc) else {
            return false;
        };
        let it_has = part.has_regions(regions);
        self.enter(part);
        it_has
    }

    /// Where the collection takes the word at this address, if a live object has it. `None` also if the handle isn't held.
    pub(crate) fn new_address(&mut self, alloc: Global, address: u64) -> Option<u64>
        ensures part { self.new.2 ≡ self.old.2 }
        ensures address { (image : HeapImage) → image_in self.old ≡ Some image → IsNewAddress image address result }
        ensures planned { (image : HeapImage) → plan_in self.old ≡ Some image → IsNewAddress image address result }
        ensures not_held { self.old.2 ≡ None → result ≡ None }
    {
        let part = self.leave(alloc)?;
        let place = part.new_place(address);
        self.enter(part);
        match place {
            NewPlace::At(to) => Some(to),
            NewPlace::Outside | NewPlace::NotLive => None,
        }
    }

    /// The first address from `from` on at which an object of the planned slide begins. `None` also if nothing is planned.
    pub(crate) fn next_object(&mut self, alloc: Global, from: u64) -> Option<u64>
        ensures part { self.new.2 ≡ self.old.2 }
        ensures next { (image : HeapImage) → plan_in self.old ≡ Some image → IsNextObject image from result }
        ensures none { plan_in self.old ≡ None → result ≡ None }
    {
        let part = self.leave(alloc)?;
        let next = part.next_object(from);
        self.enter(part);
        next
    }

    /// The address of the object of the planned slide that has the word at this address. `None` also if nothing is planned.
    pub(crate) fn object_over(&mut self, alloc: Global, address: u64) -> Option<u64>
        ensures part { self.new.2 ≡ self.old.2 }
        ensures object { (image : HeapImage) → plan_in self.old ≡ Some image → MatchOption result (is_live_word image address ≡ false) (IsObjectOver image address) }
        ensures none { plan_in self.old ≡ None → result ≡ None }
    {
        let part = self.leave(alloc)?;
        let object = part.object_over(address);
        self.enter(part);
        object
    }

    /// Redirects slots to where the collection takes what they lead to. Returns whether the handle is held.
    pub(crate) fn redirect(&mut self, alloc: Global, slots: &mut [u64], coding: SlotCoding) -> bool
        ensures part { self.new.2 ≡ self.old.2 }
        ensures slots { (image : HeapImage) → image_in self.old ≡ Some image → (slots.new ≡ map (redirected_slot image coding) slots.old) × (result ≡ true) }
        ensures planned { (image : HeapImage) → plan_in self.old ≡ Some image → (slots.new ≡ map (redirected_slot image coding) slots.old) × (result ≡ true) }
        ensures not_held { image_in self.old ≡ None → plan_in self.old ≡ None → (slots.new ≡ slots.old) × (result ≡ false) }
    {
        let Some(part) = self.leave(alloc) else {
            return false;
        };
        let is_redirected = part.redirect(coding, slots);
        self.enter(part);
        is_redirected
    }

    /// Redirects the references of the objects of the planned slide that begin in these words of the heap. Returns whether a slide
    /// is planned.
    pub(crate) fn redirect_objects(
        &mut self,
        alloc: Global,
        coding: &ObjectCoding,
        objects: PcompactObjects,
        words: &mut [u64],
    ) -> bool
        ensures part { self.new.2 ≡ self.old.2 }
        ensures planned { (image : HeapImage) → plan_in self.old ≡ Some image
            → (words.new ≡ redirected_words image coding.now objects.first words.old objects.dead) × (result ≡ true) }
        ensures not_planned { plan_in self.old ≡ None → (words.new ≡ words.old) × (result ≡ false) }
    {
        let Some(part) = self.leave(alloc) else {
            return false;
        };
        let is_redirected = part.redirect_objects(coding, objects.dead, objects.first, words);
        self.enter(part);
        is_redirected
    }

    /// Marks what these roots reach, as [`Part::mark`]. Fails with fault 12 also if the handle isn't held.
    pub(crate) fn mark(
        &mut self,
        alloc: Global,
        heap: &CodedHeap<'_>,
        roots: &[u64],
    ) -> Result<(), Fault>
        ensures marked { OnOk result ((before : Marks) → marking_in self.old ≡ Some before
            → (after : Marks) × (marking_in self.new ≡ Some after) × IsMarkedFrom heap.now roots.now before after) }
        ensures stopped { IfErr result (λ fault. (before : Marks) → marking_in self.old ≡ Some before → before.words ≡ heap_words heap.now
            → (after : Marks) × (marking_in self.new ≡ Some after) × IsStoppedAt heap.now roots.now fault before after) }
        ensures length { (before : Marks) → marking_in self.old ≡ Some before → (before.words ≡ heap_words heap.now → ⊥)
            → (result ≡ Err Length) × (self.new.2 ≡ self.old.2) }
        ensures none { marking_in self.old ≡ None → (result ≡ Err Workers) × (self.new.2 ≡ self.old.2) }
    {
        let Some(mut part) = self.leave(alloc) else {
            return Err(Fault::Workers);
        };
        let marked = part.mark(heap, roots);
        self.enter(part);
        marked
    }

    /// Whether the object at this address is marked. None is if the handle has no marking.
    pub(crate) fn is_reached(&mut self, alloc: Global, address: u64) -> bool
        ensures part { self.new.2 ≡ self.old.2 }
        ensures marking { (marks : Marks) → marking_in self.old ≡ Some marks → result ≡ is_listed marks.marked address }
        ensures none { marking_in self.old ≡ None → result ≡ false }
    {
        let Some(part) = self.leave(alloc) else {
            return false;
        };
        let is_reached = part.is_reached(address);
        self.enter(part);
        is_reached
    }

    /// Lets the worker fill regions that are ready, at most `turns`. Returns `None` if the handle isn't held.
    pub(crate) fn work(&mut self, alloc: Global, turns: u64) -> Option<Progress>
        ensures image { image_in self.new ≡ image_in self.old }
        ensures held { held_in self.new ≡ held_in self.old }
        ensures check { checked_in self.new ≡ checked_in self.old }
        ensures origin { origin_in self.new ≡ origin_in self.old }
        ensures worked { MatchOption result (self.old.2 ≡ None) (λ _. is_some self.old.2 ≡ true) }
    {
        let mut part = self.leave(alloc)?;
        let progress = part.work(turns);
        self.enter(part);
        Some(progress)
    }

    /// Lets the worker fill regions until all are settled. Returns `None` if the handle isn't held.
    pub(crate) fn work_all(&mut self, alloc: Global) -> Option<()>
        ensures image { image_in self.new ≡ image_in self.old }
        ensures held { held_in self.new ≡ held_in self.old }
        ensures check { checked_in self.new ≡ checked_in self.old }
        ensures origin { origin_in self.new ≡ origin_in self.old }
        ensures worked { MatchOption result (self.old.2 ≡ None) (λ _. is_some self.old.2 ≡ true) }
    {
        let mut part = self.leave(alloc)?;
        part.work_all();
        self.enter(part);
        Some(())
    }
}
