//! A worker's part in a collection, as its host keeps it.
ghost use Rattle.std.specs.Prelude.{◌≡◌, ◌⊎◌, ◌≤◌, ◌||◌, false, ℕ, List, [], All, Option, Some, None, Err, IfOk, OnOk, IfErr, IfSome, IfNone, MatchOption, is_some, vec_len, map, option_map};
ghost use Rattle.std.specs.Vec.{vec_capacity};
ghost use Rattle.object_heap.specs.HeapImage.{HeapImage, heap_words, is_live_word};
ghost use Rattle.object_heap.specs.Reachable.{is_listed};
ghost use Rattle.image_streams.specs.declared.fault.Fault.TheVariants.{Memory, Workers, Length};
ghost use Rattle.mark_bitmap.specs.Marks.{IsObjectOver};
ghost use Rattle.coded_marking.specs.Marking.{Marks};
ghost use Rattle.coded_redirection.specs.References.{redirected_words};
ghost use Rattle.collector.specs.Collections.{IfKept, IfLost};
ghost use Rattle.collector.specs.Sessions.{image_of, held_of};
ghost use Rattle.collector.specs.NewPlaces.{IsNewPlace};
ghost use Rattle.collector.specs.Slides.{IsNextObject};
ghost use Rattle.caller_heap.specs.Parts.{IsPartOf};
ghost use Rattle.caller_heap.specs.Markings.{IsMarkedFrom, IsStoppedAt};
ghost use Rattle.caller_heap.specs.Slides.{planned_in};
ghost use Rattle.caller_heap.specs.Slots.{redirected_slot};
ghost use Rattle.caller_heap.specs.declared.part.Origin.{Origin};

use crate::lent_collection::suits;
use crate::planned_slide::PlannedSlide;
use crate::slots::{SlotCoding, redirect_slots};
use coded_marking::{CodedHeap, Marking};
use coded_redirection::redirect_objects;
use collector::{NewPlace, Progress, Refusal, Session, Share};
use heap_image::{CheckShare, Fault, Image};
use object_coding::ObjectCoding;
use scheduler::MAX_WORKERS;
use std::alloc::{AllocError, Global};
use std::mem;
use summary::WordPlaces;

/// Where a collection has its words.
#[derive(Clone, Copy, PartialEq, Eq)]
pub enum Origin {
    /// They are a copy of the host's.
    Copied,
    /// They are the host's own, which lent them in a list at this place.
    Lent(u64),
    /// The same, of opaque objects.
    Slid(u64),
    /// The host's own, lent in a list at this place, while their live objects are being checked.
    Checked(u64),
    /// It has none yet: a slide of opaque objects is planned, or its objects are being marked.
    Planned,
}

/// A worker's share in a collection, and where that has its words; or one in the check before it; or a planned slide of opaque
/// objects; or a marking, after which one is planned.
#[derive(Drop)]
pub struct Part {
    /// `None` of a check, a marking or a planned slide, or while the part waits for its share.
    pub share: Option<Share>,
    pub check: Option<CheckShare>,
    pub slide: Option<PlannedSlide>,
    pub marking: Option<Marking>,
    pub origin: Origin,
}

impl Part {
    /// Lets the worker fill regions that are ready, at most `turns`, as [`Share::work`], or check objects, as
    /// [`CheckShare::work`]. Without a share there are none.
    pub fn work(&mut self, turns: u64) -> Progress
        ensures image { option_map image_of self.new.share ≡ option_map image_of self.old.share }
        ensures held { option_map held_of self.new.share ≡ option_map held_of self.old.share }
        ensures check { self.new.check ≡ self.old.check }
        ensures origin { self.new.origin ≡ self.old.origin }
    {
        match &mut self.share {
            Some(share) => share.work(turns),
            None => check_by(&self.check, turns),
        }
    }

    /// Lets the worker fill regions until all are settled, as [`Share::work_all`], or check objects until all are taken.
    pub fn work_all(&mut self)
        ensures image { option_map image_of self.new.share ≡ option_map image_of self.old.share }
        ensures held { option_map held_of self.new.share ≡ option_map held_of self.old.share }
        ensures check { self.new.check ≡ self.old.check }
        ensures origin { self.new.origin ≡ self.old.origin }
    {
        match &mut self.share {
            Some(share) => share.work_all(),
            None => {
                check_by(&self.check, u64::MAX);
            }
        }
    }

    /// Where the session, or the planned slide, takes the word at this address. Without both no word is there.
    pub fn new_place(&self, address: u64) -> NewPlace
        ensures share { IfSome self.now.share (λ share. IsNewPlace (image_of share) address result) }
        ensures slide { IfSome (planned_in self.now.share self.now.slide) (λ image. IsNewPlace image address result) }
    {
        match self.places() {
            Some(places) => NewPlace::of(&places, address),
            None => NewPlace::Outside,
        }
    }

    /// The first address from `from` on at which an object of the planned slide begins. Without a planned slide there is none.
    pub fn next_object(&self, from: u64) -> Option<u64>
        ensures slide { IfSome (planned_in self.now.share self.now.slide) (λ image. IsNextObject image from result) }
        ensures none { IfNone (planned_in self.now.share self.now.slide) (result ≡ None) }
    {
        match (&self.share, &self.slide) {
            (None, Some(planned)) => planned.slide().next_object(from),
            _ => None,
        }
    }

    /// The address of the object of the planned slide that has the word at this address. Without a planned slide there is none.
    pub fn object_over(&self, address: u64) -> Option<u64>
        ensures slide { IfSome (planned_in self.now.share self.now.slide) (λ image. MatchOption result (is_live_word image address ≡ false) (IsObjectOver image address)) }
        ensures none { IfNone (planned_in self.now.share self.now.slide) (result ≡ None) }
    {
        match (&self.share, &self.slide) {
            (None, Some(planned)) => planned.slide().object_over(address),
            _ => None,
        }
    }

    /// Redirects slots, as [`redirect_slots`](crate::redirect_slots). Returns whether there is a share or a planned slide.
    pub fn redirect(&self, coding: SlotCoding, slots: &mut [u64]) -> bool
        ensures share { IfSome self.now.share (λ share. slots.new ≡ map (redirected_slot (image_of share) coding) slots.old) }
        ensures slide { IfSome (planned_in self.now.share self.now.slide) (λ image. slots.new ≡ map (redirected_slot image coding) slots.old) }
        ensures none { IfNone self.now.share (IfNone self.now.slide (slots.new ≡ slots.old)) }
        ensures some { result ≡ (is_some self.now.share || is_some self.now.slide) }
    {
        match self.places() {
            Some(places) => {
                redirect_slots(&places, coding, slots);
                true
            }
            None => false,
        }
    }

    /// What knows where words go.
    fn places(&self) -> Option<WordPlaces<'_>>
        ensures share { IfSome self.now.share (λ share. result ≡ Some (image_of share)) }
        ensures slide { IfNone self.now.share (result ≡ self.now.slide) }
    {
        match (&self.share, &self.slide) {
            (Some(share), _) => Some(share.places()),
            (None, Some(planned)) => Some(planned.slide().places()),
            (None, None) => None,
        }
    }

    /// Redirects the references of the objects of the planned slide that begin in these words of the heap, from address `first`
    /// on, as [`redirect_objects`](coded_redirection::redirect_objects). Returns whether there is a planned slide.
    pub fn redirect_objects(
        &self,
        coding: &ObjectCoding,
        dead: u64,
        first: u64,
        words: &mut [u64],
    ) -> bool
        ensures slide { IfSome (planned_in self.now.share self.now.slide) (λ image. words.new ≡ redirected_words image coding.now first words.old dead) }
        ensures none { IfNone (planned_in self.now.share self.now.slide) (words.new ≡ words.old) }
        ensures some { result ≡ is_some (planned_in self.now.share self.now.slide) }
    {
        match (&self.share, &self.slide) {
            (None, Some(planned)) => {
                redirect_objects(planned.slide().survey(), coding, dead, first, words);
                true
            }
            _ => false,
        }
    }

    /// Marks what these roots reach, as [`Marking::mark`]. Fails with fault 12 without a marking, with 4 if that is of another
    /// number of words, and with 7 at a reached object without a sound header.
    pub fn mark(&mut self, heap: &CodedHeap<'_>, roots: &[u64]) -> Result<(), Fault>
        ensures marked { OnOk result ((before : Marks) → self.old.marking ≡ Some before
            → (after : Marks) × (self.new.marking ≡ Some after) × IsMarkedFrom heap.now roots.now before after) }
        ensures stopped { IfErr result (λ fault. (before : Marks) → self.old.marking ≡ Some before → before.words ≡ heap_words heap.now
            → (after : Marks) × (self.new.marking ≡ Some after) × IsStoppedAt heap.now roots.now fault before after) }
        ensures length { (before : Marks) → self.old.marking ≡ Some before → (before.words ≡ heap_words heap.now → ⊥)
            → (result ≡ Err Length) × (self.new ≡ self.old) }
        ensures none { self.old.marking ≡ None → (result ≡ Err Workers) × (self.new ≡ self.old) }
        ensures rest { (self.new.share ≡ self.old.share) × (self.new.slide ≡ self.old.slide) × (self.new.origin ≡ self.old.origin) }
    {
        let Some(marking) = &mut self.marking else {
            return Err(Fault::Workers);
        };
        if marking.words() != heap.len() {
            return Err(Fault::Length);
        }
        match marking.mark(heap, roots) {
            Ok(()) => Ok(()),
            Err(unsound) => Err(Fault::Header(unsound.address)),
        }
    }

    /// Whether the object at this address is marked. Without a marking none is.
    pub fn is_reached(&self, address: u64) -> bool
        ensures marking { IfSome self.now.marking (λ marks. result ≡ is_listed marks.marked address) }
        ensures none { IfNone self.now.marking (result ≡ false) }
    {
        match &self.marking {
            Some(marking) => marking.is_reached(address),
            None => false,
        }
    }

    /// Counts the share as presented to end its session, or its check.
    pub fn count_in(&self) {
        if let Some(share) = &self.share {
            share.count_in();
        }
        if let Some(check) = &self.check {
            check.count_in();
        }
    }

    /// Takes the share out of that count.
    pub fn count_out(&self) {
        if let Some(share) = &self.share {
            share.count_out();
        }
        if let Some(check) = &self.check {
            check.count_out();
        }
    }

    /// Whether it has a share, exactly `shares` shares are counted, and the session or the check has no other.
    pub fn are_all_counted(&self, shares: usize) -> bool {
        match (&self.share, &self.check) {
            (Some(share), _) => share.are_all_counted(shares),
            (None, Some(check)) => check.are_all_counted(shares),
            (None, None) => false,
        }
    }

    /// Whether it has a share of a session, or of a check, with as many regions.
    pub fn has_regions(&self, regions: usize) -> bool {
        match (&self.share, &self.check) {
            (Some(share), _) => share.regions() as usize == regions,
            (None, Some(check)) => check.regions() == regions,
            (None, None) => false,
        }
    }

    /// Whether it has a share of a session whose image has `regions` regions and, in version 1, `numbers` live addresses,
    /// otherwise roots.
    pub fn suits(&self, regions: usize, numbers: usize) -> bool {
        match &self.share {
            Some(share) => suits(share, regions, numbers),
            None => false,
        }
    }
}

/// Checks objects by a share in a check, if there is one.
fn check_by(check: &Option<CheckShare>, turns: u64) -> Progress {
    match check {
        Some(check) if !check.work(turns) => Progress::TurnsUsed,
        _ => Progress::Settled,
    }
}

/// Begins a session of `workers` workers over an image whose words come from `origin`. Returns a part for each, in a box of
/// its own, which a host can keep by its place.
///
/// Returns `Kept` on failure, with fault 12 if there aren't 1 to 64 workers, or 11 if memory runs out: all of it is taken
/// before a region leaves the image.
pub fn boxed_parts(
    alloc: Global,
    image: Image,
    workers: u32,
    origin: Origin,
) -> Result<Vec<Box<Part, Global>>, Refusal>
    ensures count { IfOk result (λ boxes. vec_len boxes ≡ workers) }
    ensures parts { IfOk result (λ boxes. All (λ part. IsPartOf image origin part.value) boxes.items) }
    ensures kept { IfErr result (λ refusal. IfKept refusal
        (λ back fault. (back ≡ image) × ((fault ≡ Memory) ⊎ (fault ≡ Workers)))) }
    ensures lost { IfErr result (λ refusal. IfLost refusal (λ _. ⊥)) }
{
    if workers == 0 || workers > MAX_WORKERS {
        return Err(Refusal::Kept(image, Fault::Workers));
    }
    let (Ok(room), Ok(empty)) = (
        Vec::with_capacity(alloc, workers as usize),
        empty_parts(alloc, workers, origin),
    ) else {
        return Err(Refusal::Kept(image, Fault::Memory));
    };
    let shares = Session::prepare(alloc, image, workers)?;
    Ok(with_shares(empty, shares, room))
}

/// Parts without shares, in a box each.
pub(crate) fn empty_parts(
    alloc: Global,
    workers: u32,
    origin: Origin,
) -> Result<Vec<Box<Part, Global>>, AllocError>
    ensures count { IfOk result (λ boxes. vec_len boxes ≡ workers) }
    ensures origin { IfOk result (λ boxes. All (λ part. part.value.origin ≡ origin) boxes.items) }
{
    let mut boxes = Vec::with_capacity(alloc, workers as usize)?;
    for _ in 0..workers {
        let share = None;
        let check = None;
        let slide = None;
        let marking = None;
        let part = Part {
            share,
            check,
            slide,
            marking,
            origin,
        };
        match Box::new(alloc, part) {
            Ok(made) => boxes.push_reserved(made),
            Err(_) => return Err(AllocError),
        }
    }
    Ok(boxes)
}

/// Puts each share into one of as many parts, and those into a list that has room for them.
pub(crate) fn with_shares(
    mut parts: Vec<Box<Part, Global>>,
    mut shares: Vec<Share>,
    mut whole: Vec<Box<Part, Global>>,
) -> Vec<Box<Part, Global>>
    requires count { vec_len parts ≡ vec_len shares }
    requires empty { whole.items ≡ [] }
    requires room { vec_len parts ≤ vec_capacity whole }
    ensures count { vec_len result ≡ vec_len parts }
    ensures parts { (image : HeapImage) (origin : Origin) → All (λ share. image_of share ≡ image) shares.items
        → All (λ part. part.value.origin ≡ origin) parts.items → All (λ part. IsPartOf image origin part.value) result.items }
    ensures held { (held : Option (List (List ℕ))) → All (λ share. held_of share ≡ held) shares.items
        → All (λ part. option_map held_of part.value.share ≡ Some held) result.items }
{
    while let (Some(mut part), Some(share)) = (parts.pop(), shares.pop()) {
        drop(mem::replace(&mut part.share, Some(share)));
        whole.push_reserved(part);
    }
    whole
}
