//! Slides of opaque objects: of each nothing is known but where it lies.
ghost use Rattle.std.specs.Prelude.{◌≡◌, ◌<◌, ◌≤◌, ◌⊎◌, ℕ, List, [], All, IfOk, IfErr, Some, MatchOption, is_some, true, false, length, slice_index_or, vec_len};
ghost use Rattle.object_heap.specs.HeapImage.{AreBlocks, is_live_word, region_count};
ghost use Rattle.mark_bitmap.specs.Marks.{IsObjectOver};
ghost use Rattle.image_streams.specs.declared.fault.Fault.TheVariants.{Memory, Workers};
ghost use Rattle.collector.specs.Collections.{figures_of};
ghost use Rattle.collector.specs.NewPlaces.{IsNewPlace};
ghost use Rattle.claim_board.specs.Boards.{ArePasses, AllBare};
ghost use Rattle.claim_board.specs.RegionBoards.{identity, original_words};
ghost use Rattle.fill.specs.KeptImages.{KeepsOpaque};
ghost use Rattle.collector.specs.Sessions.{heap_of, image_of, held_of};
ghost use Rattle.collector.specs.Slides.{IsNextObject};

use crate::outcome::Figures;
use crate::session::Session;
use crate::session::new_place::NewPlace;
use crate::session::room::SessionRoom;
use crate::session::session_id::SessionId;
use crate::session::share::Share;
use crate::workers::queues::Queues;
use crate::workers::shared::Shared;
use claim_board::{Pass, RegionBoard};
use fill::opaque_regions_slide;
use heap_image::Fault;
use mark_bitmap::OpaqueObjects;
use raw_region::Region;
use read_shares::Term;
use scheduler::{MAX_WORKERS, moves_of_images};
use std::alloc::Global;
use std::marker::{Brand, Model};
use std::sync::atomic::{AtomicBool, AtomicUsize};
use summary::laws::plans::planned_image_is_valid;
use summary::laws::region_data::regions_to_fill;
use summary::{Survey, WordPlaces};
use thread_row::Alone;

/// A slide of opaque objects that is planned. Nothing has moved, and it has none of their words, which may still change.
///
/// Contracts view it as an image whose objects lie where these do.
pub struct Slide {
    pub(crate) survey: Survey,
    /// How many objects there are.
    pub(crate) numbers: usize,
}

impl Drop for Slide {
    fn drop(self) {
        let Self { survey, numbers } = self;
    }
}

impl Model for Slide {
    ghost use Rattle.std.specs.Prelude.{◌≡◌, length};
    ghost use Rattle.heap_image.specs.ImageText.{with_tail};
    ghost use Rattle.object_heap.specs.HeapImage.{HeapImage};

    ghost Value = { HeapImage };

    ghost view = { λ s. s.survey };

    ghost invariant = { λ s. s.numbers ≡ length (with_tail s.survey).live };
}

/// A slide that can't begin, with the regions as they were.
#[derive(Drop)]
pub struct RefusedSlide {
    pub slide: Slide,
    pub regions: Vec<Region>,
    pub fault: Fault,
}

impl Slide {
    /// Plans the slide of these objects. The only fault is 11, if memory runs out.
    pub fn plan(alloc: Global, objects: &OpaqueObjects<'_>) -> Result<Slide, Fault>
        ensures slide { IfOk result (λ slide. slide ≡ objects.now) }
        ensures fault { IfErr result (λ fault. fault ≡ Memory) }
    {
        let survey = Survey::of_objects(alloc, objects, &Alone)?;
        Ok(Slide {
            survey,
            numbers: objects.len(),
        })
    }

    /// Where the slide takes the word at this address, the first of its object or not.
    pub fn new_place(&self, address: u64) -> NewPlace
        ensures { IsNewPlace self.now address result }
    {
        NewPlace::of(&self.places(), address)
    }

    /// Where each word goes, for who asks of many.
    pub fn places(&self) -> WordPlaces<'_>
        ensures { result ≡ self.now }
    {
        self.survey.plan().word_places()
    }

    /// The first address from `from` on at which an object begins.
    pub fn next_object(&self, from: u64) -> Option<u64>
        ensures { IsNextObject self.now from result }
    {
        self.survey.marks().next_begin(from)
    }

    /// The address of the object that has the word at this address, its first or not.
    pub fn object_over(&self, address: u64) -> Option<u64>
        ensures { MatchOption result (is_live_word self.now address ≡ false) (IsObjectOver self.now address) }
    {
        self.survey.marks().object_over(address)
    }

    /// What is known of the objects: their marks, and the plan of the slide.
    pub fn survey(&self) -> &Survey
        ensures { result.now ≡ self.now }
    {
        &self.survey
    }

    /// What the slide will do.
    pub fn figures(&self) -> Figures
        ensures { result ≡ figures_of self.now }
    {
        Figures::of(self.survey.plan())
    }

    /// The number of regions.
    pub fn regions(&self) -> u32
        ensures { result ≡ region_count self.now }
    {
        self.survey.plan().regions()
    }

    /// The logarithm, to base 2, of the number of words of a region.
    pub fn region_log(&self) -> u32
        ensures { result ≡ self.now.region_log }
    {
        self.survey.plan().region_log()
    }

    /// Begins the slide by 1 to 64 workers in these regions, from address 0 on, and returns a share for each. Starts no thread,
    /// and never waits.
    ///
    /// If it is refused, all is as it was: with fault 12 if there aren't 1 to 64 workers, or 11 if memory runs out.
    pub fn begin(
        self,
        alloc: Global,
        regions: Vec<Region>,
        workers: u32,
    ) -> Result<Vec<Share>, RefusedSlide>
        requires whole { AreBlocks self.region_log regions.items }
        requires count { length regions.items ≡ region_count self }
        ensures count { IfOk result (λ shares. vec_len shares ≡ workers) }
        ensures image { IfOk result (λ shares. All (λ share. image_of share ≡ self) shares.items) }
        ensures words { IfOk result (λ shares. All (λ share. held_of share ≡ Some regions.items) shares.items) }
        ensures back { IfErr result (λ refused. (refused.slide ≡ self) × (refused.regions.items ≡ regions.items)) }
        ensures fault { IfErr result (λ refused. (refused.fault ≡ Memory) ⊎ (refused.fault ≡ Workers)) }
    {
        if workers == 0 || workers > MAX_WORKERS {
            return Err(self.refuse(regions, Fault::Workers));
        }
        let term = Term::new();
        let id = SessionId::of_slide(&self, &regions, &term, workers);
        let own = SessionId::of_slide(&self, &regions, &term, workers);
        let Ok(room) = SessionRoom::new(alloc, term, id, own) else {
            return Err(self.refuse(regions, Fault::Memory));
        };
        let Ok(queues) = Queues::new(alloc, self.survey.plan(), workers) else {
            return Err(self.refuse(regions, Fault::Memory));
        };
        match self.board(alloc, regions, workers) {
            Ok((board, passes)) => Ok(self.deal(board, passes, (queues, room))),
            Err(regions) => Err(self.refuse(regions, Fault::Memory)),
        }
    }

    /// A board of the slide's moves, which keeps these regions, and a pass for each worker. If memory runs out, the regions come
    /// back.
    fn board(
        &self,
        alloc: Global,
        regions: Vec<Region>,
        workers: u32,
    ) -> Result<(RegionBoard, Vec<Pass>), Vec<Region>>
        requires whole { AreBlocks self.now.region_log regions.items }
        requires count { length regions.items ≡ region_count self.now }
        requires some { 1 ≤ workers }
        requires few { workers ≤ 64 }
        ensures keeps { IfOk result (λ made. KeepsOpaque self.now made.0) }
        ensures words { IfOk result (λ made. (r : ℕ) → r < region_count self.now → original_words made.0 r ≡ slice_index_or regions.items r []) }
        ensures count { IfOk result (λ made. vec_len made.1 ≡ workers) }
        ensures passes { IfOk result (λ made. ArePasses (identity made.0) made.1.items × AllBare made.1.items) }
        ensures back { IfErr result (λ back. back.items ≡ regions.items) }
    {
        moves_of_images();
        regions_to_fill();
        let plan = self.survey.plan();
        planned_image_is_valid(plan);
        opaque_regions_slide();
        match RegionBoard::new::<_, Brand>(alloc, plan, workers, regions) {
            Ok((board, passes)) => Ok((board, passes)),
            Err(regions) => Err(regions),
        }
    }

    /// A share for each worker of a board that keeps the regions.
    fn deal(self, board: RegionBoard, passes: Vec<Pass>, room: (Queues, SessionRoom)) -> Vec<Share>
        requires keeps { KeepsOpaque self board }
        requires passes { ArePasses (identity board) passes.items × AllBare passes.items }
        requires count { (vec_len passes ≡ vec_len room.0.ready) × (vec_len passes ≡ room.1.id.workers) }
        requires image { room.1.id.heap.image ≡ self }
        requires held { is_some room.1.id.heap.held ≡ true }
        requires words { (blocks : List (List ℕ)) → room.1.id.heap.held ≡ Some blocks → (r : ℕ) → r < region_count self
            → original_words board r ≡ slice_index_or blocks r [] }
        ensures count { vec_len result ≡ vec_len passes }
        ensures heap { All (λ share. heap_of share ≡ room.1.id.heap) result.items }
    {
        let (queues, room) = room;
        let Slide { survey, numbers } = self;
        let (workers, thieves, _passes) = queues.man(passes);
        let shared = Shared {
            survey,
            desk: board,
            parts: None,
            thieves,
            stop: AtomicBool::new(false),
        };
        let session = Session {
            shared,
            numbers,
            presented: AtomicUsize::new(0),
        };
        room.deal(session, workers)
    }

    fn refuse(self, regions: Vec<Region>, fault: Fault) -> RefusedSlide
        ensures slide { result.slide ≡ self }
        ensures regions { result.regions ≡ regions }
        ensures fault { result.fault ≡ fault }
    {
        RefusedSlide {
            slide: self,
            regions,
            fault,
        }
    }
}
