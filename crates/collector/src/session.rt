//! A collection in steps, whose workers run by the caller's calls.
ghost use Rattle.std.specs.Prelude.{◌≡◌, ◌<◌, ◌⊎◌, ◌↔◌, [], All, length, vec_len, IfOk, IfErr, IfSome, None, Err};
ghost use Rattle.heap_image.specs.ImageText.{with_tail};
ghost use Rattle.summary.specs.Compaction.{compact};
ghost use Rattle.claim_board.specs.Boards.{board_of, held};
ghost use Rattle.claim_board.specs.RegionBoards.{identity};
ghost use Rattle.collector.specs.Collections.{figures_of, AreNoneOrTooMany, IfKept, IfLost};
ghost use Rattle.collector.specs.declared.outcome.Refusal.TheVariants.{Kept};
ghost use Rattle.collector.specs.Rest.{Rests};

pub(crate) mod new_place;
pub(crate) mod progress;
mod returned_stakes;
pub(crate) mod room;
pub(crate) mod session_id;
pub(crate) mod share;
mod slide_end;
mod stake;

use crate::collection::clean_up::clean_up;
use crate::collection::compaction::Compaction;
use crate::collection::preparing::with_regions;
use crate::gate::OpenGate;
use crate::outcome::{Outcome, Refusal};
use crate::workers::fill_task::FillTask;
use crate::workers::shared::Shared;
use crate::workers::worker::Worker;
use claim_board::{Pass, RegionBoard, Seat};
use crossbeam_utils::Backoff;
use heap_image::{Fault, Image, Version};
use progress::Progress;
use read_shares::Term;
use retry_policy::Tries;
use room::SessionRoom;
use scheduler::{MAX_WORKERS, moves_of_images};
use session_id::SessionId;
use share::Share;
use std::alloc::Global;
use std::sync::atomic::AtomicUsize;
use thread_row::Alone;

/// A collection in steps. Each of its workers has a [`Share`].
#[derive(Drop)]
pub struct Session {
    pub(crate) shared: Shared<RegionBoard>,
    /// How many live addresses the image has in version 1, otherwise how many roots.
    pub(crate) numbers: usize,
    /// How many shares are presented to end the session.
    pub(crate) presented: AtomicUsize,
    ghost listed: { numbers ≡ length (with_tail shared.survey).live },
}

impl Session {
    ghost use Rattle.collector.specs.Sessions.{image_of, held_of};

    /// Prepares the compaction of an image by 1 to 64 workers, and returns a share for each. Starts no thread, and never
    /// waits.
    ///
    /// Returns `Kept` on failure, with fault 12 exactly if the number of workers, which is tested first, isn't 1 to 64, and
    /// with fault 11 if memory runs out: all of it is taken before a region leaves the image.
    pub fn prepare(alloc: Global, image: Image, workers: u32) -> Result<Vec<Share>, Refusal>
        ensures count { IfOk result (λ shares. vec_len shares ≡ workers) }
        ensures image { IfOk result (λ shares. All (λ share. image_of share ≡ image) shares.items) }
        ensures objects { IfOk result (λ shares. All (λ share. held_of share ≡ None) shares.items) }
        ensures kept { IfErr result (λ refusal. IfKept refusal
            (λ back fault. (back ≡ image) × ((fault ≡ Fault.Memory) ⊎ (fault ≡ Fault.Workers)))) }
        ensures workers { result ≡ Err (Kept image Fault.Workers) ↔ AreNoneOrTooMany workers }
        ensures lost { IfErr result (λ refusal. IfLost refusal (λ _. ⊥)) }
    {
        if workers == 0 || workers > MAX_WORKERS {
            return Err(Refusal::Kept(image, Fault::Workers));
        }
        let term = Term::new();
        let id = SessionId::of_image(&image, &term, workers);
        let own = SessionId::of_image(&image, &term, workers);
        let Ok(room) = SessionRoom::new(alloc, term, id, own) else {
            return Err(Refusal::Kept(image, Fault::Memory));
        };
        let numbers = numbers_of(&image);
        let compaction = Compaction::<RegionBoard>::prepare(alloc, image, workers, &Alone)?;
        let session = Session {
            shared: compaction.shared,
            numbers,
            presented: AtomicUsize::new(0),
        };
        Ok(room.deal(session, compaction.workers))
    }

    /// The image, if no region was claimed.
    fn into_image(self) -> Option<Image>
        ensures { IfSome result (λ image. image ≡ self.shared.survey) }
    {
        let Session { shared, .. } = self;
        let Shared {
            survey,
            desk,
            parts,
            ..
        } = shared;
        moves_of_images();
        let parts = parts?;
        let regions = desk.take_back()?;
        Some(with_regions(parts, regions, survey.plan()))
    }

    /// Lets a worker fill regions that are ready, at most `turns`.
    fn work(&self, number: u32, worker: &mut Worker, turns: u64) -> Progress
        requires number { number < vec_len self.now.shared.thieves }
        requires seat { board_of worker.old.seat.pass ≡ identity self.now.shared.desk }
        requires rest { Rests worker.old.seat.pass }
        ensures seat { board_of worker.new.seat.pass ≡ identity self.now.shared.desk }
        ensures rest { Rests worker.new.seat.pass }
    {
        let task = self.task();
        match task.fill_ready(number, worker, turns, &Backoff::new()) {
            Ok(progress) => progress,
            Err(end) => {
                // No gate refuses, so nobody stops a worker. A region that it would have been stopped with is filled.
                worker.result = Err(end);
                task.fill_held(number, worker);
                Progress::TurnsUsed
            }
        }
    }

    /// Lets a worker fill what is left, once no other works.
    fn fill_rest(&self, number: u32, seat: &mut Seat)
        requires seat { board_of seat.old.pass ≡ identity self.now.shared.desk }
        requires rest { Rests seat.old.pass }
        ensures seat { board_of seat.new.pass ≡ identity self.now.shared.desk }
        ensures rest { Rests seat.new.pass }
    {
        if !self.shared.desk.poll(&mut seat.pass) {
            let filled = self.task().fill_rest(number, seat);
            prove!(filled.is_ok());
        }
    }

    /// The compaction and its figures, if all regions to fill are settled. Uses the pass of the last worker.
    fn finish(self, pass: Pass) -> Option<Outcome>
        requires seat { board_of pass ≡ identity self.shared.desk }
        requires bare { held pass ≡ [] }
        ensures image { IfSome result (λ outcome. outcome.image ≡ compact self.shared.survey) }
        ensures figures { IfSome result (λ outcome. outcome.figures ≡ figures_of self.shared.survey) }
    {
        let Session { shared, .. } = self;
        let Shared {
            survey,
            desk,
            parts,
            ..
        } = shared;
        let parts = parts?;
        let moved = desk.into_settled(pass)?;
        Some(clean_up(parts, moved, &survey, &Alone))
    }

    /// The task of the workers.
    fn task(&self) -> FillTask<'_, '_, RegionBoard, OpenGate, Tries>
        ensures { result.shared.now ≡ self.now.shared }
    {
        FillTask {
            shared: &self.shared,
            gate: &OpenGate,
            wait: &Tries { most: u64::MAX },
        }
    }
}

/// How many live addresses an image of version 1 has, otherwise how many roots.
fn numbers_of(image: &Image) -> usize
    ensures { result ≡ length (with_tail image.now).live }
{
    match image.version() {
        Version::One => image.live().len(),
        Version::Two | Version::Three => image.roots().len(),
    }
}
