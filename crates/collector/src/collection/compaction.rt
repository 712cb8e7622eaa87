//! The compaction of an image by workers, over any desk.
ghost use Rattle.std.specs.Prelude.{◌≡◌, ◌<◌, ◌≤◌, ◌↔◌, ◌⊎◌, ℕ, [], All, vec_len, IfOk, IfErr, OnOk, IfSome, IfNone, slice_index_or, length, map, None, is_some, true, Err, if◌then◌else◌};
ghost use Rattle.std.specs.Vec.{vec_capacity};
ghost use Rattle.summary.specs.RegionData.{fill_count};
ghost use Rattle.summary.specs.Compaction.{compact};
ghost use Rattle.scheduler.specs.ImageMoves.{image_table};
ghost use Rattle.scheduler.specs.MoveTable.{region_count, to_fill};
ghost use Rattle.scheduler.specs.State.{AllAreSettled};
ghost use Rattle.scheduler.specs.History.{IsLegal, state_of};
ghost use Rattle.scheduler.specs.Whole.{HasEachOnce};
ghost use Rattle.claim_board.specs.Finishes.{history};
ghost use Rattle.claim_board.specs.RegionBoards.{moves as moves_of, worker_count, original_words, moved_words};
ghost use Rattle.collector.specs.Halts.{IsLostTo, met_fault};
ghost use Rattle.collector.specs.Rest.{Rests, AreFresh, AreStopped, IsFilled, AreOf, AreBare, callers_of};
ghost use Rattle.collector.specs.Collections.{figures_of, AreNoneOrTooMany, IfKept, IfLost};
ghost use Rattle.collector.specs.declared.outcome.Refusal.TheVariants.{Kept};
ghost use Rattle.collector.specs.declared.workers.end.End.TheVariants.{Failed};

use super::clean_up::clean_up;
use super::collection_desk::CollectionDesk;
use super::preparing::keep_regions;
use super::redirector::Redirector;
use crate::gate::Gate;
use crate::outcome::{Outcome, Refusal};
use crate::workers::fill_left::fill_left;
use crate::workers::fill_task::{FillTask, work_all};
use crate::workers::queues::Queues;
use crate::workers::shared::Shared;
use crate::workers::start_line::StartLine;
use crate::workers::worker::Worker;
use claim_board::{Desk, Finished, Pass, RegionBoard};
use heap_image::{Fault, Image};
use raw_region::Region;
use retry_policy::RetryPolicy;
use scheduler::{MAX_WORKERS, moves_are_lawful, settled_histories_have_each_once};
use std::alloc::Global;
use std::sync::atomic::AtomicBool;
use std::thread::Threads;
use summary::{Survey, Surveyor};

/// A compaction, and its 1 to 64 workers.
#[derive(Drop)]
pub(crate) struct Compaction<D: CollectionDesk + Drop> {
    pub(crate) shared: Shared<D>,
    pub(crate) workers: Vec<Worker>,
    /// Empty, with room for the passes of all workers.
    pub(crate) passes: Vec<Pass>,
    ghost whole: { is_some shared.parts ≡ true },
    ghost handles: { vec_len shared.thieves ≡ vec_len workers },
    ghost count: { worker_count (D.keeps shared.desk) ≡ vec_len workers },
    ghost some: { 0 < vec_len workers },
    ghost few: { vec_len workers ≤ 64 },
    ghost no_passes: { passes.items ≡ [] },
    ghost room: { vec_len workers ≤ vec_capacity passes },
}

/// What a compaction leaves.
#[derive(Drop)]
pub(crate) struct Ended<D: CollectionDesk> {
    pub(crate) outcome: Outcome,
    pub(crate) finished: Finished,
    pub(crate) survey: Survey,
    pub(crate) record: D::Record,
}

impl<D: CollectionDesk + Drop> Compaction<D> {
    /// Surveys an image by the surveyor's threads, and takes all memory that its compaction needs.
    ///
    /// Returns `Kept` on failure, with fault 12 exactly if the number of workers, which is tested first, isn't 1 to 64, and
    /// with fault 11 if memory runs out.
    pub(crate) fn prepare<S: Surveyor>(
        alloc: Global,
        mut image: Image,
        workers: u32,
        surveyor: &S,
    ) -> Result<Compaction<D>, Refusal>
        requires { S.may_start }
        ensures survey { IfOk result (λ made. made.shared.survey ≡ image) }
        ensures workers { IfOk result (λ made. vec_len made.workers ≡ workers) }
        ensures seats { IfOk result (λ made. AreOf (D.keeps made.shared.desk) made.workers.items) }
        ensures fresh { IfOk result (λ made. AreFresh (callers_of made.workers.items)) }
        ensures rest { IfOk result (λ made. All (λ w. Rests w.seat.pass) made.workers.items) }
        ensures stopped { IfOk result (λ made. AreStopped (D.keeps made.shared.desk) (fill_count made.shared.survey) made.workers.items) }
        ensures kept { IfErr result (λ refusal. IfKept refusal
            (λ back fault. (back ≡ image) × ((fault ≡ Fault.Memory) ⊎ (fault ≡ Fault.Workers)))) }
        ensures refused { result ≡ Err (Kept image Fault.Workers) ↔ AreNoneOrTooMany workers }
        ensures lost { IfErr result (λ refusal. IfLost refusal (λ _. ⊥)) }
    {
        if workers == 0 || workers > MAX_WORKERS {
            return Err(Refusal::Kept(image, Fault::Workers));
        }
        let Ok(survey) = Survey::taking_over(alloc, &mut image, surveyor) else {
            return Err(Refusal::Kept(image, Fault::Memory));
        };
        let Ok(queues) = Queues::new(alloc, survey.plan(), workers) else {
            return Err(Refusal::Kept(image, Fault::Memory));
        };
        let Ok(equipment) = D::equip(alloc, survey.plan(), workers) else {
            return Err(Refusal::Kept(image, Fault::Memory));
        };
        match keep_regions(alloc, image, survey.plan(), workers) {
            Ok((board, passes, parts)) => {
                let (workers, thieves, passes) = queues.man(passes);
                let shared = Shared {
                    survey,
                    desk: D::of(board, equipment),
                    parts: Some(parts),
                    thieves,
                    stop: AtomicBool::new(false),
                };
                Ok(Compaction {
                    shared,
                    workers,
                    passes,
                })
            }
            Err(image) => Err(Refusal::Kept(image, Fault::Memory)),
        }
    }

    /// Runs all workers from this start line. Returns the fault of the lowest worker that met one.
    pub(crate) fn work<'a, G: Gate + Sync, T: Threads + Sync, W: RetryPolicy + Sync>(
        &mut self,
        start: &StartLine,
        gate: &'a G,
        threads: &T,
        wait: &'a W,
    ) -> Result<(), Fault>
    where
        D: Desk<W> + Sync,
        requires seats { AreOf (D.keeps self.old.shared.desk) self.old.workers.items }
        requires fresh { AreFresh (callers_of self.old.workers.items) }
        requires rest { All (λ w. Rests w.seat.pass) self.old.workers.items }
        ensures shared { self.new.shared ≡ self.old.shared }
        ensures workers { vec_len self.new.workers ≡ vec_len self.old.workers }
        ensures seats { AreOf (D.keeps self.new.shared.desk) self.new.workers.items }
        ensures stopped { OnOk result (AreStopped (D.keeps self.new.shared.desk) (fill_count self.new.shared.survey) self.new.workers.items) }
        ensures fault { IfErr result (IsLostTo (G.may_refuse gate.now) (vec_len self.old.workers) self.old.shared.survey) }
    {
        let shared = &self.shared;
        let task = FillTask { shared, gate, wait };
        work_all(&task, self.workers.as_mut_slice(), start, threads);
        match first_fault(self.workers.as_slice()) {
            Some(fault) => Err(fault),
            None => Ok(()),
        }
    }

    /// Runs all workers, if there are several. Returns the fault of the lowest worker that met one.
    pub(crate) fn work_if_several<'a, G: Gate + Sync, T: Threads + Sync, W: RetryPolicy + Sync>(
        &mut self,
        gate: &'a G,
        threads: &T,
        wait: &'a W,
    ) -> Result<(), Fault>
    where
        D: Desk<W> + Sync,
        requires seats { AreOf (D.keeps self.old.shared.desk) self.old.workers.items }
        requires fresh { AreFresh (callers_of self.old.workers.items) }
        requires rest { All (λ w. Rests w.seat.pass) self.old.workers.items }
        requires stopped { AreStopped (D.keeps self.old.shared.desk) (fill_count self.old.shared.survey) self.old.workers.items }
        ensures shared { self.new.shared ≡ self.old.shared }
        ensures workers { vec_len self.new.workers ≡ vec_len self.old.workers }
        ensures seats { AreOf (D.keeps self.new.shared.desk) self.new.workers.items }
        ensures stopped { OnOk result (AreStopped (D.keeps self.new.shared.desk) (fill_count self.new.shared.survey) self.new.workers.items) }
        ensures fault { IfErr result (IsLostTo (G.may_refuse gate.now) (vec_len self.old.workers) self.old.shared.survey) }
    {
        if self.workers.len() == 1 {
            return Ok(());
        }
        self.work(&StartLine::open(), gate, threads, wait)
    }

    /// Fills what the workers left, in the caller's thread, once all of them have stopped. All regions to fill are settled
    /// then. If it `asks`, it first asks the board whether they are. Returns the gate's refusal.
    pub(crate) fn fill_left<'a, G: Gate, W: RetryPolicy>(
        &mut self,
        asks: bool,
        gate: &'a G,
        wait: &'a W,
    ) -> Result<(), Fault>
    where
        D: Desk<W>,
        requires seats { AreOf (D.keeps self.old.shared.desk) self.old.workers.items }
        requires stopped { AreStopped (D.keeps self.old.shared.desk) (fill_count self.old.shared.survey) self.old.workers.items }
        ensures shared { self.new.shared ≡ self.old.shared }
        ensures workers { vec_len self.new.workers ≡ vec_len self.old.workers }
        ensures seats { AreOf (D.keeps self.new.shared.desk) self.new.workers.items }
        ensures bare { OnOk result (AreBare self.new.workers.items) }
        ensures filled { OnOk result (IsFilled (moves_of (D.keeps self.new.shared.desk)) (vec_len self.new.workers) (callers_of self.new.workers.items)) }
        ensures fault { IfErr result (IsLostTo (G.may_refuse gate.now) (vec_len self.old.workers) self.old.shared.survey) }
    {
        let shared = &self.shared;
        let task = FillTask { shared, gate, wait };
        fill_left(&task, self.workers.as_mut_slice(), asks)
    }

    /// Finishes the board of a compaction that is filled, and cleans up.
    pub(crate) fn finish<R: Redirector>(self, redirector: &R) -> Ended<D>
        requires start { R.may_start }
        requires seats { AreOf (D.keeps self.shared.desk) self.workers.items }
        requires bare { AreBare self.workers.items }
        requires filled { IsFilled (moves_of (D.keeps self.shared.desk)) (vec_len self.workers) (callers_of self.workers.items) }
        ensures image { result.outcome.image ≡ compact self.shared.survey }
        ensures figures { result.outcome.figures ≡ figures_of self.shared.survey }
        ensures legal { IsLegal (image_table self.shared.survey) (vec_len self.workers) (history result.finished) }
        ensures once { HasEachOnce (image_table self.shared.survey) (history result.finished) }
        ensures survey { result.survey ≡ self.shared.survey }
        ensures record { D.recorded result.record }
    {
        let Compaction {
            shared,
            workers,
            passes,
        } = self;
        let Shared {
            survey,
            desk,
            parts,
            ..
        } = shared;
        let Some(parts) = parts else {
            unreachable!();
        };
        settled_histories_have_each_once();
        moves_are_lawful(survey.plan());
        let (board, record) = desk.into_parts();
        let (finished, moved) = finish(board, workers, passes);
        let outcome = clean_up(parts, moved, &survey, redirector);
        Ended {
            outcome,
            finished,
            survey,
            record,
        }
    }
}

/// The fault of the lowest worker that met one.
fn first_fault(workers: &[Worker]) -> Option<Fault>
    ensures lowest { IfSome result (λ fault. (k : ℕ) × (w : _) × (k < length workers.now)
        × (slice_index_or workers.now k w ≡ w) × (w.result ≡ Err (Failed fault))
        × ((j : ℕ) (v : _) → j < k → met_fault (slice_index_or workers.now j v).result ≡ None)) }
    ensures none { IfNone result (All (λ w. met_fault w.result ≡ None) workers.now) }
{
    for worker in workers {
        let met = worker.fault();
        if met.is_some() {
            return met;
        }
    }
    None
}

/// Finishes the board with the passes of all workers, for which `passes` has room. Returns the regions too.
fn finish(
    board: RegionBoard,
    mut workers: Vec<Worker>,
    mut passes: Vec<Pass>,
) -> (Finished, Vec<Region>)
    requires seats { AreOf board workers.items }
    requires bare { AreBare workers.items }
    requires all { vec_len workers ≡ worker_count board }
    requires filled { IsFilled (moves_of board) (vec_len workers) (callers_of workers.items) }
    requires empty { passes.items ≡ [] }
    requires room { vec_len workers ≤ vec_capacity passes }
    ensures legal { IsLegal (moves_of board) (worker_count board) (history result.0) }
    ensures settled { AllAreSettled (moves_of board) (state_of (history result.0)) }
    ensures count { length result.1.items ≡ region_count (moves_of board) }
    ensures words { (r : ℕ) → r < region_count (moves_of board) → slice_index_or result.1.items r [] ≡ (if to_fill (moves_of board) r then moved_words board r else original_words board r) }
{
    while let Some(worker) = workers.pop() {
        passes.push_reserved(worker.into_pass());
    }
    let Some(ended) = board.finish(passes) else {
        unreachable!();
    };
    ended
}
