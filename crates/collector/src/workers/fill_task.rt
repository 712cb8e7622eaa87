//! What each worker of a collection does.
ghost use Rattle.std.specs.Prelude.{◌≡◌, ◌<◌, ◌≤◌, ◌^◌, length, vec_len, All, IfOk, IfErr, IfSome, IfNone, is_some, if◌then◌else◌};
ghost use Rattle.summary.specs.RegionData.{fill_count};
ghost use Rattle.scheduler.specs.declared.event.Event.TheVariants.{Claim};
ghost use Rattle.scheduler.specs.declared.reply.Reply.TheVariants.{Yes, No};
ghost use Rattle.claim_board.specs.Boards.{board_of, caller, AppendsTo};
ghost use Rattle.claim_board.specs.RegionBoards.{moves as moves_of, worker_count, identity};
ghost use Rattle.collector.specs.Halts.{IsRefused, MayEndEarly, MayBeRefused};
ghost use Rattle.collector.specs.Rest.{Rests, IsAtRest, HoldsRegion, Settles, Ends, AllEnd, AreOf};

use super::end::End;
use super::held_region::HeldRegion;
use super::shared::Shared;
use super::start_line::StartLine;
use super::worker::Worker;
use crate::gate::Gate;
use crate::session::progress::Progress;
use claim_board::{Desk, Seat};
use crossbeam_utils::Backoff;
use fill::Filler;
use heap_image::Fault;
use retry_policy::RetryPolicy;
use scheduler::{Reply, moves_of_images};
use std::sync::atomic::Ordering;
use std::thread::{Threads, for_each_mut, spawn};
use summary::laws::plans::planned_image_is_valid;
use summary::laws::region_data::regions_to_fill;

/// How many regions a worker without a queued region looks at in one turn.
const LOOKS: u32 = 64;

/// The task of all workers of a collection: to fill its regions.
#[derive(Drop)]
pub(crate) struct FillTask<'s, 'a, D: Desk<W> + Drop, G: Gate, W: RetryPolicy> {
    pub(crate) shared: &'s Shared<D>,
    pub(crate) gate: &'a G,
    /// How the workers wait for each other.
    pub(crate) wait: &'a W,
}

impl<D: Desk<W> + Drop, G: Gate, W: RetryPolicy> FillTask<'_, '_, D, G, W> {
    /// Fills regions until all are settled or the gate has refused another worker, and backs off while none is ready.
    pub(crate) fn fill_until_settled(&self, number: u32, worker: &mut Worker) -> Result<(), End>
        requires number { number < vec_len self.now.shared.now.thieves }
        requires seat { board_of worker.old.seat.pass ≡ identity (D.keeps self.now.shared.now.desk) }
        requires rest { Rests worker.old.seat.pass }
        ensures seat { board_of worker.new.seat.pass ≡ identity (D.keeps self.now.shared.now.desk) }
        ensures ends { Ends (D.keeps self.now.shared.now.desk) (fill_count self.now.shared.now.survey) result worker.old.seat.pass worker.new.seat.pass }
        ensures early { IfErr result (MayEndEarly (G.may_refuse self.now.gate.now number) (fill_count self.now.shared.now.survey)) }
    {
        let backoff = Backoff::new();
        for _ in 0..u64::MAX {
            if self.fill_ready(number, worker, u64::MAX, &backoff)? == Progress::Settled {
                break;
            }
            self.wait.back_off(&backoff);
        }
        Ok(())
    }

    /// Fills regions that are ready in at most `turns` turns, until none is. Resets `backoff` once one is.
    pub(crate) fn fill_ready(
        &self,
        number: u32,
        worker: &mut Worker,
        turns: u64,
        backoff: &Backoff,
    ) -> Result<Progress, End>
        requires number { number < vec_len self.now.shared.now.thieves }
        requires seat { board_of worker.old.seat.pass ≡ identity (D.keeps self.now.shared.now.desk) }
        requires rest { Rests worker.old.seat.pass }
        ensures seat { board_of worker.new.seat.pass ≡ identity (D.keeps self.now.shared.now.desk) }
        ensures ends { Ends (D.keeps self.now.shared.now.desk) (fill_count self.now.shared.now.survey) result worker.old.seat.pass worker.new.seat.pass }
        ensures early { IfErr result (MayEndEarly (G.may_refuse self.now.gate.now number) (fill_count self.now.shared.now.survey)) }
    {
        for _ in 0..turns {
            if self.is_stopped() {
                return Err(End::Stopped(None));
            }
            let Some(region) = self.next_region(number, worker) else {
                return Ok(self.progress_without_region(worker));
            };
            backoff.reset();
            if self.visit(number, worker, region)? {
                return Ok(Progress::Settled);
            }
        }
        Ok(Progress::TurnsUsed)
    }

    /// How far the work has come where this worker finds no region that is ready.
    fn progress_without_region(&self, worker: &mut Worker) -> Progress
        requires seat { board_of worker.old.seat.pass ≡ identity (D.keeps self.now.shared.now.desk) }
        requires rest { Rests worker.old.seat.pass }
        ensures seat { board_of worker.new.seat.pass ≡ identity (D.keeps self.now.shared.now.desk) }
        ensures rest { IsAtRest worker.old.seat.pass worker.new.seat.pass }
    {
        if self.shared.desk.board().poll(&mut worker.seat.pass) {
            Progress::Settled
        } else {
            Progress::NoneReady
        }
    }

    /// A region that is ready to be filled: from this worker's queue, stolen from another, or the lowest that it hasn't seen
    /// filled.
    fn next_region(&self, number: u32, worker: &mut Worker) -> Option<u32>
        requires number { number < vec_len self.now.shared.now.thieves }
        requires seat { board_of worker.old.seat.pass ≡ identity (D.keeps self.now.shared.now.desk) }
        requires rest { Rests worker.old.seat.pass }
        ensures seat { board_of worker.new.seat.pass ≡ identity (D.keeps self.now.shared.now.desk) }
        ensures rest { IsAtRest worker.old.seat.pass worker.new.seat.pass }
        ensures region { IfSome result (λ r. r < fill_count self.now.shared.now.survey) }
    {
        let thieves = self.shared.thieves.as_slice();
        if let Some(region) = worker.ready.take(thieves, number as usize) {
            if region < self.shared.survey.plan().fill_regions() {
                return Some(region);
            }
        }
        self.lowest_open(worker)
    }

    /// The lowest region to fill that this worker hasn't seen filled, if it may be claimed, so that none is lost that no queue
    /// has. Makes at most `LOOKS` looks.
    fn lowest_open(&self, worker: &mut Worker) -> Option<u32>
        requires seat { board_of worker.old.seat.pass ≡ identity (D.keeps self.now.shared.now.desk) }
        requires rest { Rests worker.old.seat.pass }
        ensures seat { board_of worker.new.seat.pass ≡ identity (D.keeps self.now.shared.now.desk) }
        ensures rest { IsAtRest worker.old.seat.pass worker.new.seat.pass }
        ensures region { IfSome result (λ r. r < fill_count self.now.shared.now.survey) }
    {
        let (board, plan) = (self.shared.desk.board(), self.shared.survey.plan());
        moves_of_images();
        regions_to_fill();
        planned_image_is_valid(plan);
        for _ in 0..LOOKS {
            if worker.lowest >= plan.fill_regions() {
                break;
            }
            match board.look(&mut worker.seat.pass, worker.lowest) {
                Reply::Filled => worker.lowest += 1,
                Reply::Open(0) => return Some(worker.lowest),
                _ => break,
            }
        }
        None
    }

    /// Claims a region, and fills and settles it if it is granted and the gate admits it. Queues the regions to fill that
    /// have no pending readers any more, as far as there is room. Returns whether all regions to fill are settled.
    fn visit(&self, number: u32, worker: &mut Worker, region: u32) -> Result<bool, End>
        requires seat { board_of worker.old.seat.pass ≡ identity (D.keeps self.now.shared.now.desk) }
        requires rest { Rests worker.old.seat.pass }
        requires region { region < fill_count self.now.shared.now.survey }
        ensures seat { board_of worker.new.seat.pass ≡ identity (D.keeps self.now.shared.now.desk) }
        ensures ends { Ends (D.keeps self.now.shared.now.desk) (fill_count self.now.shared.now.survey) result worker.old.seat.pass worker.new.seat.pass }
        ensures early { IfErr result (MayEndEarly (G.may_refuse self.now.gate.now number) (fill_count self.now.shared.now.survey)) }
    {
        let Some(claimed) = self.claim(&mut worker.seat, region) else {
            return Ok(false);
        };
        let claimed = self.admit(number, claimed)?;
        if self.is_stopped() {
            return Err(End::Stopped(Some(claimed)));
        }
        let fill_regions = self.shared.survey.plan().fill_regions();
        let ready = &mut worker.ready;
        let queue = |source: u32| {
            if source < fill_regions {
                let _ = ready.push(source);
            }
        };
        Ok(self.fill_admitted(number, &mut worker.seat, claimed, queue))
    }

    /// Claims a region to fill.
    pub(crate) fn claim(&self, seat: &mut Seat, region: u32) -> Option<HeldRegion>
        requires board { board_of seat.old.pass ≡ identity (D.keeps self.now.shared.now.desk) }
        requires rest { Rests seat.old.pass }
        requires region { region < fill_count self.now.shared.now.survey }
        ensures board { board_of seat.new.pass ≡ identity (D.keeps self.now.shared.now.desk) }
        ensures entry { AppendsTo (moves_of (D.keeps self.now.shared.now.desk)) (worker_count (D.keeps self.now.shared.now.desk)) seat.old.pass seat.new.pass (Claim region) (if is_some result then Yes else No) }
        ensures claimed { IfSome result (λ h. (h.ticket.ticket.region ≡ region) × HoldsRegion (D.keeps self.now.shared.now.desk) (fill_count self.now.shared.now.survey) h seat.new.pass) }
        ensures refused { IfNone result (Rests seat.new.pass) }
    {
        moves_of_images();
        regions_to_fill();
        planned_image_is_valid(self.shared.survey.plan());
        let (ticket, region) = self.shared.desk.claim(seat, region, self.wait)?;
        Some(HeldRegion { ticket, region })
    }

    /// The region again if the gate admits it. Otherwise its ticket is given up.
    pub(crate) fn admit(&self, number: u32, claimed: HeldRegion) -> Result<HeldRegion, Fault>
        requires { claimed.ticket.ticket.region < fill_count self.now.shared.now.survey }
        ensures same { IfOk result (λ h. h ≡ claimed) }
        ensures refused { IfErr result (IsRefused (G.may_refuse self.now.gate.now number) (fill_count self.now.shared.now.survey)) }
    {
        if self.gate.before_fill(number, claimed.ticket.region()) {
            Ok(claimed)
        } else {
            Err(Fault::Gate)
        }
    }

    /// Fills and settles a region that was claimed. Calls `on_last` with each region that has no pending readers any more.
    /// Returns whether all regions to fill are settled.
    pub(crate) fn fill_admitted<F: FnMut(u32)>(
        &self,
        number: u32,
        seat: &mut Seat,
        claimed: HeldRegion,
        mut on_last: F,
    ) -> bool
        requires board { board_of seat.old.pass ≡ identity (D.keeps self.now.shared.now.desk) }
        requires callable { F.IsAlwaysCallable on_last }
        requires claimed { HoldsRegion (D.keeps self.now.shared.now.desk) (fill_count self.now.shared.now.survey) claimed seat.old.pass }
        ensures board { board_of seat.new.pass ≡ identity (D.keeps self.now.shared.now.desk) }
        ensures rest { IsAtRest seat.old.pass seat.new.pass }
        ensures settles { Settles claimed.ticket.ticket.region (caller seat.old.pass) (caller seat.new.pass) }
    {
        regions_to_fill();
        planned_image_is_valid(self.shared.survey.plan());
        let Shared {
            survey,
            desk,
            parts,
            ..
        } = self.shared;
        let region = claimed.ticket.region();
        let filler = Filler {
            desk,
            survey,
            wait: self.wait,
            redirects: parts.is_some(),
        };
        let done = filler.fill_region(seat, claimed.take(), &mut on_last);
        self.gate.after_complete(number, region);
        desk.settle(seat, done, self.wait)
    }

    /// Whether the gate has refused some worker.
    fn is_stopped(&self) -> bool {
        self.shared.stop.load(Ordering::SeqCst)
    }
}

/// Runs all workers, each in a thread of its own if one can be started, and otherwise one after another. Each waits at the
/// start line, and then fills regions until all are settled or the gate refuses some worker, which stops the others.
pub(crate) fn work_all<
    D: Desk<W> + Drop + Sync,
    G: Gate + Sync,
    T: Threads + Sync,
    W: RetryPolicy + Sync,
>(task: &FillTask<'_, '_, D, G, W>, workers: &mut [Worker], start: &StartLine, threads: &T)
    requires some { 0 < length workers.old }
    requires few { length workers.old ≤ 64 }
    requires thieves { vec_len task.now.shared.now.thieves ≡ length workers.old }
    requires seats { AreOf (D.keeps task.now.shared.now.desk) workers.old }
    requires rest { All (λ w. Rests w.seat.pass) workers.old }
    ensures seats { AreOf (D.keeps task.now.shared.now.desk) workers.new }
    ensures ends { AllEnd (D.keeps task.now.shared.now.desk) (fill_count task.now.shared.now.survey) workers.old workers.new }
    ensures early { All (λ w. IfErr w.result (MayEndEarly
        (λ r. MayBeRefused (λ n. G.may_refuse task.now.gate.now n r) (length workers.old))
        (fill_count task.now.shared.now.survey))) workers.new }
{
    let count = workers.len();
    // The closure captures each part by itself: the prover finds that threads may share these, and not a whole task.
    let (shared, gate, wait) = (task.shared, task.gate, task.wait);
    let work = |number: usize, worker: &mut Worker|
        requires { (number < vec_len shared.now.thieves) × (number < 2 ^ 32)
            × (board_of worker.old.seat.pass ≡ identity (D.keeps shared.now.desk)) × Rests worker.old.seat.pass }
        ensures { (board_of worker.new.seat.pass ≡ identity (D.keeps shared.entry.now.desk))
            × Ends (D.keeps shared.entry.now.desk) (fill_count shared.entry.now.survey) worker.new.result worker.old.seat.pass worker.new.seat.pass
            × IfErr worker.new.result (MayEndEarly (G.may_refuse gate.entry.now number) (fill_count shared.entry.now.survey)) }
    {
        start.pass(wait);
        let own = FillTask { shared, gate, wait };
        worker.result = own.fill_until_settled(number as u32, worker);
        if let Err(End::Failed(_)) = worker.result {
            shared.stop.store(true, Ordering::SeqCst);
        }
    };
    // Linux delays the first thread that is started, so this one is empty (see `thread_row`).
    let empty = if count > 1 {
        spawn(threads, || {}).ok()
    } else {
        None
    };
    start.open_if(empty.is_none());
    for_each_mut(threads, workers, count, &work);
    if let Some(empty) = empty {
        empty.join(threads);
    }
}
