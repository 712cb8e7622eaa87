ghost use Rattle.std.specs.Prelude.{◌≡◌, ◌<◌, IfErr, OnOk};
ghost use Rattle.summary.specs.RegionData.{fill_count};
ghost use Rattle.scheduler.specs.History.{BeginsWith};
ghost use Rattle.claim_board.specs.Boards.{board_of, worker, seen, mine};
ghost use Rattle.claim_board.specs.RegionBoards.{moves as moves_of, worker_count, identity};
ghost use Rattle.collector.specs.Halts.{IsRefused};
ghost use Rattle.collector.specs.Rest.{Rests, IsAtRest, Leaves, AreSettledAtRest, SettlesNext};

use super::end::End;
use super::fill_task::FillTask;
use super::worker::Worker;
use crate::gate::Gate;
use claim_board::{Desk, Seat};
use heap_image::Fault;
use retry_policy::RetryPolicy;
use scheduler::{
    lowest_claims_are_granted, moves_are_lawful, moves_of_images, what_legal_histories_keep,
    what_own_calls_tell,
};
use std::mem;
use summary::laws::plans::planned_image_is_valid;
use summary::laws::region_data::regions_to_fill;

impl<D: Desk<W> + Drop, G: Gate, W: RetryPolicy> FillTask<'_, '_, D, G, W> {
    /// Fills the regions that no worker has claimed, in ascending order, so that each claim finds all regions below filled and
    /// is granted. Uses no queue.
    ///
    /// All regions to fill are settled then, if the other workers had settled each region that they claimed, and no other worker
    /// makes a call meanwhile. Returns the gate's refusal.
    pub(crate) fn fill_rest(&self, number: u32, seat: &mut Seat) -> Result<(), Fault>
        requires board { board_of seat.old.pass ≡ identity (D.keeps self.now.shared.now.desk) }
        requires rest { Rests seat.old.pass }
        ensures board { board_of seat.new.pass ≡ identity (D.keeps self.now.shared.now.desk) }
        ensures rest { OnOk result (IsAtRest seat.old.pass seat.new.pass) }
        ensures seen { OnOk result (BeginsWith (seen seat.new.pass) (seen seat.old.pass)) }
        ensures settled { OnOk result (AreSettledAtRest (moves_of (D.keeps self.now.shared.now.desk)) (worker_count (D.keeps self.now.shared.now.desk)) (worker seat.old.pass) (seen seat.old.pass) (seen seat.new.pass)) }
        ensures fault { IfErr result (IsRefused (G.may_refuse self.now.gate.now number) (fill_count self.now.shared.now.survey)) }
    {
        let plan = self.shared.survey.plan();
        moves_of_images();
        regions_to_fill();
        planned_image_is_valid(plan);
        for region in 0..plan.fill_regions() {
            self.fill_if_unclaimed(number, seat, region)?;
        }
        Ok(())
    }

    /// Claims a region, and fills and settles it if nobody has claimed it and all regions below it are filled.
    fn fill_if_unclaimed(&self, number: u32, seat: &mut Seat, region: u32) -> Result<(), Fault>
        requires board { board_of seat.old.pass ≡ identity (D.keeps self.now.shared.now.desk) }
        requires rest { Rests seat.old.pass }
        requires region { region < fill_count self.now.shared.now.survey }
        ensures board { board_of seat.new.pass ≡ identity (D.keeps self.now.shared.now.desk) }
        ensures rest { OnOk result (IsAtRest seat.old.pass seat.new.pass) }
        ensures seen { OnOk result (BeginsWith (seen seat.new.pass) (seen seat.old.pass)) }
        ensures next { OnOk result (SettlesNext (moves_of (D.keeps self.now.shared.now.desk)) (worker_count (D.keeps self.now.shared.now.desk)) (worker seat.old.pass) (seen seat.old.pass) (seen seat.new.pass) region) }
        ensures fault { IfErr result (IsRefused (G.may_refuse self.now.gate.now number) (fill_count self.now.shared.now.survey)) }
    {
        moves_of_images();
        regions_to_fill();
        planned_image_is_valid(self.shared.survey.plan());
        moves_are_lawful(self.shared.desk.board().moves());
        what_legal_histories_keep();
        what_own_calls_tell();
        lowest_claims_are_granted();
        let Some(claimed) = self.claim(seat, region) else {
            return Ok(());
        };
        let claimed = self.admit(number, claimed)?;
        self.fill_admitted(number, seat, claimed, |_| {});
        Ok(())
    }

    /// Fills the region that a worker was stopped with, if there is one: the gate has admitted it.
    pub(crate) fn fill_held(&self, number: u32, worker: &mut Worker)
        requires board { board_of worker.old.seat.pass ≡ identity (D.keeps self.now.shared.now.desk) }
        requires left { Leaves (D.keeps self.now.shared.now.desk) (fill_count self.now.shared.now.survey) worker.old.result worker.old.seat.pass }
        ensures board { board_of worker.new.seat.pass ≡ identity (D.keeps self.now.shared.now.desk) }
        ensures rest { IsAtRest worker.old.seat.pass worker.new.seat.pass }
    {
        if let Err(End::Stopped(Some(held))) = mem::replace(&mut worker.result, Ok(())) {
            self.fill_admitted(number, &mut worker.seat, held, |_| {});
        }
    }
}
