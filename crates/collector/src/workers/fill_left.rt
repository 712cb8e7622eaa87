//! What is left to fill once all workers have stopped, in the caller's thread.
ghost use Rattle.std.specs.Prelude.{◌≡◌, ◌<◌, ◌≤◌, suc, IsTrue, List, [], ◌∷◌, All, length, IfErr, OnOk};
ghost use Rattle.summary.specs.RegionData.{fill_count};
ghost use Rattle.scheduler.specs.declared.entry.Entry.{Entry};
ghost use Rattle.scheduler.specs.State.{AllAreSettled};
ghost use Rattle.scheduler.specs.History.{BeginsWith, calls_by, state_of};
ghost use Rattle.claim_board.specs.Boards.{board_of, caller, worker, seen, mine, held, Stays};
ghost use Rattle.claim_board.specs.RegionBoards.{moves as moves_of, worker_count, identity};
ghost use Rattle.collector.specs.Halts.{IsLostTo};
ghost use Rattle.collector.specs.Rest.{Rests, IsAtRest, AreStopped, AreAtRest, AreSame, IsFilled, AreOf, AreBare, callers_of};

use super::fill_task::FillTask;
use super::worker::Worker;
use crate::gate::Gate;
use claim_board::{Desk, Pass, RegionBoard, Seat};
use heap_image::Fault;
use retry_policy::RetryPolicy;
use scheduler::moves_of_images;
use summary::laws::plans::planned_image_is_valid;

/// Fills what the workers have left. All regions to fill are settled then. If it `asks`, it first asks the board whether they
/// are. Returns the gate's refusal.
pub(crate) fn fill_left<D: Desk<W> + Drop, G: Gate, W: RetryPolicy>(
    task: &FillTask<'_, '_, D, G, W>,
    workers: &mut [Worker],
    asks: bool,
) -> Result<(), Fault>
    requires all { length workers.old ≡ worker_count (D.keeps task.now.shared.now.desk) }
    requires some { 0 < length workers.old }
    requires few { length workers.old ≤ 64 }
    requires seats { AreOf (D.keeps task.now.shared.now.desk) workers.old }
    requires stopped { AreStopped (D.keeps task.now.shared.now.desk) (fill_count task.now.shared.now.survey) workers.old }
    ensures seats { AreOf (D.keeps task.now.shared.now.desk) workers.new }
    ensures bare { OnOk result (AreBare workers.new) }
    ensures filled { OnOk result (IsFilled (moves_of (D.keeps task.now.shared.now.desk)) (length workers.old) (callers_of workers.new)) }
    ensures fault { IfErr result (IsLostTo (G.may_refuse task.now.gate.now) (length workers.old) task.now.shared.now.survey) }
{
    fill_held(task, workers);
    fill_unclaimed(task, workers, asks)
}

/// Fills the regions that workers were stopped with.
fn fill_held<D: Desk<W> + Drop, G: Gate, W: RetryPolicy>(
    task: &FillTask<'_, '_, D, G, W>,
    workers: &mut [Worker],
)
    requires few { length workers.old ≤ 64 }
    requires seats { AreOf (D.keeps task.now.shared.now.desk) workers.old }
    requires stopped { AreStopped (D.keeps task.now.shared.now.desk) (fill_count task.now.shared.now.survey) workers.old }
    ensures seats { AreOf (D.keeps task.now.shared.now.desk) workers.new }
    ensures bare { AreBare workers.new }
    ensures rest { AreAtRest (callers_of workers.new) }
{
    let mut number = 0;
    for worker in workers.iter_mut() {
        task.fill_held(number, worker);
        number += 1;
    }
}

/// Lets worker 0 fill the regions that nobody has claimed.
fn fill_unclaimed<D: Desk<W> + Drop, G: Gate, W: RetryPolicy>(
    task: &FillTask<'_, '_, D, G, W>,
    workers: &mut [Worker],
    asks: bool,
) -> Result<(), Fault>
    requires all { length workers.old ≡ worker_count (D.keeps task.now.shared.now.desk) }
    requires some { 0 < length workers.old }
    requires seats { AreOf (D.keeps task.now.shared.now.desk) workers.old }
    requires bare { AreBare workers.old }
    requires rest { AreAtRest (callers_of workers.old) }
    ensures seats { AreOf (D.keeps task.now.shared.now.desk) workers.new }
    ensures bare { OnOk result (AreBare workers.new) }
    ensures filled { OnOk result (IsFilled (moves_of (D.keeps task.now.shared.now.desk)) (length workers.old) (callers_of workers.new)) }
    ensures fault { IfErr result (IsLostTo (G.may_refuse task.now.gate.now) (length workers.old) task.now.shared.now.survey) }
{
    let Some((first, others)) = workers.split_first_mut() else {
        unreachable!();
    };
    fill_behind(task, &mut first.seat, others, asks)
}

/// Lets the worker with this seat, which is worker 0, fill the regions that nobody has claimed.
fn fill_behind<D: Desk<W> + Drop, G: Gate, W: RetryPolicy>(
    task: &FillTask<'_, '_, D, G, W>,
    seat: &mut Seat,
    others: &mut [Worker],
    asks: bool,
) -> Result<(), Fault>
    requires all { suc (length others.old) ≡ worker_count (D.keeps task.now.shared.now.desk) }
    requires board { board_of seat.old.pass ≡ identity (D.keeps task.now.shared.now.desk) }
    requires bare { held seat.old.pass ≡ [] }
    requires seats { AreOf (D.keeps task.now.shared.now.desk) others.old }
    requires others_bare { AreBare others.old }
    requires rest { AreAtRest (caller seat.old.pass ∷ callers_of others.old) }
    ensures board { board_of seat.new.pass ≡ identity (D.keeps task.now.shared.now.desk) }
    ensures bare { OnOk result (held seat.new.pass ≡ []) }
    ensures seats { AreOf (D.keeps task.now.shared.now.desk) others.new }
    ensures others_bare { AreBare others.new }
    ensures filled { OnOk result (IsFilled (moves_of (D.keeps task.now.shared.now.desk)) (suc (length others.old)) (caller seat.new.pass ∷ callers_of others.new)) }
    ensures fault { IfErr result (IsLostTo (G.may_refuse task.now.gate.now) (suc (length others.old)) task.now.shared.now.survey) }
{
    let board = task.shared.desk.board();
    if are_settled(board, &mut seat.pass, asks) {
        return Ok(());
    }
    meet_all(board, &mut seat.pass, others);
    task.fill_rest(0, seat)
}

/// Whether the board says that all regions to fill are settled, if it is asked.
fn are_settled(board: &RegionBoard, pass: &mut Pass, asks: bool) -> bool
    requires board { board_of pass.old ≡ identity board.now }
    requires rest { Rests pass.old }
    ensures board { board_of pass.new ≡ identity board.now }
    ensures rest { IsAtRest pass.old pass.new }
    ensures settled { IsTrue result → (log : List Entry) → BeginsWith log (seen pass.new) → AllAreSettled (moves_of board.now) (state_of log) }
{
    asks && board.poll(pass)
}

/// Lets a pass hear of all calls of the other workers.
fn meet_all(board: &RegionBoard, pass: &mut Pass, others: &mut [Worker])
    requires board { board_of pass.old ≡ identity board.now }
    requires seats { AreOf board.now others.old }
    requires bare { AreBare others.old }
    ensures stays { Stays pass.old pass.new }
    ensures held { held pass.new ≡ held pass.old }
    ensures seats { AreOf board.now others.new }
    ensures bare { AreBare others.new }
    ensures others { AreSame (callers_of others.old) (callers_of others.new) }
    ensures seen { BeginsWith (seen pass.new) (seen pass.old) }
    ensures heard { All (λ w. BeginsWith (calls_by (worker w.seat.pass) (seen pass.new)) (mine w.seat.pass)) others.new }
{
    for other in others.iter_mut() {
        board.meet(pass, &mut other.seat.pass);
    }
}
