ghost use Rattle.std.specs.Prelude.{ℕ, List, IsTrue};
ghost use Rattle.scheduler.specs.MoveTable.{MoveTable, IsMoveTable, Slides, reads};
ghost use Rattle.scheduler.specs.State.{State};
ghost use Rattle.scheduler.specs.History.{IsLegal, IsOrderly, IsReached, TellsOwn, CountsDown, state_of, calls_by};
ghost use Rattle.scheduler.specs.declared.entry.Entry.{Entry};

pub(crate) mod going_on;
pub(crate) mod image_laws;
pub(crate) mod line_laws;
pub(crate) mod whole_histories;

use crate::moves::Moves;

/// For any number of workers and any order of calls: a region is granted at most once, when it has no
/// pending readers and will have none; only its claimant completes it, after all its reads are drained;
/// and exactly the last settling returns `All`.
pub fn legal_histories_are_orderly()
    ensures { (m : MoveTable) (workers : ℕ) (log : List Entry) → IsLegal m workers log → IsOrderly m log }
{}

/// In each state to which a legal history leads, settled regions are filled, filled regions are
/// claimed, a claimed region has no pending readers and a filled one no undrained sources.
pub fn what_legal_histories_keep()
    ensures { (m : MoveTable) (workers : ℕ) (log : List Entry) → IsLegal m workers log → IsReached m (state_of log) }
{}

/// One worker's own calls in a legal history determine the state of each region that it claimed,
/// whatever the other workers called in between, and say nothing about any other region.
pub fn what_own_calls_tell()
    ensures { (m : MoveTable) (workers worker : ℕ) (log : List Entry) → IsLegal m workers log → TellsOwn worker (state_of (calls_by worker log)) (state_of log) }
{}

/// The counts of readers, sources and unsettled regions that are left: a region has at most two
/// readers, and each drain and each settling lowers its own counts by one and leaves the others.
pub fn how_counts_go_down()
    ensures { (m : MoveTable) (now : State) → IsMoveTable m → CountsDown m now }
{}

/// In each pair of a table of moves, words slide down, from a region in range to one that is to be
/// filled.
pub fn pairs_slide_down()
    ensures { (m : MoveTable) (d s : ℕ) → IsMoveTable m → IsTrue (reads m d s) → Slides m.fill (d, s) }
{}

/// Moves keep the laws of a table.
pub fn moves_are_lawful<M: Moves>(moves: &M)
    ensures { IsMoveTable (M.table moves.now) }
{
    moves.regions();
}
