//! `RegionBoard::meet`.
ghost use Rattle.std.specs.Prelude.{◌≡◌};
ghost use Rattle.scheduler.specs.History.{IsLegal, BeginsWith, calls_by};
ghost use Rattle.claim_board.specs.Boards.{board_of, worker, seen, mine, held, Stays};
ghost use Rattle.claim_board.specs.RegionBoards.{moves as moves_of, worker_count, identity};

use super::region_board::RegionBoard;
use crate::meet::exchange;
use crate::pass::Pass;

impl RegionBoard {
    /// Exchanges what two workers have seen, as `Board::meet`. What the passes hold stays theirs.
    pub fn meet(&self, a: &mut Pass, b: &mut Pass)
        requires boards { (board_of a.old ≡ identity self.now) × (board_of b.old ≡ identity self.now) }
        ensures stay { Stays a.old a.new × Stays b.old b.new }
        ensures held { (held a.new ≡ held a.old) × (held b.new ≡ held b.old) }
        ensures same { seen b.new ≡ seen a.new }
        ensures begins { BeginsWith (seen a.new) (seen a.old) × BeginsWith (seen a.new) (seen b.old) }
        ensures legal { IsLegal (moves_of self.now) (worker_count self.now) (seen a.new) }
        ensures calls { (calls_by (worker a.old) (seen a.new) ≡ mine a.old) × (calls_by (worker b.old) (seen a.new) ≡ mine b.old) }
    {
        exchange(&self.table.shared, a, b);
    }
}
