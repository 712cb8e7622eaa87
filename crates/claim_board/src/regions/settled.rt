//! `RegionBoard::into_settled`.
ghost use Rattle.std.specs.Prelude.{◌≡◌, ℕ, ◌<◌, [], length, slice_index_or, IfSome, if◌then◌else◌};
ghost use Rattle.scheduler.specs.MoveTable.{region_count, to_fill};
ghost use Rattle.claim_board.specs.Boards.{board_of, held};
ghost use Rattle.claim_board.specs.RegionBoards.{moves as moves_of, identity, original_words, moved_words};

use super::region_board::RegionBoard;
use crate::finish::survey;
use crate::pass::Pass;
use raw_region::Region;
use std::marker::Brand;

impl RegionBoard {
    /// Ends the board by one of its passes, which must hold nothing. Returns the regions as `finish` if all regions to be filled
    /// are settled: passes that are missing hold none of them then.
    pub fn into_settled(self, pass: Pass) -> Option<Vec<Region>>
        requires board { board_of pass ≡ identity self }
        requires bare { held pass ≡ [] }
        ensures count { IfSome result (λ regions. length regions.items ≡ region_count (moves_of self)) }
        ensures words { IfSome result (λ regions. (r : ℕ) → r < region_count (moves_of self) → slice_index_or regions.items r [] ≡ (if to_fill (moves_of self) r then moved_words self r else original_words self r)) }
    {
        let Pass { mut place } = pass;
        let unsettled = survey::<Brand>(&self.table.shared, &mut place, self.sources.len());
        if unsettled == 0 {
            Some(self.into_regions(place))
        } else {
            None
        }
    }
}
