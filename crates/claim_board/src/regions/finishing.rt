//! `RegionBoard::finish`.
ghost use Rattle.std.specs.Prelude.{◌≡◌, ℕ, ◌<◌, ◌≤◌, suc, List, [], length, slice_index_or, vec_len, IsSome, IfSome, ◌↔◌, if◌then◌else◌};
ghost use Rattle.std.specs.Mem.Slots.{slots_items, IsFull};
ghost use Rattle.box_row.specs.Rows.{items, spot};
ghost use Rattle.scheduler.specs.declared.entry.Entry.{Entry};
ghost use Rattle.scheduler.specs.MoveTable.{MoveTable, region_count, to_fill};
ghost use Rattle.scheduler.specs.State.{unsettled};
ghost use Rattle.scheduler.specs.History.{IsLegal, state_of};
ghost use Rattle.claim_board.specs.Boards.{AllOf, AllBare, AllStand};
ghost use Rattle.claim_board.specs.Finishes.{history};
ghost use Rattle.claim_board.specs.Holdings.{LieIn, words_of, in_region};
ghost use Rattle.claim_board.specs.Places.{ArePlaces};
ghost use Rattle.claim_board.specs.RegionBoards.{moves as moves_of, worker_count, identity, original_words, moved_words};
ghost use Rattle.claim_board.specs.Unions.{AreComplete};

use super::holding::Holding;
use super::places::Places;
use super::region_board::{RegionBoard, Remains};
use super::uniting::unite_all;
use crate::finish::{gather, survey};
use crate::finished::Finished;
use crate::pass::Pass;
use crate::rule::Place;
use atomic_table::Closed;
use box_row::Row;
use raw_region::Region;
use scheduler::what_legal_histories_keep;
use std::alloc::Global;
use std::marker::Brand;
use std::snapshot::Snapshot;

/// Unites all regions from the slots of a table that no thread shares any more, and frees the slots.
pub(crate) fn unite_closed(
    mut closed: Closed<Option<Holding>, Global>,
    places: &Places,
    row: Row<Region>,
) -> Vec<Region>
    requires full { IsFull closed.slots }
    requires complete { (m : MoveTable) × ArePlaces m places.now × AreComplete m (slots_items closed.slots) × LieIn m (spot row) (slots_items closed.slots) }
    requires empty { items row ≡ [] }
    requires room { length places.now.readers.items ≡ row.count }
    ensures { (m : MoveTable) → ArePlaces m places.now → AreComplete m (slots_items closed.slots) → (length result.items ≡ region_count m) × ((r : ℕ) → r < region_count m → slice_index_or result.items r [] ≡ words_of (in_region m (slots_items closed.slots) r)) }
{
    let regions = unite_all(&mut closed, places, row);
    closed.free();
    regions
}

impl RegionBoard {
    /// The regions of a board all of whose regions to be filled are settled. The seat has seen that.
    pub(crate) fn into_regions(self, place: Place) -> Vec<Region>
        requires seat { place.table_id ≡ identity self }
        requires settled { unsettled (moves_of self) (state_of place.me.0.note) ≡ 0 }
        requires legal { IsLegal (moves_of self) (worker_count self) place.me.0.note }
        ensures count { length result.items ≡ region_count (moves_of self) }
        ensures words { (r : ℕ) → r < region_count (moves_of self) → slice_index_or result.items r [] ≡ (if to_fill (moves_of self) r then moved_words self r else original_words self r) }
    {
        what_legal_histories_keep();
        let Remains { table, places, row } = self.take_apart();
        unite_closed(table.close_with(place), &places, row)
    }

    /// Ends the board and its passes, which must hold nothing. Returns `Some` if and only if no pass of the board is missing
    /// and all regions to be filled are settled, with the history as `Board::finish`, and all regions: each to be filled with
    /// its moved words, the others with their original ones. `None` drops the board, and what it has of the regions.
    pub fn finish(self, passes: Vec<Pass>) -> Option<(Finished, Vec<Region>)>
        requires all { AllOf (identity self) passes.items }
        requires bare { AllBare passes.items }
        ensures history { (h : List Entry) × IsLegal (moves_of self) (worker_count self) h × AllStand h passes.items
            × (IsSome result ↔ ((vec_len passes ≡ worker_count self) × (unsettled (moves_of self) (state_of h) ≡ 0)))
            × IfSome result (λ ended. history ended.0 ≡ h) }
        ensures count { IfSome result (λ ended. length ended.1.items ≡ region_count (moves_of self)) }
        ensures words { IfSome result (λ ended. (r : ℕ) → r < region_count (moves_of self) → slice_index_or ended.1.items r [] ≡ (if to_fill (moves_of self) r then moved_words self r else original_words self r)) }
    {
        let count = passes.len();
        let mut place = gather(&self.table.shared, passes)?;
        let unsettled = survey::<Brand>(&self.table.shared, &mut place, self.sources.len());
        if count == self.workers as usize && unsettled == 0 {
            let finished = Finished {
                last: Snapshot::of(&place),
            };
            Some((finished, self.into_regions(place)))
        } else {
            None
        }
    }
}
