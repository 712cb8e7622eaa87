//! `RegionBoard::take_back`.
ghost use Rattle.std.specs.Prelude.{◌≡◌, ℕ, ◌<◌, List, [], length, slice_index, slice_index_or, true, false, IsTrue, IfSome, IfNone, is_some};
ghost use Rattle.std.specs.Mem.Slots.{slots_items, slots_filled};
ghost use Rattle.scheduler.specs.declared.entry.Entry.{Entry};
ghost use Rattle.scheduler.specs.MoveTable.{region_count};
ghost use Rattle.scheduler.specs.History.{IsLegal, state_of};
ghost use Rattle.claim_board.specs.Homes.{is_claimed_word, AreThere};
ghost use Rattle.claim_board.specs.RegionBoards.{moves as moves_of, worker_count, original_words};

use super::finishing::unite_closed;
use super::freeing::{free_regions, is_claimed};
use super::holding::Holding;
use super::region_board::{RegionBoard, Remains};
use atomic_table::Closed;
use raw_region::Region;
use scheduler::{how_counts_go_down, what_legal_histories_keep};
use std::alloc::Global;

/// The first claimed region, by the words of the table.
fn first_claimed(closed: &Closed<Option<Holding>, Global>, regions: usize) -> Option<usize>
    requires there { AreThere (slots_items closed.now.words) (slots_filled closed.now.words) }
    requires room { regions < length (slots_items closed.now.words) }
    ensures none { IfNone result ((r : ℕ) → r < regions → is_claimed_word (slice_index (slots_items closed.now.words) r) ≡ false) }
    ensures some { IfSome result (λ r. (r < regions) × (is_claimed_word (slice_index (slots_items closed.now.words) r) ≡ true)) }
{
    for region in 0..regions {
        if is_claimed(closed.word(region)) {
            return Some(region);
        }
    }
    None
}

impl RegionBoard {
    /// Ends a board of which no region was claimed, and returns all regions with their original words. Its passes are of no
    /// use then. `None` says that a region was claimed; then the board is dropped.
    pub fn take_back(self) -> Option<Vec<Region>>
        ensures count { IfSome result (λ back. length back.items ≡ region_count (moves_of self)) }
        ensures words { IfSome result (λ back. (r : ℕ) → r < region_count (moves_of self) → slice_index_or back.items r [] ≡ original_words self r) }
        ensures claimed { IfNone result ((log : List Entry) × IsLegal (moves_of self) (worker_count self) log × ((r : ℕ) × IsTrue (is_some ((state_of log).claimed r)))) }
    {
        what_legal_histories_keep();
        how_counts_go_down();
        let Remains { table, places, row } = self.take_apart();
        let closed = table.close();
        match first_claimed(&closed, places.readers.len()) {
            None => Some(unite_closed(closed, &places, row)),
            Some(_region) => {
                free_regions(closed, &places);
                None
            }
        }
    }
}
