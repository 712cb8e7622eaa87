//! How the regions of a board that isn't finished are freed. The words of the table tell which regions are in the slots.
ghost use Rattle.std.specs.Prelude.{◌≡◌, ◌==◌, ◌||◌, ◌+◌, ◌<◌, ◌≤◌, ◌^◌, suc, not, true, IsTrue, nat_lt, length, slice_index, slice_index_or};
ghost use Rattle.std.specs.Mem.Slots.{slots_items, slots_filled, slots_len, IsFull};
ghost use Rattle.scheduler.specs.MoveTable.{MoveTable, IsMoveTable, region_count};
ghost use Rattle.claim_board.specs.Homes.{is_claimed_word, destination_at, IsHome, AreAsWordsSay, AreThere};
ghost use Rattle.claim_board.specs.Places.{ArePlaces};
ghost use Rattle.claim_board.specs.Unions.{AreLeft, ChangesOnly, Empties, IsComplete};

use super::holding::Holding;
use super::places::Places;
use super::slot_values::SlotValues;
use super::uniting::{take_slots, whole};
use crate::calls::COMPLETED;
use crate::rule::steps::CLAIMED;
use atomic_table::Closed;
use std::alloc::Global;

/// Whether the word is that of a claimed region, filled or not.
pub(crate) fn is_claimed(word: u64) -> bool
    ensures { result ≡ is_claimed_word word }
{
    word == CLAIMED || word == COMPLETED
}

/// The destination of a pair, by binary search.
fn destination_of(places: &Places, pair: usize) -> usize
    requires { (m : MoveTable) × IsMoveTable m × ArePlaces m places.now × (pair < length m.pairs) }
    ensures { (m : MoveTable) → IsMoveTable m → ArePlaces m places.now → pair < length m.pairs → result ≡ destination_at m pair }
{
    places.first.as_slice().partition_point(
        |first: &usize| -> bool
            ensures { result ≡ not (nat_lt pair first.now) }
        { !(pair < *first) },
    ) - 1
}

/// Whether the destination of a pair is being filled, if `pair` is the index of one.
fn is_at_work(closed: &Closed<Option<Holding>, Global>, places: &Places, pair: usize) -> bool
    requires there { AreThere (slots_items closed.now.words) (slots_filled closed.now.words) }
    requires lawful { (m : MoveTable) × IsMoveTable m × ArePlaces m places.now × (length (slots_items closed.now.words) ≡ suc (region_count m)) }
    ensures { (m : MoveTable) → IsMoveTable m → ArePlaces m places.now → pair < length m.pairs → result ≡ (slice_index (slots_items closed.now.words) (destination_at m pair) == 8) }
{
    pair < places.pairs && closed.word(destination_of(places, pair)) == CLAIMED
}

/// Whether a region isn't claimed, and none of its readers is being filled.
fn is_home(closed: &Closed<Option<Holding>, Global>, places: &Places, region: usize) -> bool
    requires there { AreThere (slots_items closed.now.words) (slots_filled closed.now.words) }
    requires inside { region < length places.now.readers.items }
    requires lawful { (m : MoveTable) × IsMoveTable m × ArePlaces m places.now × (length (slots_items closed.now.words) ≡ suc (region_count m)) }
    ensures { IsTrue result → (m : MoveTable) → IsMoveTable m → ArePlaces m places.now → IsHome m (slots_items closed.now.words) region }
{
    let (first, second) = places.readers[region];
    if is_claimed(closed.word(region)) || is_at_work(closed, places, first) {
        return false;
    }
    !is_at_work(closed, places, second)
}

/// Takes a region's slots empty, and frees the region if it has moved, or if it is complete, as `complete` says.
fn free_region<S: SlotValues>(values: &mut S, places: &Places, region: usize, complete: bool)
    requires inside { region < length places.now.readers.items }
    requires small { places.now.pairs + region < 2 ^ 64 }
    requires left { (m : MoveTable) × ArePlaces m places.now × AreLeft m region (S.is_left values.old) × (complete ≡ true → IsComplete m region (S.items values.old)) }
    ensures others { (m : MoveTable) → ArePlaces m places.now → ChangesOnly m region (S.items values.old) (S.items values.new) }
    ensures emptied { (m : MoveTable) → ArePlaces m places.now → Empties m region (S.is_left values.old) (S.is_left values.new) }
    ensures words { S.words values.new ≡ S.words values.old }
{
    let (value, one, other) = take_slots(values, places, region);
    if complete {
        let _whole = whole(value, one, other);
    }
}

/// Takes all slots empty and frees them, and each region that has moved, and each that isn't claimed while none of its readers
/// is being filled.
pub(crate) fn free_regions(mut closed: Closed<Option<Holding>, Global>, places: &Places)
    requires full { IsFull closed.words × IsFull closed.slots }
    requires home { (m : MoveTable) × ArePlaces m places.now × AreAsWordsSay m (slots_items closed.words) (slots_items closed.slots) }
{
    for region in 0..places.readers.len() {
        let complete = is_home(&closed, places, region);
        free_region(&mut closed, places, region, complete);
    }
    closed.free();
}
