//! How the regions are united again from what was in the slots.
ghost use Rattle.std.specs.Prelude.{◌≡◌, ◌⊎◌, ◌+◌, ◌-◌, ◌<◌, ◌≤◌, ◌^◌, ◌==◌, ◌&&◌, not, suc, ℕ, true, false, IsTrue, [], length, slice_index_or, cond, nat_lt, if◌then◌else◌, Option, Some, None};
ghost use Rattle.std.specs.Box.{box_allocator};
ghost use Rattle.box_row.specs.Rows.{items, spot};
ghost use Rattle.read_shares.specs.Parts.{all_parts};
ghost use Rattle.scheduler.specs.MoveTable.{MoveTable, region_count};
ghost use Rattle.claim_board.specs.declared.regions.holding.Holding.{Holding};
ghost use Rattle.claim_board.specs.Holdings.{LieIn, is_share, lies_in, origin_of, parts_of, words_of, in_region};
ghost use Rattle.claim_board.specs.Places.{ArePlaces};
ghost use Rattle.claim_board.specs.Sharings.{with_right};
ghost use Rattle.claim_board.specs.Slots.{all_slots};
ghost use Rattle.claim_board.specs.Unions.{IsWhole, IsComplete, ChangesOnly, AreLeft, Empties, AreReady};

use super::holding::Holding;
use super::places::Places;
use super::slot_values::SlotValues;
use box_row::{InRow, Row};
use raw_region::Region;
use read_shares::{ReadShare, unite};

/// Joins a right to read, if there is one.
fn join_right(share: &mut ReadShare<Region>, right: Option<Holding>)
    requires right { (right ≡ None) ⊎ ((is_share right ≡ true) × (origin_of right ≡ share.old.origin)) }
    requires at_most { share.old.parts + parts_of right ≤ all_parts }
    ensures origin { share.new.origin ≡ share.old.origin }
    ensures parts { share.new.parts ≡ share.old.parts + parts_of right }
{
    if let Some(right) = right {
        match right {
            Holding::Share(other) => share.join(other),
            Holding::Original(_deed, _share) => {}
            Holding::Moved(_whole) => {}
        }
    }
}

/// The region, from what was in its slot and in those of its readers.
pub(crate) fn whole(
    region: Option<Holding>,
    one: Option<Holding>,
    other: Option<Holding>,
) -> Box<Region, InRow>
    requires { IsWhole region one other }
    ensures words { result.value ≡ words_of region }
    ensures place { lies_in region ≡ Some (box_allocator result) }
{
    let Some(region) = region else {
        unreachable!();
    };
    match region {
        Holding::Moved(whole) => whole.into_box(),
        Holding::Original(deed, share) => {
            let mut share = share;
            join_right(&mut share, one);
            join_right(&mut share, other);
            unite(deed, share)
        }
        Holding::Share(_share) => unreachable!(),
    }
}

/// Takes what is in the slot of a pair, if `index` is that of a pair.
fn take_right<S: SlotValues>(values: &mut S, pairs: usize, index: usize) -> Option<Holding>
    requires { index < pairs → IsTrue (S.is_left values.old (pairs - suc index)) }
    ensures taken { result ≡ (if nat_lt index pairs then slice_index_or (S.items values.old) (pairs - suc index) None else None) }
    ensures items { S.items values.new ≡ with_right pairs (S.items values.old) index None }
    ensures left { (k : ℕ) → S.is_left values.new k ≡ (S.is_left values.old k && not (nat_lt index pairs && k == pairs - suc index)) }
    ensures words { S.words values.new ≡ S.words values.old }
{
    if index < pairs {
        values.take_slot(pairs - 1 - index)
    } else {
        None
    }
}

/// Takes what is in the slots of a region: the region, and what its readers read it with.
pub(crate) fn take_slots<S: SlotValues>(
    values: &mut S,
    places: &Places,
    region: usize,
) -> (Option<Holding>, Option<Holding>, Option<Holding>)
    requires inside { region < length places.now.readers.items }
    requires small { places.now.pairs + region < 2 ^ 64 }
    requires left { (m : MoveTable) × ArePlaces m places.now × AreLeft m region (S.is_left values.old) }
    ensures whole { (m : MoveTable) → ArePlaces m places.now → IsComplete m region (S.items values.old) → IsWhole result.0 result.1 result.2 }
    ensures value { (m : MoveTable) → ArePlaces m places.now → result.0 ≡ in_region m (S.items values.old) region }
    ensures others { (m : MoveTable) → ArePlaces m places.now → ChangesOnly m region (S.items values.old) (S.items values.new) }
    ensures emptied { (m : MoveTable) → ArePlaces m places.now → Empties m region (S.is_left values.old) (S.is_left values.new) }
    ensures words { S.words values.new ≡ S.words values.old }
{
    let (first, second) = places.readers[region];
    let value = values.take_slot(places.pairs + region);
    let one = take_right(values, places.pairs, first);
    let other = take_right(values, places.pairs, second);
    (value, one, other)
}

/// Unites a region, and takes its slots empty.
fn unite_region<S: SlotValues>(values: &mut S, places: &Places, region: usize) -> Box<Region, InRow>
    requires inside { region < length places.now.readers.items }
    requires small { places.now.pairs + region < 2 ^ 64 }
    requires complete { (m : MoveTable) × ArePlaces m places.now × AreLeft m region (S.is_left values.old) × IsComplete m region (S.items values.old) }
    ensures united { (m : MoveTable) → ArePlaces m places.now → result.value ≡ words_of (in_region m (S.items values.old) region) }
    ensures place { (m : MoveTable) → ArePlaces m places.now → lies_in (in_region m (S.items values.old) region) ≡ Some (box_allocator result) }
    ensures others { (m : MoveTable) → ArePlaces m places.now → ChangesOnly m region (S.items values.old) (S.items values.new) }
    ensures emptied { (m : MoveTable) → ArePlaces m places.now → Empties m region (S.is_left values.old) (S.is_left values.new) }
{
    let (value, one, other) = take_slots(values, places, region);
    whole(value, one, other)
}

/// Unites all regions, and returns them from their row, in which none is.
pub(crate) fn unite_all<S: SlotValues>(
    values: &mut S,
    places: &Places,
    mut row: Row<Region>,
) -> Vec<Region>
    requires complete { (m : MoveTable) × ArePlaces m places.now × AreReady m (S.items values.old) (S.is_left values.old) × LieIn m (spot row) (S.items values.old) }
    requires empty { items row ≡ [] }
    requires room { length places.now.readers.items ≡ row.count }
    ensures united { (m : MoveTable) → ArePlaces m places.now → AreReady m (S.items values.old) (S.is_left values.old) → (length result.items ≡ region_count m) × ((r : ℕ) → r < region_count m → slice_index_or result.items r [] ≡ words_of (in_region m (S.items values.old) r)) }
    ensures emptied { (m : MoveTable) → ArePlaces m places.now → AreReady m (S.items values.old) (S.is_left values.old) → (k : ℕ) → (all_slots m ≤ k → S.is_left values.old k ≡ false) → S.is_left values.new k ≡ false }
{
    for region in 0..places.readers.len() {
        row.push(unite_region(values, places, region));
    }
    row.into_values()
}
