//! How the regions are shared out into the slots, when a board is made.
ghost use Rattle.std.specs.Prelude.{◌≡◌, ◌+◌, ◌<◌, ◌≤◌, ℕ, [], length, slice_index_or, cond, nat_lt, Some};
ghost use Rattle.std.specs.Box.{box_allocator};
ghost use Rattle.box_row.specs.Rows.{IsSameRow, items, spot};
ghost use Rattle.scheduler.specs.MoveTable.{MoveTable, IsMoveTable, region_count};
ghost use Rattle.claim_board.specs.declared.regions.holding.Holding.TheVariants.{Share};
ghost use Rattle.claim_board.specs.Places.{ArePlaces};
ghost use Rattle.claim_board.specs.Sharings.{SharesOut, AreSharedFrom, with_right};
ghost use Rattle.claim_board.specs.Slots.{all_slots};

use super::holding::Holding;
use super::places::Places;
use box_row::{InRow, Row};
use raw_region::Region;
use read_shares::{ReadShare, share_out};

/// Splits a right to read off and puts it into the slot of a pair, if `index` is that of a pair.
fn put_right(
    values: &mut Vec<Option<Holding>>,
    share: &mut ReadShare<Region>,
    pairs: usize,
    index: usize,
)
    requires room { pairs ≤ length values.old.items }
    requires parts { 1 < share.old.parts }
    ensures put { values.new.items ≡ with_right pairs values.old.items index (Some (Share (record share.old { parts = 1 }))) }
    ensures same { (share.new.origin ≡ share.old.origin) × (share.new.value ≡ share.old.value) }
    ensures size { length values.new.items ≡ length values.old.items }
    ensures left { share.new.parts + cond (nat_lt index pairs) 1 0 ≡ share.old.parts }
{
    if index < pairs {
        values[pairs - 1 - index] = Some(Holding::Share(share.split_one()));
    }
}

/// Shares a region out: puts it into its slot, and a right to read it into that of each reader.
fn share_region(
    values: &mut Vec<Option<Holding>>,
    places: &Places,
    region: usize,
    whole: Box<Region, InRow>,
)
    requires room { places.now.pairs + region < length values.old.items }
    requires inside { region < length places.now.readers.items }
    ensures size { length values.new.items ≡ length values.old.items }
    ensures shared { (m : MoveTable) → ArePlaces m places.now → region < region_count m → length values.old.items ≡ all_slots m → SharesOut m region whole.value (box_allocator whole) values.old.items values.new.items }
{
    let (first, second) = places.readers[region];
    let (deed, mut share) = share_out(whole);
    put_right(values, &mut share, places.pairs, first);
    put_right(values, &mut share, places.pairs, second);
    values[places.pairs + region] = Some(Holding::Original(deed, share));
}

/// Shares all regions out, so that none is left in the row.
pub(crate) fn share_all(row: &mut Row<Region>, values: &mut Vec<Option<Holding>>, places: &Places)
    requires all { length (items row.old) ≡ length places.now.readers.items }
    requires room { places.now.pairs + length (items row.old) ≡ length values.old.items }
    ensures empty { items row.new ≡ [] }
    ensures same { IsSameRow row.old row.new }
    ensures size { length values.new.items ≡ length values.old.items }
    ensures shared { (m : MoveTable) → IsMoveTable m → ArePlaces m places.now → length values.old.items ≡ all_slots m → AreSharedFrom m 0 (λ r. slice_index_or (items row.old) r []) (spot row.old) values.new.items }
{
    while let Some(whole) = row.pop() {
        share_region(values, places, row.len(), whole);
    }
}
