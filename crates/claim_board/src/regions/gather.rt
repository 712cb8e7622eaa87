//! How a granted claim gathers its region: the deed, and all rights to read it.
ghost use Rattle.std.specs.Prelude.{◌≡◌, ◌+◌, ◌-◌, ◌<◌, ◌≤◌, List, [], ◌∷◌, ◌++◌, true, Option, Some, None, ℕ, length, slice_index};
ghost use Rattle.std.specs.Box.{box_allocator};
ghost use Rattle.atomic_table.specs.Table.{rest};
ghost use Rattle.read_shares.specs.Parts.{all_parts};
ghost use Rattle.scheduler.specs.MoveTable.{IsMoveTable, region_count};
ghost use Rattle.claim_board.specs.declared.regions.holding.Holding.{Holding};
ghost use Rattle.claim_board.specs.Holdings.{AreRegions, in_region, is_share, lies_in, origin_of, parts_of, words_of};
ghost use Rattle.claim_board.specs.Holds.{pair_slot, still_out, IsHolding};
ghost use Rattle.claim_board.specs.Places.{ArePlaces};
ghost use Rattle.claim_board.specs.Slots.{first_of_slot, region_slot};

use super::places::Places;
use super::seat::{take_original, take_share};
use crate::rule::{Place, Words};
use box_row::InRow;
use raw_region::Region;
use read_shares::{ReadShare, unite};

/// Joins the right of one reader to the share, if `index` is that of a pair.
fn take_reader(
    words: &Words,
    seat: &mut Place,
    share: &mut ReadShare<Region>,
    pairs: usize,
    index: usize,
)
    requires seat { seat.old.table_id ≡ words.now.table_id }
    requires pairs { pairs ≡ length words.now.key.moves.pairs }
    requires top { index < pairs → (x : Option Holding) × (is_share x ≡ true) × (origin_of x ≡ share.old.origin) × (parts_of x ≡ 1) × (seat.old.me.1 ≡ (pair_slot words.now.key.moves index, x) ∷ rest seat.old.me.1) }
    requires at_most { index < pairs → share.old.parts + 1 ≤ all_parts }
    ensures table { seat.new.table_id ≡ seat.old.table_id }
    ensures view { seat.new.me.0 ≡ seat.old.me.0 }
    ensures origin { share.new.origin ≡ share.old.origin }
    ensures joined { index < pairs → (share.new.parts ≡ share.old.parts + 1) × (seat.new.me.1 ≡ rest seat.old.me.1 ++ (pair_slot words.now.key.moves index, None) ∷ []) }
    ensures same { pairs ≤ index → (share.new.parts ≡ share.old.parts) × (seat.new.me.1 ≡ seat.old.me.1) }
{
    if index < pairs {
        let slot = pairs - 1 - index;
        share.join(take_share(words, seat, slot));
        seat.turn();
    }
}

/// Joins the rights of all readers of the region to the share, which then has all parts.
fn take_readers(
    words: &Words,
    seat: &mut Place,
    share: &mut ReadShare<Region>,
    places: &Places,
    region: u32,
)
    requires seat { seat.old.table_id ≡ words.now.table_id }
    requires lawful { IsMoveTable words.now.key.moves }
    requires places { ArePlaces words.now.key.moves places.now }
    requires regions { AreRegions words.now.key.moves words.now.key.values.value.items }
    requires region { region < region_count words.now.key.moves }
    requires origin { share.old.origin ≡ origin_of (in_region words.now.key.moves words.now.key.values.value.items region) }
    requires parts { share.old.parts ≡ parts_of (in_region words.now.key.moves words.now.key.values.value.items region) }
    requires held { (tail : List (ℕ × Option Holding)) × (seat.old.me.1 ≡ still_out words.now.key region 0 ++ tail) }
    ensures table { seat.new.table_id ≡ seat.old.table_id }
    ensures view { seat.new.me.0 ≡ seat.old.me.0 }
    ensures origin { share.new.origin ≡ share.old.origin }
    ensures all { share.new.parts ≡ all_parts }
    ensures held { (tail : List (ℕ × Option Holding)) → seat.old.me.1 ≡ still_out words.now.key region 0 ++ tail → (others : List (ℕ × Option Holding)) × (seat.new.me.1 ≡ still_out words.now.key region (slice_index places.now.first.items region) ++ (tail ++ others)) }
{
    let (first, second) = places.readers[region as usize];
    take_reader(words, seat, share, places.pairs, first);
    take_reader(words, seat, share, places.pairs, second);
}

/// Takes the region of a granted claim, with its original words. The seat then holds the rights to its sources.
pub(crate) fn take_region(
    words: &Words,
    seat: &mut Place,
    places: &Places,
    region: u32,
) -> Box<Region, InRow>
    requires seat { seat.old.table_id ≡ words.now.table_id }
    requires lawful { IsMoveTable words.now.key.moves }
    requires places { ArePlaces words.now.key.moves places.now }
    requires regions { AreRegions words.now.key.moves words.now.key.values.value.items }
    requires region { region < region_count words.now.key.moves }
    requires small { length words.now.key.moves.pairs + region < 18446744073709551616 }
    requires held { seat.old.me.1 ≡ (region_slot words.now.key.moves region, first_of_slot words.now.key (region_slot words.now.key.moves region)) ∷ still_out words.now.key region 0 }
    ensures table { seat.new.table_id ≡ seat.old.table_id }
    ensures view { seat.new.me.0 ≡ seat.old.me.0 }
    ensures words { result.value ≡ words_of (in_region words.now.key.moves words.now.key.values.value.items region) }
    ensures place { lies_in (in_region words.now.key.moves words.now.key.values.value.items region) ≡ Some (box_allocator result) }
    ensures held { IsHolding words.now.key region 0 (slice_index places.now.first.items region) seat.new.me.1 }
{
    let (deed, mut share) = take_original(words, seat, places.pairs + region as usize);
    take_readers(words, seat, &mut share, places, region);
    unite(deed, share)
}
