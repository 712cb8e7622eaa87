//! What a seat takes out of its slots and puts into them, by plain reads and writes.
ghost use Rattle.std.specs.Prelude.{◌≡◌, ◌+◌, ◌<◌, ◌≤◌, List, [], ◌∷◌, ◌++◌, true, Option, Some, None, ℕ};
ghost use Rattle.atomic_table.specs.Table.{rest};
ghost use Rattle.read_shares.specs.Parts.{all_parts};
ghost use Rattle.claim_board.specs.declared.regions.holding.Holding.{Holding};
ghost use Rattle.claim_board.specs.declared.regions.holding.Holding.TheVariants.{Share, Original, Moved};
ghost use Rattle.claim_board.specs.Holdings.{is_share, is_original, origin_of, parts_of};

use super::holding::Holding;
use crate::rule::{Place, Words};
use box_row::InRow;
use raw_region::Region;
use read_shares::{Deed, ReadShare};

/// Takes what is in the slot on top, and leaves the slot empty.
fn take(words: &Words, seat: &mut Place, slot: usize) -> Holding
    requires seat { seat.old.table_id ≡ words.now.table_id }
    requires top { (x : Holding) × (seat.old.me.1 ≡ (slot, Some x) ∷ rest seat.old.me.1) }
    ensures table { seat.new.table_id ≡ seat.old.table_id }
    ensures view { seat.new.me.0 ≡ seat.old.me.0 }
    ensures value { seat.old.me.1 ≡ (slot, Some result) ∷ rest seat.old.me.1 }
    ensures held { seat.new.me.1 ≡ (slot, None) ∷ rest seat.old.me.1 }
{
    words.exchange(seat, slot, None).unwrap()
}

/// Puts a value into the slot on top, which is empty.
pub(crate) fn put(words: &Words, seat: &mut Place, slot: usize, value: Holding)
    requires seat { seat.old.table_id ≡ words.now.table_id }
    requires top { seat.old.me.1 ≡ (slot, None) ∷ rest seat.old.me.1 }
    ensures table { seat.new.table_id ≡ seat.old.table_id }
    ensures view { seat.new.me.0 ≡ seat.old.me.0 }
    ensures held { seat.new.me.1 ≡ (slot, Some value) ∷ rest seat.old.me.1 }
{
    words.exchange(seat, slot, Some(value));
}

/// Takes the region out of the slot on top, which goes behind the others.
pub(crate) fn take_original(
    words: &Words,
    seat: &mut Place,
    slot: usize,
) -> (Deed<Region, InRow>, ReadShare<Region>)
    requires seat { seat.old.table_id ≡ words.now.table_id }
    requires top { (x : Option Holding) × (is_original x ≡ true) × (seat.old.me.1 ≡ (slot, x) ∷ rest seat.old.me.1) }
    ensures table { seat.new.table_id ≡ seat.old.table_id }
    ensures view { seat.new.me.0 ≡ seat.old.me.0 }
    ensures value { seat.old.me.1 ≡ (slot, Some (Original result.0 result.1)) ∷ rest seat.old.me.1 }
    ensures held { seat.new.me.1 ≡ rest seat.old.me.1 ++ (slot, None) ∷ [] }
{
    match take(words, seat, slot) {
        Holding::Original(deed, share) => {
            seat.turn();
            (deed, share)
        }
        _ => unreachable!(),
    }
}

/// Takes the right to read out of the slot on top.
pub(crate) fn take_share(words: &Words, seat: &mut Place, slot: usize) -> ReadShare<Region>
    requires seat { seat.old.table_id ≡ words.now.table_id }
    requires top { (x : Option Holding) × (is_share x ≡ true) × (seat.old.me.1 ≡ (slot, x) ∷ rest seat.old.me.1) }
    ensures table { seat.new.table_id ≡ seat.old.table_id }
    ensures view { seat.new.me.0 ≡ seat.old.me.0 }
    ensures value { seat.old.me.1 ≡ (slot, Some (Share result)) ∷ rest seat.old.me.1 }
    ensures held { seat.new.me.1 ≡ (slot, None) ∷ rest seat.old.me.1 }
{
    match take(words, seat, slot) {
        Holding::Share(share) => share,
        _ => unreachable!(),
    }
}
