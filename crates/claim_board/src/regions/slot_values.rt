ghost use Rattle.std.specs.Mem.Slots.{slots_items, slots_filled};
ghost use Rattle.claim_board.specs.Unions.{left_in};

use super::holding::Holding;
use atomic_table::Closed;
use std::alloc::Global;

/// The values of a board's slots, each of which may be taken out once.
pub trait SlotValues {
    ghost use Rattle.std.specs.Prelude.{◌≡◌, ◌==◌, ◌&&◌, not, ℕ, Bool, List, Option, None, IsTrue, slice_index_or, slice_set};
    ghost use Rattle.claim_board.specs.declared.regions.holding.Holding.{Holding};

    /// What is in each slot; nothing where it was taken.
    ghost items: { Self → List (Option Holding) };

    /// Whether it may be taken.
    ghost is_left: { Self → ℕ → Bool };

    /// The words of the table, and which of them are there. A list of values has none.
    ghost words: { Self → List ℕ × List Bool };

    /// Takes what is in a slot.
    fn take_slot(&mut self, slot: usize) -> Option<Holding>
        requires { IsTrue (is_left self.old slot) }
        ensures value { result ≡ slice_index_or (items self.old) slot None }
        ensures items { items self.new ≡ slice_set (items self.old) slot None }
        ensures left { (k : ℕ) → is_left self.new k ≡ (is_left self.old k && not (k == slot)) }
        ensures words { words self.new ≡ words self.old };
}

impl SlotValues for Vec<Option<Holding>> {
    ghost use Rattle.std.specs.Prelude.{slice_index_or, is_some, None, []};

    ghost items = { λ v. v.items };

    ghost is_left = { λ v k. is_some (slice_index_or v.items k None) };

    ghost words = { λ _. ([], []) };

    fn take_slot(&mut self, slot: usize) -> Option<Holding> {
        self[slot].take()
    }
}

impl SlotValues for Closed<Option<Holding>, Global> {
    ghost use Rattle.std.specs.Prelude.{slice_index_or, false};
    ghost use Rattle.std.specs.Mem.Slots.{slots_items, slots_filled};
    ghost use Rattle.claim_board.specs.Unions.{left_in};

    ghost items = { λ c. left_in (slots_items c.slots) (slots_filled c.slots) };

    ghost is_left = { λ c k. slice_index_or (slots_filled c.slots) k false };

    ghost words = { λ c. (slots_items c.words, slots_filled c.words) };

    fn take_slot(&mut self, slot: usize) -> Option<Holding> {
        self.take(slot)
    }
}
