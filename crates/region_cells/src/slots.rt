//! The state word of a cell's slot, which says who may have its region.
ghost use Rattle.std.specs.Prelude.{◌≡◌, ◌+◌, ◌%◌, ◌<◌, ◌≤◌, ◌↔◌, IsTrue, IfSome};
ghost use Rattle.object_heap.specs.HeapImage.{block_of};
ghost use Rattle.region_cells.specs.Blocks.{final_block};

use crate::kept::Kept;
use counted_slot::{Claim, Counted, FREE, ONE_READER, PRESENT, TAKEN};
use raw_region::Region;
use retry_policy::RetryPolicy;

/// State words from this one up mean that the region is not original: it has moved, is spoiled, or a writer has it.
pub(crate) const CHANGED: u64 = 0x1_0000_0000;

/// The state word while a writer has the region.
pub(crate) const WRITING: u64 = 0x2_0000_0000;

/// Whether the region is original: it may be read, or written once it has no readers.
pub(crate) fn is_original(word: u64) -> bool
    ensures { IsTrue result ↔ ((word % 4 ≡ PRESENT) × (word < CHANGED)) }
{
    word % 4 == PRESENT && word < CHANGED
}

/// Whether the word counts as many readers as it can.
pub(crate) fn is_full(word: u64) -> bool
    ensures { IsTrue result ↔ (CHANGED ≤ word + ONE_READER) }
{
    word >= CHANGED - ONE_READER
}

/// Puts the original region into a new slot, which is in its place already: a slot that moved right after the turn would
/// wait until it is written.
///
/// No one else has the slot yet, so the turn always wins. No contract says so; if it lost, the cell would be spoiled.
pub(crate) fn put_original(slot: &Counted<Kept>, region: Region)
    requires { region ≡ block_of slot.now.image slot.now.region }
{
    let (found, hand) = slot.turn(FREE, TAKEN);
    if found == FREE {
        hand.put(Kept::Original(region), PRESENT);
    } else {
        hand.done();
    }
}

/// Claims the slot of a region that this writer has taken out. No one else turns the slot meanwhile, so the first turn
/// wins. No contract says so, and `None` means that the policy has given up.
pub(crate) fn lock_for_write<'a, P: RetryPolicy>(
    policy: &P,
    slot: &'a Counted<Kept>,
) -> Option<Claim<'a, Kept>>
    ensures right { IfSome result (λ claim. claim.right ≡ 2) }
    ensures tag { IfSome result (λ claim. claim.tag ≡ slot.now) }
{
    for failures in 1..u64::MAX {
        let (found, hand) = slot.turn(WRITING, WRITING + TAKEN);
        if found == WRITING {
            return Some(hand);
        }
        hand.done();
        if !policy.tries_again(failures) {
            break;
        }
    }
    None
}

/// The region of a slot at the end: moved if `has_moved`, else original. None if the slot is in another state.
pub(crate) fn final_region(slot: Counted<Kept>, has_moved: bool) -> Option<Region>
    ensures { IfSome result (λ words. words ≡ final_block has_moved slot) }
{
    match slot.into_inner() {
        Kept::Moved(region) if has_moved => Some(region),
        Kept::Original(region) if !has_moved => Some(region),
        _ => None,
    }
}
