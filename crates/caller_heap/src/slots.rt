//! Slots of a host that lead to words of its heap.
ghost use Rattle.std.specs.Prelude.{◌≡◌, map};
ghost use Rattle.caller_heap.specs.Slots.{redirected_slot};

use collector::NewPlace;
use summary::WordPlaces;
use summary::laws::plan_laws;

/// How a host's slots lead to the words of its heap, laid out as C has it.
#[repr(C)]
#[derive(Clone, Copy)]
pub struct SlotCoding {
    /// What leads to address 0.
    pub base: u64,
    /// How many words slots lead to: those at addresses below it. What leads farther stays.
    pub word_count: u64,
    /// What takes the place of what leads to a word that no live object has.
    pub dead: u64,
    /// The logarithm, to base 2, of the distance from one address to the next: 3 for a machine's pointers. Only the low 6
    /// bits count.
    pub unit: u32,
}

/// Redirects each slot that leads to a word of the heap to where the word will go, or to `dead` if no live object has it. All
/// other slots stay.
pub fn redirect_slots(places: &WordPlaces<'_>, coding: SlotCoding, slots: &mut [u64])
    ensures { slots.new ≡ map (redirected_slot places.now coding) slots.old }
{
    for slot in slots.iter_mut() {
        *slot = redirected(places, coding, *slot);
    }
}

/// A slot, redirected.
#[tactic(auto, unfolding(crate::specs::Slots::redirected_slot))]
fn redirected(places: &WordPlaces<'_>, coding: SlotCoding, slot: u64) -> u64
    ensures { result ≡ redirected_slot places.now coding slot }
{
    plan_laws();
    if slot < coding.base {
        return slot;
    }
    let unit = coding.unit % 64;
    let distance = slot - coding.base;
    let address = distance >> unit;
    if address << unit != distance || address >= coding.word_count {
        return slot;
    }
    match NewPlace::of(places, address) {
        NewPlace::Outside => slot,
        NewPlace::NotLive => coding.dead,
        NewPlace::At(to) => coding.base + (to << unit),
    }
}
