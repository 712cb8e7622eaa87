//! Where a collection by several threads takes the words of a heap, known from its begin.
ghost use Rattle.std.specs.Prelude.{◌≡◌, ◌↔◌, ◌⊎◌, Some, None, map};
ghost use Rattle.object_heap.specs.HeapImage.{HeapImage};
ghost use Rattle.caller_heap.specs.Slots.{redirected_slot};
ghost use Rattle.pcompact_c.specs.Handles.{image_in};
ghost use Rattle.pcompact_c.specs.Places.{IsNextAddress, IsObjectAddress, new_address_in};
ghost use Rattle.pcompact_c.specs.Slides.{plan_in};

use crate::handle::PcompactHandle;
use caller_heap::SlotCoding;
use std::alloc::Global;

/// The new address of a word that goes nowhere.
const NOWHERE: u64 = u64::MAX;
/// All slots are redirected.
const REDIRECTED: u32 = 0;
/// The handle isn't held.
const NOT_HELD: u32 = 5;

/// Where the collection of a handle, or the slide that it has planned, takes the word at this address, the first of its object or
/// not: its new address, or 2^64 - 1 if no live object has such a word, or the handle isn't held.
#[unsafe(no_mangle)]
pub extern "C" fn pcompact_new_address(
    alloc: Global,
    handle: &mut PcompactHandle,
    address: u64,
) -> u64
    ensures part { handle.new.2 ≡ handle.old.2 }
    ensures address { (image : HeapImage) → image_in handle.old ≡ Some image → result ≡ new_address_in image address }
    ensures planned { (image : HeapImage) → plan_in handle.old ≡ Some image → result ≡ new_address_in image address }
    ensures not_held { handle.old.2 ≡ None → result ≡ 18446744073709551615 }
{
    match handle.new_address(alloc, address) {
        Some(to) => to,
        None => NOWHERE,
    }
}

/// The first address from `from` on at which an object begins, by the handle of a planned slide: 2^64 - 1 if there is none, or the
/// handle has no plan.
#[unsafe(no_mangle)]
pub extern "C" fn pcompact_next_object(alloc: Global, handle: &mut PcompactHandle, from: u64) -> u64
    ensures part { handle.new.2 ≡ handle.old.2 }
    ensures next { (image : HeapImage) → plan_in handle.old ≡ Some image → IsNextAddress image from result }
    ensures not_planned { plan_in handle.old ≡ None → result ≡ 18446744073709551615 }
{
    match handle.next_object(alloc, from) {
        Some(address) => address,
        None => NOWHERE,
    }
}

/// The address at which the object begins that has the word at this address, by the handle of a planned slide: 2^64 - 1 if no live
/// object has such a word, or the handle has no plan.
#[unsafe(no_mangle)]
pub extern "C" fn pcompact_object_over(
    alloc: Global,
    handle: &mut PcompactHandle,
    address: u64,
) -> u64
    ensures part { handle.new.2 ≡ handle.old.2 }
    ensures object { (image : HeapImage) → plan_in handle.old ≡ Some image → IsObjectAddress image address result }
    ensures not_planned { plan_in handle.old ≡ None → result ≡ 18446744073709551615 }
{
    match handle.object_over(alloc, address) {
        Some(object) => object,
        None => NOWHERE,
    }
}

/// Redirects slots that are kept outside of the heap: each that leads to a word of it by this coding leads to where the
/// collection or the planned slide of the handle takes the word, or becomes `dead` if no live object has it. All others stay.
/// Returns 0, or 5 if the handle isn't held, and then all stay.
#[unsafe(no_mangle)]
pub extern "C" fn pcompact_redirect(
    alloc: Global,
    handle: &mut PcompactHandle,
    slots: &mut [u64],
    coding: SlotCoding,
) -> u32
    ensures part { handle.new.2 ≡ handle.old.2 }
    ensures slots { (image : HeapImage) → image_in handle.old ≡ Some image → slots.new ≡ map (redirected_slot image coding) slots.old }
    ensures planned { (image : HeapImage) → plan_in handle.old ≡ Some image → slots.new ≡ map (redirected_slot image coding) slots.old }
    ensures not_held { image_in handle.old ≡ None → plan_in handle.old ≡ None → (slots.new ≡ slots.old) × (result ≡ 5) }
    ensures known { (result ≡ 0) ⊎ (result ≡ 5) }
{
    if handle.redirect(alloc, slots, coding) {
        REDIRECTED
    } else {
        NOT_HELD
    }
}
