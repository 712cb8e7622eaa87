//! Layouts of a host's objects, as numbers that C hands over.
ghost use Rattle.std.specs.Prelude.{◌≡◌, ◌<◌, ◌≤◌, ◌+◌, ◌^◌, ℕ, IfOk, OnOk, IfErr};
ghost use Rattle.object_heap.specs.Layout.{IsCoding, ocaml, scheme48};
ghost use Rattle.object_coding.specs.ObjectLayout.{coding_of};
ghost use Rattle.pcompact_c.specs.Layouts.{IsLayoutFault, IsOfLayout, rule_of};

use crate::fault::PcompactFault;
use heap_image::Fault;
use object_coding::{LayoutFault, ObjectCoding, ObjectLayout};

/// The most words of a heap.
const MOST_WORDS: u64 = 68_719_476_736;

/// Says what is wrong with a layout for a heap of this number of words: fault 18, of which `field` has what, fault 4 if the words
/// are too many, or none.
#[unsafe(no_mangle)]
pub extern "C" fn pcompact_check_layout(layout: &ObjectLayout, words: u64) -> PcompactFault
    ensures lawful { result.number ≡ 0 → IsCoding (coding_of layout.now words) words }
    ensures fault { 0 < result.number → IsLayoutFault layout.now words result }
{
    match coding_for(layout, words) {
        Ok(_) => PcompactFault::NONE,
        Err(fault) => fault,
    }
}

/// The layout of OCaml, 4.14 or later, for a heap whose word 0 is at the machine address `start`. One in the last 8 bytes of memory
/// is taken for the last before them, whose heap has no word.
#[unsafe(no_mangle)]
pub extern "C" fn pcompact_ocaml_layout(start: u64) -> ObjectLayout
    ensures { start + 8 < 2 ^ 64 → (words : ℕ) → coding_of result words ≡ ocaml start words }
{
    ObjectLayout::ocaml(start.min(u64::MAX - 8))
}

/// The layout of Scheme 48, likewise.
#[unsafe(no_mangle)]
pub extern "C" fn pcompact_scheme48_layout(start: u64) -> ObjectLayout
    ensures { start + 11 < 2 ^ 64 → (words : ℕ) → coding_of result words ≡ scheme48 start words }
{
    ObjectLayout::scheme48(start.min(u64::MAX - 11))
}

/// The coding by this layout for a heap of this number of words. Fails with fault 4 or 18, as [`pcompact_check_layout`].
pub(crate) fn coding_for(layout: &ObjectLayout, words: u64) -> Result<ObjectCoding, PcompactFault>
    ensures value { IfOk result (λ coding. coding ≡ coding_of layout.now words) }
    ensures lawful { OnOk result (IsCoding (coding_of layout.now words) words) }
    ensures few { OnOk result (words ≤ 68719476736) }
    ensures fault { IfErr result (λ fault. (0 < fault.number) × IsLayoutFault layout.now words fault) }
{
    if words > MOST_WORDS {
        return Err(PcompactFault::of(Fault::Length));
    }
    match ObjectCoding::new(*layout, words) {
        Ok(coding) => Ok(coding),
        Err(fault) => Err(of_layout(fault)),
    }
}

/// This fault of a layout.
fn of_layout(fault: LayoutFault) -> PcompactFault
    ensures { IsOfLayout fault result }
{
    PcompactFault {
        number: 18,
        field: rule(fault),
        place: 0,
    }
}

/// The number by which C knows what is wrong with a layout.
fn rule(fault: LayoutFault) -> u32
    ensures { result ≡ rule_of fault }
{
    match fault {
        LayoutFault::SizeField => 1,
        LayoutFault::NarrowSize => 2,
        LayoutFault::TypeField => 3,
        LayoutFault::FirstField => 4,
        LayoutFault::Mode => 5,
        LayoutFault::Addresses => 6,
        LayoutFault::FillerTag => 7,
        LayoutFault::FillerSize => 8,
    }
}
