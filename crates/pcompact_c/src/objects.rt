//! References of planned objects, which are redirected where they lie.
ghost use Rattle.std.specs.Prelude.{◌≡◌, ◌⊎◌, ◌<◌, Some};
ghost use Rattle.image_streams.specs.declared.fault.Fault.TheVariants.{Workers};
ghost use Rattle.object_heap.specs.HeapImage.{HeapImage};
ghost use Rattle.object_coding.specs.ObjectLayout.{coding_of};
ghost use Rattle.coded_redirection.specs.References.{redirected_words};
ghost use Rattle.pcompact_c.specs.Faults.{IsOf};
ghost use Rattle.pcompact_c.specs.Layouts.{IsLayoutFault};
ghost use Rattle.pcompact_c.specs.Slides.{plan_in};

use crate::fault::PcompactFault;
use crate::handle::PcompactHandle;
use crate::layout::coding_for;
use heap_image::Fault;
use object_coding::ObjectLayout;
use std::alloc::Global;

/// Which words of a heap a host hands over, laid out as C has it.
#[repr(C)]
#[derive(Clone, Copy)]
pub struct PcompactObjects {
    /// The address of the first of them.
    pub first: u64,
    /// The number of words of the whole heap.
    pub heap_words: u64,
    /// What takes the place of a reference that leads to a word that no live object has.
    pub dead: u64,
}

/// Redirects the references of the planned objects that begin in these words: each that leads to a live word leads to where the slide
/// takes that, and each that leads to another word of the heap becomes `dead`. All else stays. Takes no memory.
///
/// Returns the fault, 12 if the handle has no plan, 4 if the heap has more than 68,719,476,736 words, or 18 for the layout; then all
/// words stay.
#[unsafe(no_mangle)]
pub extern "C" fn pcompact_redirect_objects(
    alloc: Global,
    plan: &mut PcompactHandle,
    words: &mut [u64],
    layout: &ObjectLayout,
    objects: PcompactObjects,
) -> PcompactFault
    ensures part { plan.new.2 ≡ plan.old.2 }
    ensures redirected { result.number ≡ 0 → (image : HeapImage) × (plan_in plan.old ≡ Some image)
        × (words.new ≡ redirected_words image (coding_of layout.now objects.heap_words) objects.first words.old objects.dead) }
    ensures kept { 0 < result.number → words.new ≡ words.old }
    ensures fault { 0 < result.number → IsLayoutFault layout.now objects.heap_words result ⊎ IsOf Workers result }
{
    let coding = match coding_for(layout, objects.heap_words) {
        Ok(coding) => coding,
        Err(fault) => return fault,
    };
    if plan.redirect_objects(alloc, &coding, objects, words) {
        PcompactFault::NONE
    } else {
        PcompactFault::of(Fault::Workers)
    }
}
