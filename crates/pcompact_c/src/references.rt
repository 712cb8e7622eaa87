//! Where a collection will take what a host refers to from outside of its heap.
ghost use Rattle.std.specs.Prelude.{◌≡◌, ◌<◌, ℕ, All, IsTrue, MatchOption, map};
ghost use Rattle.image_streams.specs.declared.fault.Fault.TheVariants.{Root};
ghost use Rattle.object_heap.specs.declared.version.Version.TheVariants.{One, Three};
ghost use Rattle.object_heap.specs.HeapImage.{HeapImage, IsValid, is_null_or_live};
ghost use Rattle.heap_image.specs.ImageText.{text};
ghost use Rattle.summary.specs.Compaction.{redirected};
ghost use Rattle.caller_heap.specs.HeapWords.{heap_bytes};
ghost use Rattle.pcompact_c.specs.Faults.{IsFaultFor};
ghost use Rattle.pcompact_c.specs.Strays.{IsFirstStray, IsWhyNotRedirected};

use crate::fault::PcompactFault;
use crate::plan::survey_of_heap;
use caller_heap::HeapSettings;
use heap_image::Version;
use std::alloc::Global;
use summary::{Plan, Survey};

/// Redirects references that are kept outside of the heap with these words and live addresses to where a collection takes
/// their objects. Each is 0, which stays 0, or 1 plus a live address. To be called before the collection. Returns the fault.
///
/// The fault is the first fault of the bytes of the heap's image, 3, 4 or 6 to 9, or 11 if memory runs out, or 17 with the
/// least index of a reference that is neither 0 nor 1 plus a live address. After a fault the references are as they were.
/// Takes the memory of a copy of the words, and about 4 bits for each of them.
#[unsafe(no_mangle)]
pub extern "C" fn pcompact_new_addresses(
    alloc: Global,
    words: &[u64],
    live: &[u64],
    settings: HeapSettings,
    references: &mut [u64],
) -> PcompactFault
    ensures redirected { result.number ≡ 0 → (image : HeapImage) × IsValid image
        × (heap_bytes One settings words.now live.now ≡ text image)
        × All (λ w. IsTrue (is_null_or_live image w)) references.old
        × (references.new ≡ map (redirected image) references.old) }
    ensures kept { 0 < result.number → references.new ≡ references.old }
    ensures fault { 0 < result.number → IsFaultFor
        (IsWhyNotRedirected (heap_bytes One settings words.now live.now) references.old) result }
{
    match survey_of_heap(alloc, Version::One, settings, words, live) {
        Ok(survey) => redirect(&survey, references),
        Err(fault) => PcompactFault::of(fault),
    }
}

/// As [`pcompact_new_addresses`], for a heap with roots. Each reference is 0, or 1 plus the address of an object that the
/// roots reach. The first fault of the bytes of the heap's image is 3, 4, 7 to 9 or 17.
#[unsafe(no_mangle)]
pub extern "C" fn pcompact_new_addresses_rooted(
    alloc: Global,
    words: &[u64],
    roots: &[u64],
    settings: HeapSettings,
    references: &mut [u64],
) -> PcompactFault
    ensures redirected { result.number ≡ 0 → (image : HeapImage) × IsValid image
        × (heap_bytes Three settings words.now roots.now ≡ text image)
        × All (λ w. IsTrue (is_null_or_live image w)) references.old
        × (references.new ≡ map (redirected image) references.old) }
    ensures kept { 0 < result.number → references.new ≡ references.old }
    ensures fault { 0 < result.number → IsFaultFor
        (IsWhyNotRedirected (heap_bytes Three settings words.now roots.now) references.old) result }
{
    match survey_of_heap(alloc, Version::Three, settings, words, roots) {
        Ok(survey) => redirect(&survey, references),
        Err(fault) => PcompactFault::of(fault),
    }
}

/// Redirects all references of a list, or none if one is neither null nor to a live object. Returns the fault.
fn redirect(survey: &Survey, references: &mut [u64]) -> PcompactFault
    ensures redirected { result.number ≡ 0 → All (λ w. IsTrue (is_null_or_live survey.now w)) references.old
        × (references.new ≡ map (redirected survey.now) references.old) }
    ensures kept { 0 < result.number → references.new ≡ references.old }
    ensures fault { 0 < result.number → IsFaultFor
        (λ fault. (index : ℕ) × IsFirstStray survey.now references.old index × (fault ≡ Root index)) result }
{
    if let Some(index) = first_stray(survey, references) {
        return PcompactFault::of_reference(index);
    }
    redirect_all(survey.plan(), references);
    PcompactFault::NONE
}

/// The least index of a reference that is neither null nor to a live object.
fn first_stray(survey: &Survey, references: &[u64]) -> Option<usize>
    ensures { MatchOption result (All (λ w. IsTrue (is_null_or_live survey.now w)) references.now)
        (IsFirstStray survey.now references.now) }
{
    for i in 0..references.len() {
        if !is_null_or_live(survey, references[i]) {
            return Some(i);
        }
    }
    None
}

/// Whether a reference is null or to a live object.
fn is_null_or_live(survey: &Survey, reference: u64) -> bool
    ensures { result ≡ is_null_or_live survey.now reference }
{
    reference == 0 || survey.marks().is_begin(reference - 1)
}

/// Redirects each reference in place.
fn redirect_all(plan: &Plan, references: &mut [u64])
    requires { All (λ w. IsTrue (is_null_or_live plan.now w)) references.old }
    ensures { references.new ≡ map (redirected plan.now) references.old }
{
    for reference in references.iter_mut() {
        *reference = plan.redirected(*reference);
    }
}
