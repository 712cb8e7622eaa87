//! The comparison of an image with the compaction of another.
ghost use Rattle.std.specs.Prelude.{◌≡◌, ◌<◌, ◌↔◌, IsTrue};
ghost use Rattle.image_streams.specs.declared.fault.Fault.{Fault};
ghost use Rattle.object_heap.specs.HeapImage.{HeapImage, IsValid};
ghost use Rattle.heap_image.specs.ImageText.{text};
ghost use Rattle.summary.specs.Compaction.{compact};
ghost use Rattle.verification.specs.declared.verdict.Verdict.{Verdict};
ghost use Rattle.pcompact_c.specs.Faults.{IsOf};
ghost use Rattle.pcompact_c.specs.Verdicts.{IsVerdictOf, AreCompared, IsWhyUncompared};

use crate::verdict::PcompactVerdict;
use collector::verify;
use heap_image::{Alone, decode};
use std::alloc::Global;

/// Tells how the image with the bytes `after` compares with the compaction of the one with the bytes `before`: the first
/// difference is in the shape, else the lowest in the words, else in the live list, else in the roots. Returns whether it
/// is the compaction.
///
/// The fault is the first fault of the bytes `before`, 1 to 10 or 17, else the first fault of the bytes `after`, or 11 if
/// memory runs out. Takes the memory of both images, and of the marks and the plan of the first.
#[unsafe(no_mangle)]
pub extern "C" fn pcompact_verify(
    alloc: Global,
    before: &[u8],
    after: &[u8],
    verdict: &mut PcompactVerdict,
) -> bool
    ensures same { IsTrue result ↔ (verdict.new.fault.number ≡ 0) × (verdict.new.difference ≡ 0) }
    ensures compaction { IsTrue result → (image : HeapImage) × IsValid image × (before.now ≡ text image)
        × (after.now ≡ text (compact image)) }
    ensures compared { verdict.new.fault.number ≡ 0 → (found : Verdict) × IsVerdictOf found verdict.new
        × AreCompared before.now after.now found }
    ensures fault { 0 < verdict.new.fault.number → (fault : Fault) × IsOf fault verdict.new.fault
        × IsWhyUncompared before.now after.now verdict.new.image fault }
{
    let found = compare(alloc, before, after);
    *verdict = found;
    found.fault.number == 0 && found.difference == 0
}

/// The verdict on the image of some bytes beside the compaction of the image of others.
fn compare(alloc: Global, before: &[u8], after: &[u8]) -> PcompactVerdict
    ensures compared { result.fault.number ≡ 0 → (found : Verdict) × IsVerdictOf found result
        × AreCompared before.now after.now found }
    ensures fault { 0 < result.fault.number → (fault : Fault) × IsOf fault result.fault
        × IsWhyUncompared before.now after.now result.image fault }
{
    let image = match decode(alloc, before, &Alone) {
        Ok(image) => image,
        Err(fault) => return PcompactVerdict::refused(fault, 1),
    };
    let found = match decode(alloc, after, &Alone) {
        Ok(found) => found,
        Err(fault) => return PcompactVerdict::refused(fault, 2),
    };
    match verify(alloc, &image, &found, &Alone) {
        Ok(verdict) => PcompactVerdict::of(verdict),
        Err(fault) => PcompactVerdict::refused(fault, 1),
    }
}
