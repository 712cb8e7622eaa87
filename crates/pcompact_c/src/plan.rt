//! What a collection will do.
ghost use Rattle.std.specs.Prelude.{◌≡◌, ◌<◌, IfOk, IfErr};
ghost use Rattle.object_heap.specs.declared.version.Version.TheVariants.{One};
ghost use Rattle.object_heap.specs.HeapImage.{HeapImage, IsValid};
ghost use Rattle.heap_image.specs.Checks.{IsMemoryOr};
ghost use Rattle.heap_image.specs.ImageText.{text, first_fault};
ghost use Rattle.collector.specs.Collections.{figures_of};
ghost use Rattle.caller_heap.specs.HeapWords.{heap_bytes};
ghost use Rattle.pcompact_c.specs.Answers.{IsSummaryOf};
ghost use Rattle.pcompact_c.specs.Faults.{IsFaultFor};

use crate::answer::PcompactAnswer;
use caller_heap::{HeapSettings, image_of_heap};
use collector::Figures;
use heap_image::{Alone, Fault, Version, decode};
use std::alloc::Global;
use summary::{Plan, Survey};

/// Tells what a collection will do to the heap with these words and live addresses. Returns the number of the fault in
/// `answer`.
///
/// The fault is the first fault of the bytes of its image, 3, 4 or 6 to 9, or 11 if memory runs out. Takes the memory of a
/// copy of the words, and about 4 bits for each of them.
#[unsafe(no_mangle)]
pub extern "C" fn pcompact_summary(
    alloc: Global,
    words: &[u64],
    live: &[u64],
    settings: HeapSettings,
    answer: &mut PcompactAnswer,
) -> u32
    ensures number { result ≡ answer.new.fault.number }
    ensures summary { result ≡ 0 → (image : HeapImage) × IsValid image × (heap_bytes One settings words.now live.now ≡ text image)
        × IsSummaryOf image answer.new }
    ensures fault { 0 < result → IsFaultFor (IsMemoryOr (first_fault (heap_bytes One settings words.now live.now))) answer.new.fault }
{
    match survey_of_heap(alloc, Version::One, settings, words, live) {
        Ok(survey) => answer.put(Ok(figures_of(survey.plan()))),
        Err(fault) => answer.put(Err(fault)),
    }
}

/// Tells what a collection will do to the image with these bytes. Returns the number of the fault in `answer`.
///
/// The fault is the first fault of the bytes, 1 to 10 or 17, or 11 if memory runs out. Takes the memory of the image, and
/// about 4 bits for each of its words.
#[unsafe(no_mangle)]
pub extern "C" fn pcompact_summary_of_image(
    alloc: Global,
    bytes: &[u8],
    answer: &mut PcompactAnswer,
) -> u32
    ensures number { result ≡ answer.new.fault.number }
    ensures summary { result ≡ 0 → (image : HeapImage) × IsValid image × (bytes.now ≡ text image)
        × IsSummaryOf image answer.new }
    ensures fault { 0 < result → IsFaultFor (IsMemoryOr (first_fault bytes.now)) answer.new.fault }
{
    match survey_of_image(alloc, bytes) {
        Ok(survey) => answer.put(Ok(figures_of(survey.plan()))),
        Err(fault) => answer.put(Err(fault)),
    }
}

/// The figures of a collection that keeps to a plan.
fn figures_of(plan: &Plan) -> Figures
    ensures { result ≡ figures_of plan.now }
{
    Figures {
        prefix_end: plan.prefix_end(),
        new_top: plan.new_top(),
        filled: plan.fill_regions(),
    }
}

/// What is known before its collection about a heap with these words and, in version 1, live addresses, otherwise roots.
pub(crate) fn survey_of_heap(
    alloc: Global,
    version: Version,
    settings: HeapSettings,
    words: &[u64],
    tail: &[u64],
) -> Result<Survey, Fault>
    ensures valid { IfOk result (λ survey. IsValid survey) }
    ensures text { IfOk result (λ survey. heap_bytes version settings words.now tail.now ≡ text survey) }
    ensures fault { IfErr result (IsMemoryOr (first_fault (heap_bytes version settings words.now tail.now))) }
{
    let image = image_of_heap(alloc, version, settings, words, tail)?;
    Survey::of(alloc, &image, &Alone)
}

/// The same about the heap of the image with these bytes.
fn survey_of_image(alloc: Global, bytes: &[u8]) -> Result<Survey, Fault>
    ensures valid { IfOk result (λ survey. IsValid survey) }
    ensures text { IfOk result (λ survey. bytes.now ≡ text survey) }
    ensures fault { IfErr result (IsMemoryOr (first_fault bytes.now)) }
{
    let image = decode(alloc, bytes, &Alone)?;
    Survey::of(alloc, &image, &Alone)
}
