//! Collections by one call.
ghost use Rattle.std.specs.Prelude.{◌≡◌, ◌<◌, ◌⊎◌, Some};
ghost use Rattle.object_heap.specs.declared.version.Version.TheVariants.{One, Three};
ghost use Rattle.object_heap.specs.HeapImage.{HeapImage, IsValid};
ghost use Rattle.heap_image.specs.ImageText.{text};
ghost use Rattle.summary.specs.Compaction.{compact};
ghost use Rattle.caller_heap.specs.Collected.{IsWhyKept};
ghost use Rattle.caller_heap.specs.HeapWords.{heap_bytes};
ghost use Rattle.caller_heap.specs.Lent.{AreBack, HoldImage, IsWhyLentKept, heap_in};
ghost use Rattle.pcompact_c.specs.Answers.{IsSummaryOf};
ghost use Rattle.pcompact_c.specs.Faults.{IsFaultFor};

use crate::answer::PcompactAnswer;
use caller_heap::{HeapSettings, collect_lent_words, collect_words};
use heap_image::Version;
use raw_region::HostWords;
use std::alloc::Global;

/// Compacts the heap with these words and live addresses in place. Returns the number of the fault in `answer`. After a
/// fault the words and live addresses are as they were.
///
/// The fault is the first fault of the bytes of its image, 3, 4 or 6 to 9, or 11 if memory runs out. Takes the memory of a
/// copy of the words, and what a collection by one worker takes.
#[unsafe(no_mangle)]
pub extern "C" fn pcompact_collect(
    alloc: Global,
    words: &mut [u64],
    live: &mut [u64],
    settings: HeapSettings,
    answer: &mut PcompactAnswer,
) -> u32
    ensures number { result ≡ answer.new.fault.number }
    ensures collected { result ≡ 0 → (image : HeapImage) × IsValid image
        × (heap_bytes One settings words.old live.old ≡ text image)
        × (words.new ≡ (compact image).words) × (live.new ≡ (compact image).live)
        × IsSummaryOf image answer.new }
    ensures kept { 0 < result → (words.new ≡ words.old) × (live.new ≡ live.old) }
    ensures fault { 0 < result → IsFaultFor (IsWhyKept (heap_bytes One settings words.old live.old)) answer.new.fault }
{
    let done = collect_words(alloc, Version::One, settings, words, live);
    answer.put(done)
}

/// As [`pcompact_collect`], for a heap with roots: its live objects are those that the roots reach, and the roots then lead
/// to their new addresses. The first fault of the bytes of its image is 3, 4, 7 to 9 or 17.
#[unsafe(no_mangle)]
pub extern "C" fn pcompact_collect_rooted(
    alloc: Global,
    words: &mut [u64],
    roots: &mut [u64],
    settings: HeapSettings,
    answer: &mut PcompactAnswer,
) -> u32
    ensures number { result ≡ answer.new.fault.number }
    ensures collected { result ≡ 0 → (image : HeapImage) × IsValid image
        × (heap_bytes Three settings words.old roots.old ≡ text image)
        × (words.new ≡ (compact image).words) × ((compact image).roots ≡ Some roots.new)
        × IsSummaryOf image answer.new }
    ensures kept { 0 < result → (words.new ≡ words.old) × (roots.new ≡ roots.old) }
    ensures fault { 0 < result → IsFaultFor (IsWhyKept (heap_bytes Three settings words.old roots.old)) answer.new.fault }
{
    let done = collect_words(alloc, Version::Three, settings, words, roots);
    answer.put(done)
}

/// As [`pcompact_collect`], but each region's words are lent, and compacted where they lie. The fault is 4 also if some
/// words aren't held or are more or fewer than a region has. No contract excludes fault 12, as none follows whose memory a
/// region has: after it nothing is promised of words and live addresses. Takes the memory that a collection by one worker
/// takes.
#[unsafe(no_mangle)]
pub extern "C" fn pcompact_collect_lent(
    alloc: Global,
    words: &mut [HostWords],
    live: &mut [u64],
    settings: HeapSettings,
    answer: &mut PcompactAnswer,
) -> u32
    ensures number { result ≡ answer.new.fault.number }
    ensures collected { result ≡ 0 → (image : HeapImage) × IsValid image
        × (heap_bytes One settings (heap_in words.old) live.old ≡ text image)
        × HoldImage (compact image) words.new × (live.new ≡ (compact image).live)
        × IsSummaryOf image answer.new }
    ensures kept { 0 < result → (AreBack words.old words.new × (live.new ≡ live.old)) ⊎ (result ≡ 12) }
    ensures fault { 0 < result → IsFaultFor
        (IsWhyLentKept settings.region_log words.old (heap_bytes One settings (heap_in words.old) live.old)) answer.new.fault }
{
    let done = collect_lent_words(alloc, Version::One, settings, words, live);
    answer.put(done)
}

/// As [`pcompact_collect_lent`], for a heap with roots as [`pcompact_collect_rooted`] has it.
#[unsafe(no_mangle)]
pub extern "C" fn pcompact_collect_lent_rooted(
    alloc: Global,
    words: &mut [HostWords],
    roots: &mut [u64],
    settings: HeapSettings,
    answer: &mut PcompactAnswer,
) -> u32
    ensures number { result ≡ answer.new.fault.number }
    ensures collected { result ≡ 0 → (image : HeapImage) × IsValid image
        × (heap_bytes Three settings (heap_in words.old) roots.old ≡ text image)
        × HoldImage (compact image) words.new × ((compact image).roots ≡ Some roots.new)
        × IsSummaryOf image answer.new }
    ensures kept { 0 < result → (AreBack words.old words.new × (roots.new ≡ roots.old)) ⊎ (result ≡ 12) }
    ensures fault { 0 < result → IsFaultFor
        (IsWhyLentKept settings.region_log words.old (heap_bytes Three settings (heap_in words.old) roots.old)) answer.new.fault }
{
    let done = collect_lent_words(alloc, Version::Three, settings, words, roots);
    answer.put(done)
}
