//! Theorem about where the objects of an image go.
ghost use Rattle.std.specs.Prelude.{ℕ, ◌+◌, ◌<◌, ◌≤◌, Contains};
ghost use Rattle.object_heap.specs.HeapImage.{HeapImage, IsValid, heap_words, size_at, references_at};
ghost use Rattle.summary.specs.NewAddresses.{new_address};

use summary::laws::plan_laws;

/// A live object and its new words lie in the heap; none moves up, and its header is sound.
pub(crate) fn new_words_fit()
    ensures { (image : HeapImage) → IsValid image → (a : ℕ) → Contains image.live a → (new_address image a ≤ a)
        × (new_address image a + size_at image a ≤ heap_words image) × (0 < size_at image a)
        × (references_at image a < size_at image a) × (a + size_at image a ≤ heap_words image) }
{
    plan_laws();
}
