//! New addresses of objects and the new top.

ghost use Rattle.std.specs.Prelude.{◌≡◌, ◌+◌, ◌<◌, ◌≤◌, ℕ, IsTrue, count_by};
ghost use Rattle.std.specs.List.{range_with_len};
ghost use Rattle.object_heap.specs.HeapImage.{HeapImage, HasLiveList, heap_words, size_at, live_words, is_null_or_live};
ghost use Rattle.summary.specs.LiveObjects.{object_count, object_at};
ghost use Rattle.summary.specs.NewAddresses.{prefix_end, new_address, new_end_of, new_top};
ghost use Rattle.summary.specs.WordMoves.{slid};
ghost use Rattle.summary.specs.Compaction.{redirected};
ghost use Rattle.summary.specs.Redirections.{is_counted};

/// At their new addresses live objects keep their order and don't overlap. None moves up, and none ends above the new
/// top.
pub fn objects_keep_their_order()
    ensures apart { (image : HeapImage) → HasLiveList image → (i k : ℕ) → i < k → k < object_count image
        → new_end_of image (object_at image i) ≤ new_address image (object_at image k) }
    ensures ordered { (image : HeapImage) → HasLiveList image → (i k : ℕ) → i < k → k < object_count image
        → new_address image (object_at image i) < new_address image (object_at image k) }
    ensures down { (image : HeapImage) → HasLiveList image → (i : ℕ) → i < object_count image
        → new_address image (object_at image i) ≤ object_at image i }
    ensures below { (image : HeapImage) → HasLiveList image → (i : ℕ) → i < object_count image
        → new_end_of image (object_at image i) ≤ new_top image }
{}

/// Each address from the prefix end up to the new top belongs to a live object after the collection.
pub fn no_gaps_above_the_prefix()
    ensures { (image : HeapImage) → HasLiveList image → (p : ℕ) → prefix_end image ≤ p → p < new_top image
        → (i : ℕ) × (i < object_count image) × (new_address image (object_at image i) ≤ p)
        × (p < new_end_of image (object_at image i)) }
{}

/// The new top is the prefix end plus the number of live words above it.
pub fn new_top_by_counting()
    ensures { (image : HeapImage) → HasLiveList image
        → new_top image ≡ prefix_end image + live_words image (prefix_end image) (heap_words image) }
{}

/// A word of a live object goes to the prefix end plus the number of live words between the prefix end and it.
pub fn new_address_by_counting()
    ensures { (image : HeapImage) → HasLiveList image → (i j : ℕ) → i < object_count image
        → j < size_at image (object_at image i)
        → new_address image (object_at image i) + j ≡ slid image (object_at image i + j) }
{}

/// The new value of a reference is the count of the numbers below it that are null, or 1 plus the address of a word that
/// is live or lies below the prefix end.
pub fn redirection_by_counting()
    ensures { (image : HeapImage) → HasLiveList image → (w : ℕ) → IsTrue (is_null_or_live image w)
        → redirected image w ≡ count_by (is_counted image) (range_with_len 0 w) }
{}
