//! Deferred objects, and the heap between the moves and their update.

ghost use Rattle.std.specs.Prelude.{◌≡◌, ◌+◌, ◌<◌, ◌≤◌, true, false, Some, None, not, ℕ, map, cond};
ghost use Rattle.std.specs.List.{range_with_len};
ghost use Rattle.object_heap.specs.Layout.{references_in};
ghost use Rattle.object_heap.specs.HeapImage.{HeapImage, HasLiveList, heap_words, region_of, word_at, size_at, references_at};
ghost use Rattle.summary.specs.LiveObjects.{object_count, object_at};
ghost use Rattle.summary.specs.NewAddresses.{new_address, new_top};
ghost use Rattle.summary.specs.Compaction.{is_deferred, carried, moved_word, compacted_word, moved, compact, redirected_word};
ghost use Rattle.summary.specs.RegionData.{region_addresses, deferred};
ghost use Rattle.summary.specs.Updates.{is_late_reference, updated_word};

/// The new words of at most one deferred object begin in a region, and `deferred` has its new address.
pub fn one_deferred_object()
    ensures one { (image : HeapImage) → HasLiveList image → (i k : ℕ) → i < object_count image
        → k < object_count image → is_deferred image (object_at image i) ≡ true
        → is_deferred image (object_at image k) ≡ true
        → region_of image (new_address image (object_at image i))
        ≡ region_of image (new_address image (object_at image k))
        → object_at image i ≡ object_at image k }
    ensures address { (image : HeapImage) → HasLiveList image → (i : ℕ) → i < object_count image
        → is_deferred image (object_at image i) ≡ true
        → deferred image (region_of image (new_address image (object_at image i)))
        ≡ Some (new_address image (object_at image i)) }
    ensures object { (image : HeapImage) → HasLiveList image → (d x : ℕ) → deferred image d ≡ Some x → (i : ℕ)
        × (i < object_count image) × (is_deferred image (object_at image i) ≡ true)
        × (new_address image (object_at image i) ≡ x) × (region_of image x ≡ d) }
    ensures none { (image : HeapImage) → HasLiveList image → (d : ℕ)
        → ((i : ℕ) → i < object_count image → is_deferred image (object_at image i) ≡ true
        → region_of image (new_address image (object_at image i)) ≡ d → ⊥)
        → deferred image d ≡ None }
{}

/// At its new address a moved object has its old words; its references are redirected unless it is deferred.
pub fn moved_objects()
    ensures word { (image : HeapImage) → HasLiveList image → (i j : ℕ) → i < object_count image
        → j < size_at image (object_at image i)
        → moved_word image (new_address image (object_at image i) + j)
        ≡ carried image (λ a. not (is_deferred image a)) (object_at image i + j) }
    ensures header { (image : HeapImage) → HasLiveList image → (i : ℕ) → i < object_count image
        → moved_word image (new_address image (object_at image i))
        ≡ word_at image (object_at image i) }
    ensures reference { (image : HeapImage) → HasLiveList image → (i f : ℕ) → i < object_count image
        → f < references_at image (object_at image i)
        → moved_word image (new_address image (object_at image i) + (1 + f))
        ≡ cond (is_deferred image (object_at image i)) (word_at image (object_at image i +
        (1 + f))) (redirected_word image (word_at image (object_at image i + (1 + f)))) }
{}

/// Redirecting the references of the deferred objects and clearing the words from the new top up makes the compacted
/// words from the moved ones.
pub fn update_then_clear()
    ensures word { (image : HeapImage) → HasLiveList image → (p : ℕ)
        → updated_word image p ≡ compacted_word image p }
    ensures words { (image : HeapImage) → HasLiveList image
        → map (updated_word image) (range_with_len 0 (heap_words image)) ≡ (compact image).words }
    ensures late { (image : HeapImage) → HasLiveList image → (p : ℕ) → is_late_reference image p ≡ true
        → (d : ℕ) × (x : ℕ) × (deferred image d ≡ Some x) × (x < p)
        × (p ≤ x + references_in image.layout (moved_word image x)) }
    ensures are_late { (image : HeapImage) → HasLiveList image → (p d x : ℕ) → deferred image d ≡ Some x → x < p
        → p ≤ x + references_in image.layout (moved_word image x) → is_late_reference image p ≡ true }
    ensures same { (image : HeapImage) → HasLiveList image → (p : ℕ) → p < new_top image
        → is_late_reference image p ≡ false → moved_word image p ≡ compacted_word image p }
    ensures redirected { (image : HeapImage) → HasLiveList image → (p : ℕ) → is_late_reference image p ≡ true
        → compacted_word image p ≡ redirected_word image (moved_word image p) }
    ensures below { (image : HeapImage) → HasLiveList image → (p : ℕ) → is_late_reference image p ≡ true
        → p < new_top image }
    ensures header { (image : HeapImage) → HasLiveList image → (i : ℕ) → i < object_count image
        → is_late_reference image (new_address image (object_at image i)) ≡ false }
    ensures once { (image : HeapImage) → HasLiveList image → (p d e x y : ℕ) → deferred image d ≡ Some x
        → deferred image e ≡ Some y → x < p → p ≤ x + references_in image.layout (moved_word image x) → y < p
        → p ≤ y + references_in image.layout (moved_word image y) → (d ≡ e) × (x ≡ y) }
    ensures blocks { (image : HeapImage) → HasLiveList image → (r : ℕ)
        → map (updated_word image) (region_addresses image r)
        ≡ map (compacted_word image) (region_addresses image r) }
{}
