//! The new address of each live word, and the old address of each word after the collection.

ghost use Rattle.std.specs.Prelude.{◌≡◌, ◌<◌, ◌≤◌, true, false, Some, None, ℕ, map, filter};
ghost use Rattle.std.specs.List.{range_with_len};
ghost use Rattle.object_heap.specs.HeapImage.{HeapImage, HasLiveList, heap_words, is_live_word};
ghost use Rattle.summary.specs.NewAddresses.{prefix_end, new_top};
ghost use Rattle.summary.specs.WordMoves.{word_moves, origin, slid};

/// There is one move for each live word, in ascending order.
pub fn moves_by_counting()
    ensures { (image : HeapImage) → HasLiveList image
        → word_moves image
        ≡ map (λ q. (q, slid image q)) (filter (is_live_word image) (range_with_len 0
        (heap_words image))) }
{}

/// Each address from the prefix end up to the new top gets a word. Below, live words stay and nothing goes to the other
/// addresses.
pub fn origin_by_place()
    ensures above { (image : HeapImage) → HasLiveList image → (p : ℕ) → prefix_end image ≤ p → p < new_top image
        → (q : ℕ) × (origin image p ≡ Some q) }
    ensures live { (image : HeapImage) → HasLiveList image → (p : ℕ) → p < prefix_end image
        → is_live_word image p ≡ true → origin image p ≡ Some p }
    ensures dead { (image : HeapImage) → HasLiveList image → (p : ℕ) → p < prefix_end image
        → is_live_word image p ≡ false → origin image p ≡ None }
    ensures top { (image : HeapImage) → HasLiveList image → (p : ℕ) → new_top image ≤ p
        → origin image p ≡ None }
{}
