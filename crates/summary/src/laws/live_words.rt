//! Live words: the objects to which they belong, and their counts.

ghost use Rattle.std.specs.Prelude.{◌≡◌, ◌+◌, ◌-◌, ◌*◌, ◌/◌, ◌<◌, ◌≤◌, true, ℕ, map, sum};
ghost use Rattle.std.specs.List.{range_with_len};
ghost use Rattle.object_heap.specs.HeapImage.{HeapImage, HasLiveList, heap_words, end_of, is_live_word, live_words};
ghost use Rattle.summary.specs.LiveObjects.{object_count, object_at};

/// A live word belongs to one object. Objects of the live list are in order and don't overlap.
pub fn words_of_objects()
    ensures owner { (image : HeapImage) → HasLiveList image → (q : ℕ) → is_live_word image q ≡ true → (i : ℕ)
        × (i < object_count image) × (object_at image i ≤ q)
        × (q < end_of image (object_at image i)) }
    ensures live { (image : HeapImage) → HasLiveList image → (i q : ℕ) → i < object_count image
        → object_at image i ≤ q → q < end_of image (object_at image i) → is_live_word image q ≡ true }
    ensures below { (image : HeapImage) → HasLiveList image → (q : ℕ) → is_live_word image q ≡ true
        → q < heap_words image }
    ensures one { (image : HeapImage) → HasLiveList image → (i k q : ℕ) → i < object_count image
        → k < object_count image → object_at image i ≤ q → q < end_of image (object_at image i)
        → object_at image k ≤ q → q < end_of image (object_at image k)
        → object_at image i ≡ object_at image k }
    ensures ordered { (image : HeapImage) → HasLiveList image → (i k : ℕ) → i < k → k < object_count image
        → end_of image (object_at image i) ≤ object_at image k }
{}

/// The count of live words is the sum over parts, and over blocks of n words.
pub fn live_words_by_blocks()
    ensures parts { (image : HeapImage) → (a b c : ℕ) → a ≤ b → b ≤ c
        → live_words image a c ≡ live_words image a b + live_words image b c }
    ensures blocks { (image : HeapImage) → (n i k : ℕ)
        → live_words image (i * n) ((i + k) * n)
        ≡ sum (map (λ j. live_words image (j * n) (j * n + n)) (range_with_len i k)) }
    ensures ends { (image : HeapImage) → (n i j from to : ℕ) → i < j → from ≤ (i + 1) * n → j * n ≤ to
        → live_words image from to
        ≡ live_words image from ((i + 1) * n)
        + sum (map (λ m. live_words image (m * n) (m * n + n)) (range_with_len (i + 1) (j -
        (i + 1)))) + live_words image (j * n) to }
    ensures cut { (image : HeapImage) → (n from to : ℕ) → 0 < n → from / n < to / n
        → live_words image from to
        ≡ live_words image from ((from / n + 1) * n)
        + sum (map (λ m. live_words image (m * n) (m * n + n)) (range_with_len (from / n + 1)
        (to / n - (from / n + 1)))) + live_words image (to / n * n) to }
{}
