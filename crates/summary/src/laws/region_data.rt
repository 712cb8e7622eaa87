//! The data of a region, its destination and its source.

ghost use Rattle.std.specs.Prelude.{◌≡◌, ◌+◌, ◌-◌, ◌<◌, ◌≤◌, ◌==◌, true, Some, ℕ, sum_by, cond, min, nat_lt};
ghost use Rattle.object_heap.specs.HeapImage.{HeapImage, IsValid, HasLiveList, region_words, heap_words, region_count, region_of, start_of, end_of, is_live_word, live_words};
ghost use Rattle.summary.specs.LiveObjects.{object_count, object_at};
ghost use Rattle.summary.specs.NewAddresses.{prefix_end, new_top};
ghost use Rattle.summary.specs.WordMoves.{is_to_fill, slid};
ghost use Rattle.summary.specs.RegionData.{is_begun_left, partial_words, own_words, data_words, destination, source, fill_count};

/// The partial and the own words are the live words of a region. The partial words are at its front, and an object that
/// begins in the region begins after them.
pub fn region_data_by_words()
    ensures counted { (image : HeapImage) → HasLiveList image → (r : ℕ)
        → partial_words image r + own_words image r
        ≡ live_words image (start_of image r) (start_of image r + region_words image) }
    ensures front { (image : HeapImage) → (r i : ℕ) → i < region_words image
        → is_begun_left image r (start_of image r + i) ≡ nat_lt i (partial_words image r) }
    ensures live { (image : HeapImage) → HasLiveList image → (r i : ℕ) → i < partial_words image r
        → is_live_word image (start_of image r + i) ≡ true }
    ensures behind { (image : HeapImage) → HasLiveList image → (i : ℕ) → i < object_count image
        → start_of image (region_of image (object_at image i))
        + partial_words image (region_of image (object_at image i)) ≤ object_at image i }
{}

/// The own words of a region belong to the objects that begin in it, up to its end. The partial words belong to the last
/// object that begins before it.
pub fn region_data_by_objects()
    ensures own { (image : HeapImage) → HasLiveList image → (r : ℕ)
        → own_words image r
        ≡ sum_by (λ a. cond (region_of image a == r) (min (end_of image a)
        (start_of image r + region_words image) - a) 0) image.live }
    ensures partial { (image : HeapImage) → HasLiveList image → (r i : ℕ) → i < object_count image
        → object_at image i < start_of image r
        → (i + 1 < object_count image → start_of image r ≤ object_at image (i + 1))
        → partial_words image r
        ≡ min (region_words image) (end_of image (object_at image i) - start_of image r) }
    ensures none { (image : HeapImage) → HasLiveList image → (r : ℕ)
        → (0 < object_count image → start_of image r ≤ object_at image 0)
        → partial_words image r ≡ 0 }
    ensures crossing { (image : HeapImage) → HasLiveList image → (r i : ℕ) → i < object_count image
        → object_at image i < start_of image r → start_of image r < end_of image (object_at image i)
        → partial_words image r
        ≡ min (region_words image) (end_of image (object_at image i) - start_of image r) }
    ensures clear { (image : HeapImage) → HasLiveList image → (r : ℕ)
        → ((i : ℕ) → i < object_count image → object_at image i < start_of image r → end_of image
        (object_at image i) ≤ start_of image r)
        → partial_words image r ≡ 0 }
{}

/// Up to the prefix end a region's destination is its start. From there on it is the destination of the region before
/// plus that region's data; the last sum is the new top.
pub fn destinations_in_a_row()
    ensures prefix { (image : HeapImage) → HasLiveList image → (r : ℕ) → start_of image r ≤ prefix_end image
        → destination image r ≡ start_of image r }
    ensures next { (image : HeapImage) → HasLiveList image → (r : ℕ) → prefix_end image ≤ start_of image r
        → start_of image r + region_words image ≤ heap_words image
        → destination image (r + 1) ≡ destination image r + data_words image r }
    ensures top { (image : HeapImage) → IsValid image → destination image (region_count image) ≡ new_top image }
{}

/// The live words of a region at or above the prefix end go to its destination and the addresses after it, in order and
/// without a gap.
pub fn region_words_go_in_a_row()
    ensures at { (image : HeapImage) → HasLiveList image → (r q : ℕ) → prefix_end image ≤ start_of image r
        → start_of image r ≤ q → is_live_word image q ≡ true
        → slid image q ≡ destination image r + live_words image (start_of image r) q }
    ensures within { (image : HeapImage) → HasLiveList image → (r q : ℕ) → prefix_end image ≤ start_of image r
        → is_live_word image q ≡ true → region_of image q ≡ r → (destination image r ≤ slid image q)
        × (slid image q < destination image r + data_words image r) }
    ensures each { (image : HeapImage) → HasLiveList image → (r k : ℕ) → prefix_end image ≤ start_of image r
        → k < data_words image r → (q : ℕ) × (is_live_word image q ≡ true) × (region_of image q ≡ r)
        × (slid image q ≡ destination image r + k) }
{}

/// The source of a region is the region at or above the prefix end whose data go to the region's start.
pub fn source_by_destination()
    ensures at { (image : HeapImage) → HasLiveList image → (d s : ℕ) → prefix_end image ≤ start_of image s
        → destination image s ≤ start_of image d
        → start_of image d < destination image s + data_words image s → source image d ≡ Some s }
    ensures is { (image : HeapImage) → HasLiveList image → (d s : ℕ) → source image d ≡ Some s
        → (prefix_end image ≤ start_of image d) × (start_of image d < new_top image)
        × (prefix_end image ≤ start_of image s) × (destination image s ≤ start_of image d)
        × (start_of image d < destination image s + data_words image s) }
{}

/// The regions to fill are those that begin below the new top. The new top lies in the heap and not below the prefix
/// end.
pub fn regions_to_fill()
    ensures count { (image : HeapImage) → (d : ℕ) → is_to_fill image d ≡ nat_lt d (fill_count image) }
    ensures few { (image : HeapImage) → IsValid image → fill_count image ≤ region_count image }
    ensures top { (image : HeapImage) → HasLiveList image → new_top image ≤ heap_words image }
    ensures prefix { (image : HeapImage) → HasLiveList image → prefix_end image ≤ new_top image }
{}
