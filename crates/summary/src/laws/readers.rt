//! Which regions read which.

ghost use Rattle.std.specs.Prelude.{◌≡◌, ◌+◌, ◌<◌, ◌≤◌, true, Some, ℕ};
ghost use Rattle.object_heap.specs.HeapImage.{HeapImage, IsValid, HasLiveList, region_words, region_count, region_of, start_of, is_live_word};
ghost use Rattle.summary.specs.NewAddresses.{prefix_end};
ghost use Rattle.summary.specs.WordMoves.{reads, is_to_fill, slid};
ghost use Rattle.summary.specs.RegionData.{data_words, destination, reader_count, source, first_target, last_target, readers_by_destination};

/// One region reads another if a live word goes from the other to it. The reader is to be filled and doesn't lie above,
/// and a region of the dense prefix reads only itself.
pub fn reads_by_words()
    ensures word { (image : HeapImage) → HasLiveList image → (d s : ℕ) → reads image d s ≡ true → (q : ℕ)
        × (is_live_word image q ≡ true) × (region_of image (slid image q) ≡ d)
        × (region_of image q ≡ s) }
    ensures read { (image : HeapImage) → HasLiveList image → (d s q : ℕ) → is_live_word image q ≡ true
        → region_of image (slid image q) ≡ d → region_of image q ≡ s → reads image d s ≡ true }
    ensures below { (image : HeapImage) → HasLiveList image → (d s : ℕ) → reads image d s ≡ true → d ≤ s }
    ensures filled { (image : HeapImage) → HasLiveList image → (d s : ℕ) → reads image d s ≡ true
        → is_to_fill image d ≡ true }
    ensures prefix { (image : HeapImage) → HasLiveList image → (d s : ℕ) → start_of image d < prefix_end image
        → reads image d s ≡ true → d ≡ s }
    ensures in_range { (image : HeapImage) → IsValid image → (d s : ℕ) → reads image d s ≡ true
        → (d < region_count image) × (s < region_count image) }
{}

/// The readers of a region with data are those from the region of its destination to the region to which its last word
/// goes.
pub fn reads_by_destination()
    ensures targets { (image : HeapImage) → HasLiveList image → (d s : ℕ) → reads image d s ≡ true
        → (0 < data_words image s) × (first_target image s ≤ d) × (d ≤ last_target image s) }
    ensures read { (image : HeapImage) → HasLiveList image → (d s : ℕ) → 0 < data_words image s
        → first_target image s ≤ d → d ≤ last_target image s → reads image d s ≡ true }
    ensures ordered { (image : HeapImage) → HasLiveList image → (s : ℕ) → 0 < data_words image s
        → (first_target image s ≤ last_target image s)
        × (last_target image s ≤ first_target image s + 1) × (last_target image s ≤ s) }
{}

/// The regions that a region reads are consecutive among the regions with data, from its source on.
pub fn sources_in_a_row()
    ensures between { (image : HeapImage) → HasLiveList image → (d s t u : ℕ) → reads image d s ≡ true
        → reads image d u ≡ true → s ≤ t → t ≤ u → 0 < data_words image t → reads image d t ≡ true }
    ensures next { (image : HeapImage) → HasLiveList image → (d s t : ℕ) → reads image d s ≡ true → s ≤ t
        → 0 < data_words image t → destination image t < start_of image d + region_words image
        → reads image d t ≡ true }
    ensures last { (image : HeapImage) → HasLiveList image → (d t : ℕ) → reads image d t ≡ true
        → destination image t < start_of image d + region_words image }
    ensures first { (image : HeapImage) → HasLiveList image → (d : ℕ) → prefix_end image ≤ start_of image d
        → is_to_fill image d ≡ true → (s : ℕ) × (source image d ≡ Some s) × (reads image d s ≡ true)
        × ((t : ℕ) → reads image d t ≡ true → s ≤ t) }
    ensures own { (image : HeapImage) → HasLiveList image → (d : ℕ) → start_of image d < prefix_end image
        → 0 < data_words image d → reads image d d ≡ true }
{}

/// The number of other regions that read a region follows from its destination and its data; it is at most two.
pub fn reader_count_by_destination()
    ensures count { (image : HeapImage) → IsValid image → (s : ℕ)
        → reader_count image s ≡ readers_by_destination image s }
    ensures few { (image : HeapImage) → IsValid image → (s : ℕ) → reader_count image s ≤ 2 }
{}
