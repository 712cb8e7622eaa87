//! The dense prefix: its end, its dead words and its fillers.

ghost use Rattle.std.specs.Prelude.{◌≡◌, ◌+◌, ◌-◌, ◌<◌, ◌≤◌, ◌∷◌, false, ℕ, slice_range, replicate};
ghost use Rattle.object_heap.specs.Header.{filler_header};
ghost use Rattle.object_heap.specs.HeapImage.{HeapImage, HasLiveList, region_words, start_of, is_live_word, live_words};
ghost use Rattle.summary.specs.NewAddresses.{dead_words_below, prefix_end, IsPrefixEnd};
ghost use Rattle.summary.specs.Fillers.{filler_word, IsDeadRun};
ghost use Rattle.summary.specs.Compaction.{moved_word, compacted_word, moved, compact};
ghost use Rattle.summary.specs.RegionData.{data_words};

/// The prefix end is the greatest region start that the allowance permits.
pub fn prefix_end_is_greatest()
    ensures { (image : HeapImage) → IsPrefixEnd image (prefix_end image) }
{}

/// The dead and the live words below an address add up to all words there. The number of dead words grows with the
/// address, for each region by the words that are not its data.
pub fn dead_words_by_region()
    ensures live { (image : HeapImage) → (b : ℕ) → dead_words_below image b + live_words image 0 b ≡ b }
    ensures more { (image : HeapImage) → (b c : ℕ) → b ≤ c
        → dead_words_below image b ≤ dead_words_below image c }
    ensures region { (image : HeapImage) → HasLiveList image → (r : ℕ)
        → dead_words_below image (start_of image r + region_words image) + data_words image r
        ≡ dead_words_below image (start_of image r) + region_words image }
{}

/// Each dead word of the dense prefix is in a maximal run, cut at the prefix end, which becomes a filler: a header with
/// the run's length, then zeros.
pub fn fillers_by_runs()
    ensures run { (image : HeapImage) → (p : ℕ) → p < prefix_end image → is_live_word image p ≡ false
        → (a : ℕ) × (b : ℕ) × IsDeadRun image a b × (a ≤ p) × (p < b) }
    ensures header { (image : HeapImage) → (a b : ℕ) → IsDeadRun image a b
        → filler_word image a ≡ filler_header (b - a) }
    ensures zeros { (image : HeapImage) → (a b p : ℕ) → IsDeadRun image a b → a < p → p < b
        → filler_word image p ≡ 0 }
    ensures compacted { (image : HeapImage) → HasLiveList image → (p : ℕ) → p < prefix_end image
        → is_live_word image p ≡ false → compacted_word image p ≡ filler_word image p }
    ensures moved { (image : HeapImage) → HasLiveList image → (p : ℕ) → p < prefix_end image
        → is_live_word image p ≡ false → moved_word image p ≡ filler_word image p }
    ensures compacted_run { (image : HeapImage) → HasLiveList image → (a b : ℕ) → IsDeadRun image a b
        → slice_range (compact image).words a b ≡ filler_header (b - a) ∷ replicate (b - a - 1) 0 }
    ensures moved_run { (image : HeapImage) → HasLiveList image → (a b : ℕ) → IsDeadRun image a b
        → slice_range (moved image).words a b ≡ filler_header (b - a) ∷ replicate (b - a - 1) 0 }
{}
