//! The compacted heap as a whole.

ghost use Rattle.std.specs.Prelude.{◌≡◌, ◌+◌, ◌-◌, ◌<◌, ◌≤◌, ◌&&◌, ℕ, ◌==◌, not, Some, List, All, slice_range, replicate, map, flat_map, cond, Bool};
ghost use Rattle.std.specs.List.{range_with_len, prefix_len};
ghost use Rattle.object_heap.specs.Layout.{Layout, Own, IsLayout};
ghost use Rattle.summary.specs.Redirection.{RedirectsReferences};
ghost use Rattle.object_heap.specs.HeapImage.{HeapImage, IsValid, HasLiveList, heap_words, region_count, start_of, word_at, block_of, references_at, end_of, reference_at, reachable};
ghost use Rattle.summary.specs.LiveObjects.{object_count, object_at};
ghost use Rattle.summary.specs.NewAddresses.{new_address, new_end_of, new_live, new_top};
ghost use Rattle.summary.specs.WordMoves.{origin};
ghost use Rattle.summary.specs.Compaction.{redirected, is_reference_of, object_image, carried, moved_word, compacted_word, moved, compact, redirected_word};
ghost use Rattle.summary.specs.SameGraph.{IsSameGraph};
ghost use Rattle.summary.specs.RegionData.{region_addresses};

use heap_image::live_laws;

/// The compaction of a valid image is valid.
pub fn compaction_is_valid()
    ensures { (image : HeapImage) → IsValid image → IsValid (compact image) }
{
    live_laws();
}

/// References of images in files can be redirected, whatever the number of words, and so can those of each lawful layout.
pub fn layouts_redirect_references()
    ensures own { (words : ℕ) → RedirectsReferences Own words }
    ensures lawful { (layout : Layout) (words : ℕ) → IsLayout layout words → RedirectsReferences layout words }
{}

/// If the live objects of the heap are those that its roots reach, the same holds in the compacted heap.
pub fn compaction_keeps_the_reachable()
    ensures { (image : HeapImage) (roots : List ℕ) → HasLiveList image → RedirectsReferences image.layout (heap_words image) → All (λ w. w ≤ heap_words image) roots
        → image.live ≡ reachable image roots
        → (compact image).live ≡ reachable (compact image) (map (redirected image) roots) }
{
    live_laws();
}

/// The compacted heap has the same live objects in the same order, and the same references between them.
pub fn compaction_keeps_the_graph()
    ensures { (image : HeapImage) → HasLiveList image → RedirectsReferences image.layout (heap_words image) → IsSameGraph image (compact image) }
{}

/// After the compaction each reference of a live object leads to the new address of the same object, and null stays
/// null.
pub fn references_lead_to_the_same_objects()
    ensures object { (image : HeapImage) → HasLiveList image → RedirectsReferences image.layout (heap_words image) → (i k f : ℕ) → i < object_count image
        → k < object_count image → f < references_at image (object_at image i)
        → reference_at image (object_at image i) f ≡ object_at image k + 1
        → reference_at (compact image) (new_address image (object_at image i)) f
        ≡ new_address image (object_at image k) + 1 }
    ensures null { (image : HeapImage) → HasLiveList image → RedirectsReferences image.layout (heap_words image) → (i f : ℕ) → i < object_count image
        → f < references_at image (object_at image i) → reference_at image (object_at image i) f ≡ 0
        → reference_at (compact image) (new_address image (object_at image i)) f ≡ 0 }
{}

/// The compacted heap has each object's image at its new address, and zeros from the new top up.
pub fn compaction_by_objects()
    ensures object { (image : HeapImage) → HasLiveList image → (i : ℕ) → i < object_count image
        → slice_range (compact image).words (new_address image (object_at image i)) (new_end_of image (object_at image i))
        ≡ object_image image (object_at image i) }
    ensures zeros { (image : HeapImage) → HasLiveList image → (p : ℕ) → new_top image ≤ p
        → compacted_word image p ≡ 0 }
    ensures carried { (image : HeapImage) → HasLiveList image → (test : ℕ → Bool) (i q : ℕ)
        → i < object_count image → object_at image i ≤ q → q < end_of image (object_at image i)
        → carried image test q
        ≡ cond (is_reference_of image (object_at image i) q && test (object_at image i))
        (redirected_word image (word_at image q)) (word_at image q) }
    ensures zeros_block { (image : HeapImage) → HasLiveList image
        → slice_range (compact image).words (new_top image) (heap_words image)
        ≡ replicate (heap_words image - new_top image) 0 }
{}

/// The block of a region is the list of the words at its addresses.
pub fn blocks_of_regions()
    ensures compacted { (image : HeapImage) → (r : ℕ) → r < region_count image
        → block_of (compact image) r ≡ map (compacted_word image) (region_addresses image r) }
    ensures moved { (image : HeapImage) → (r : ℕ) → r < region_count image
        → block_of (moved image) r ≡ map (moved_word image) (region_addresses image r) }
    ensures old { (image : HeapImage) → (r : ℕ) → r < region_count image
        → block_of image r ≡ map (word_at image) (region_addresses image r) }
    ensures kept { (image : HeapImage) → (r : ℕ) → new_top image ≤ start_of image r → r < region_count image
        → block_of (moved image) r ≡ block_of image r }
    ensures moved_length { (image : HeapImage) → heap_words (moved image) ≡ heap_words image }
    ensures compacted_length { (image : HeapImage) → heap_words (compact image) ≡ heap_words image }
    ensures moved_joined { (image : HeapImage) → IsValid image
        → (moved image).words
        ≡ flat_map (λ r. map (moved_word image) (region_addresses image r)) (range_with_len 0
        (region_count image)) }
    ensures compacted_joined { (image : HeapImage) → IsValid image
        → (compact image).words
        ≡ flat_map (λ r. map (compacted_word image) (region_addresses image r)) (range_with_len 0
        (region_count image)) }
{}

/// Where no object has references, as in a heap of opaque objects, each live word goes to its place as it is, whether the
/// object is deferred or not; and an object keeps its place in the live list, by which its size is known.
pub fn opaque_words_are_moved()
    ensures moved { (image : HeapImage) → ((a : ℕ) → references_at image a ≡ 0) → (p q : ℕ) → p < new_top image
        → origin image p ≡ Some q → moved_word image p ≡ word_at image q }
    ensures compacted { (image : HeapImage) → ((a : ℕ) → references_at image a ≡ 0) → (p q : ℕ) → p < new_top image
        → origin image p ≡ Some q → compacted_word image p ≡ word_at image q }
    ensures place { (image : HeapImage) → HasLiveList image → (i : ℕ) → i < object_count image
        → prefix_len (λ b. not (b == new_address image (object_at image i))) (new_live image)
        ≡ prefix_len (λ b. not (b == object_at image i)) image.live }
{}
