//! Laws of heaps in a host's own layout, for callers' proofs, which have no other way to them. The functions do nothing: each
//! one's contract is a law.
ghost use Rattle.std.specs.Prelude.{◌≡◌, ◌+◌, ◌*◌, ◌^◌, ◌<◌, ◌≤◌, Some, ℕ, List, Option, All, length, slice_index};
ghost use Rattle.object_heap.specs.Layout.{Coding, Coded, IsCoding};
ghost use Rattle.object_heap.specs.HeapImage.{HeapImage, HasLiveList, HasSoundHeader, end_of, heap_words, is_live_word, reachable, size_at, with_live};
ghost use Rattle.object_heap.specs.Sizes.{AreSizesOf};
ghost use Rattle.mark_bitmap.specs.OpaqueObjects.{opaque_image};
ghost use Rattle.summary.specs.NewAddresses.{new_address, new_live, new_top, prefix_end};
ghost use Rattle.summary.specs.WordMoves.{origin, slid, word_moves};
ghost use Rattle.summary.specs.Compaction.{compacted_word};
ghost use Rattle.summary.specs.Redirection.{RedirectsReferences};
ghost use Rattle.summary.specs.SameGraph.{IsSameGraph};
ghost use Rattle.coded_redirection.specs.References.{redirected_at, redirected_words};
ghost use Rattle.coded_redirection.specs.SamePlan.{HasSameObjects, HasSamePlan, HasSameWords};

use object_heap::{layouts_are_lawful, reachable_is_the_least_closed};
use summary::laws::compaction::{compaction_keeps_the_graph, layouts_redirect_references};
use summary::laws::plan_laws;

/// Where objects go depends on their addresses and sizes, the regions and the allowance alone: not on what their words hold, and
/// not on the number of words.
#[inline]
pub fn objects_of_the_same_sizes_slide_alike()
    ensures live_word { (image other : HeapImage) → HasSameObjects image other → (q : ℕ)
        → is_live_word other q ≡ is_live_word image q }
    ensures prefix_end { (image other : HeapImage) → HasSamePlan image other → prefix_end other ≡ prefix_end image }
    ensures new_top { (image other : HeapImage) → HasSamePlan image other → new_top other ≡ new_top image }
    ensures slid { (image other : HeapImage) → HasSamePlan image other → (q : ℕ) → slid other q ≡ slid image q }
    ensures origin { (image other : HeapImage) → HasSamePlan image other → (p : ℕ) → origin other p ≡ origin image p }
    ensures new_address { (image other : HeapImage) → HasSamePlan image other → (a : ℕ)
        → new_address other a ≡ new_address image a }
    ensures new_live { (image other : HeapImage) → HasSamePlan image other → new_live other ≡ new_live image }
    ensures word_moves { (image other : HeapImage) → HasSamePlan image other → word_moves other ≡ word_moves image }
{}

/// The image of opaque objects at the addresses of an image's objects, with these objects' sizes, has the same plan. Objects of
/// its live list lie in its regions.
#[inline]
pub fn opaque_objects_have_their_sizes()
    ensures objects { (image : HeapImage) (log allowance regions : ℕ) (sizes : List ℕ) → AreSizesOf image image.live sizes
        → All (λ a. size_at image a < 2 ^ 32) image.live → All (λ a. a < regions * 2 ^ log) image.live
        → HasSameObjects image (opaque_image log allowance regions image.live sizes) }
    ensures plan { (image : HeapImage) (regions : ℕ) (sizes : List ℕ) → AreSizesOf image image.live sizes
        → All (λ a. size_at image a < 2 ^ 32) image.live → All (λ a. a < regions * 2 ^ image.region_log) image.live
        → HasSamePlan image (opaque_image image.region_log image.allowance regions image.live sizes) }
    ensures inside { (log allowance regions : ℕ) (live sizes : List ℕ) → HasLiveList (opaque_image log allowance regions live sizes)
        → All (λ a. a < regions * 2 ^ log) live }
{}

/// Redirecting the references where they lie, and then sliding the words as they are, makes each live word that of the
/// compaction.
#[inline]
pub fn coded_words_are_compacted()
    ensures word { (c : Coding) (image other : HeapImage) → image.layout ≡ Coded c → HasLiveList image → HasSamePlan image other
        → (dead p q : ℕ) → origin other p ≡ Some q → compacted_word image p ≡ redirected_at other c 0 image.words dead q }
    ensures words { (c : Coding) (image other : HeapImage) → image.layout ≡ Coded c → HasLiveList image → HasSamePlan image other
        → (dead p q : ℕ) → origin other p ≡ Some q
        → compacted_word image p ≡ slice_index (redirected_words other c 0 image.words dead) q }
{
    plan_laws();
}

/// Words of the heap from an address on are redirected as they are among all, if no object begins before that address and ends
/// behind it.
#[inline]
pub fn parts_are_redirected_alike()
    ensures { (image : HeapImage) (c : Coding) (first dead : ℕ) (part words : List ℕ)
        → ((i : ℕ) → i < length part → slice_index part i ≡ slice_index words (first + i))
        → All (λ a. a < first → end_of image a ≤ first) image.live → (i : ℕ) → i < length part
        → redirected_at image c first part dead i ≡ redirected_at image c 0 words dead (first + i) }
{}

/// The objects that roots reach in a heap of a host's layout are a live list, if their headers are sound and they don't overlap:
/// if objects of these sizes are one in another image. What is reached depends on the words and the layout alone.
#[inline]
pub fn reached_objects_are_a_live_list()
    ensures live_list { (c : Coding) (heap image other : HeapImage) (roots : List ℕ) → heap.layout ≡ Coded c
        → c.count ≤ heap_words heap → All (HasSoundHeader heap) image.live → image.live ≡ reachable heap roots
        → HasSameWords heap image → HasSameObjects image other → HasLiveList other → HasLiveList image }
    ensures reachable { (image other : HeapImage) → HasSameWords image other → (roots : List ℕ)
        → reachable other roots ≡ reachable image roots }
{
    reachable_is_the_least_closed();
}

/// If each live word goes to its place, redirected if it is a reference, then the heap has the same objects in the same order,
/// and the same references between them.
#[inline]
pub fn coded_slide_keeps_the_graph()
    ensures { (c : Coding) (image other : HeapImage) → image.layout ≡ Coded c → HasLiveList image
        → RedirectsReferences image.layout (heap_words image) → HasSamePlan image other → (dead : ℕ) (after : List ℕ)
        → ((p q : ℕ) → origin other p ≡ Some q → slice_index after p ≡ redirected_at other c 0 image.words dead q)
        → (roots : Option (List ℕ))
        → IsSameGraph image (record image { words = after; live = new_live image; roots = roots }) }
{
    plan_laws();
    coded_words_are_compacted();
    compaction_keeps_the_graph();
}

/// A collection of a heap in a host's layout keeps the objects that roots reach and the references between them: if their headers
/// are sound, opaque objects of their sizes are planned, and each live word goes to its place, redirected if it is a reference.
#[inline]
pub fn collected_heaps_keep_the_graph()
    ensures { (c : Coding) (heap : HeapImage) (roots : List ℕ) (log allowance regions : ℕ) (live sizes : List ℕ)
        → heap.layout ≡ Coded c → IsCoding c (heap_words heap)
        → live ≡ reachable heap roots → All (HasSoundHeader heap) live
        → AreSizesOf heap live sizes → All (λ a. size_at heap a < 2 ^ 32) live
        → HasLiveList (opaque_image log allowance regions live sizes)
        → (dead : ℕ) (after : List ℕ)
        → ((p q : ℕ) → origin (opaque_image log allowance regions live sizes) p ≡ Some q
        → slice_index after p ≡ redirected_at (opaque_image log allowance regions live sizes) c 0 heap.words dead q)
        → IsSameGraph (with_live heap live)
        (with_live (record heap { words = after }) (new_live (opaque_image log allowance regions live sizes))) }
{
    objects_of_the_same_sizes_slide_alike();
    opaque_objects_have_their_sizes();
    reached_objects_are_a_live_list();
    coded_slide_keeps_the_graph();
    layouts_are_lawful();
    layouts_redirect_references();
}
