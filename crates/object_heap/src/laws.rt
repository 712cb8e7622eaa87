//! Laws of heaps, for callers' proofs, which have no other way to them. The functions do nothing: each one's contract is
//! a law.
ghost use Rattle.std.specs.Prelude.{◌≡◌, false, None, slice_index, ◌+◌, ◌-◌, ◌*◌, ◌/◌, ◌%◌, ◌^◌, ◌<◌, ◌≤◌, ◌==◌, ◌||◌, ℕ, List, Bool, true, [], All, IsTrue, drop, filter, map, length, set, slice_index_or, take, bit_and, bit_or};
ghost use Rattle.std.specs.List.{concat, range_with_len};
ghost use Rattle.object_heap.specs.Bits.{has};
ghost use Rattle.object_heap.specs.HeapImage.{HeapImage, IsValid, HasLiveList, HasSoundHeader, AreBlocks, heap_words, is_null_or_live, is_unsound, reachable, reference_at, references_at, roots_of};
ghost use Rattle.object_heap.specs.Layout.{Coding, Coded, Own, IsCoding, IsLayout, coded_reference, coded_redirected, ocaml, scheme48};
ghost use Rattle.object_heap.specs.Reachable.{is_listed, IsClosed};
ghost use Rattle.object_heap.specs.LiveLaws.{LiveLaws};
ghost use Rattle.object_heap.specs.ObjectFaults.{dangling, overlapping, unsound_header};

/// The addresses that are reachable from roots are the least closed set, and they ascend.
#[inline]
pub fn reachable_is_the_least_closed()
    ensures closed { (image : HeapImage) (roots : List ℕ) → IsClosed image roots (is_listed (reachable image roots)) }
    ensures least { (image : HeapImage) (roots : List ℕ) (passes : ℕ → Bool) → IsClosed image roots passes
        → (a : ℕ) → is_listed (reachable image roots) a ≡ true → passes a ≡ true }
    ensures ascending { (image : HeapImage) (roots : List ℕ) → reachable image roots
        ≡ filter (is_listed (reachable image roots)) (range_with_len 0 (heap_words image)) }
{}

/// With a root to each live object, exactly the live objects are reachable.
#[inline]
pub fn live_objects_are_reached()
    ensures { (image : HeapImage) → HasLiveList image → image.live ≡ reachable image (map (λ a. a + 1) image.live) }
{}

/// Each root of an image is null or leads to a live object.
#[inline]
pub fn roots_are_null_or_live()
    ensures { (image : HeapImage) → IsValid image → All (λ w. IsTrue (is_null_or_live image w)) (roots_of image) }
{}

/// Live lists, the objects that references and roots reach, and their headers.
#[inline]
pub fn live_laws()
    ensures { LiveLaws }
{}

/// The size of a region, as it is computed of its logarithm, and the place of an address in its region.
#[inline]
pub fn regions_by_log()
    ensures few { (log : ℕ) → log ≤ 20 → 1 * 2 ^ log % 18446744073709551616 ≤ 1048576 }
    ensures place { (log a : ℕ) → log ≤ 20 → bit_and a (1 * 2 ^ log % 18446744073709551616 - 1) ≡ a % 2 ^ log }
{}

/// The words of blocks of one size, one block behind the other.
#[inline]
pub fn blocks_joined()
    ensures words { (log : ℕ) (blocks : List (List ℕ)) → AreBlocks log blocks → length (concat blocks) ≡ length blocks * 2 ^ log }
    ensures count { (log : ℕ) (blocks : List (List ℕ)) → AreBlocks log blocks → length (concat blocks) / 2 ^ log ≡ length blocks }
    ensures parts { (log : ℕ) (blocks : List (List ℕ)) → AreBlocks log blocks → (r : ℕ) → r < length blocks
        → take (2 ^ log) (drop (r * 2 ^ log) (concat blocks)) ≡ slice_index_or blocks r [] }
    ensures below { (log : ℕ) (blocks : List (List ℕ)) → AreBlocks log blocks → (a : ℕ) → a < length (concat blocks) → a / 2 ^ log < length blocks }
{}

/// A bit that is put into words is set, and the others stay.
#[inline]
pub fn inserted_bit()
    ensures { (words : List ℕ) (i k : ℕ) → i / 64 < length words
        → has (set words (i / 64) (bit_or (slice_index_or words (i / 64) 0) (1 * 2 ^ (i % 64) % 18446744073709551616))) k
        ≡ (has words k || (i == k)) }
{}

/// What holds of the objects of a live list with which nothing is wrong.
#[inline]
pub fn objects_without_faults()
    ensures header { (image : HeapImage) (a : ℕ) → is_unsound image a ≡ false → HasSoundHeader image a }
    ensures references { (image : HeapImage) → dangling image ≡ None → (i : ℕ) → i < length image.live
        → (f : ℕ) → f < references_at image (slice_index image.live i)
        → IsTrue (is_null_or_live image (reference_at image (slice_index image.live i) f)) }
    ensures live_list { (image : HeapImage) → unsound_header image ≡ None → overlapping image ≡ None
        → dangling image ≡ None → HasLiveList image }
{}

/// A reference of a host's layout that is redirected leads where it is to, and any other word stays.
#[inline]
pub fn coded_references_are_redirected()
    ensures leads { (c : Coding) (words : ℕ) → IsCoding c words → (w r : ℕ) → 0 < coded_reference c w → 0 < r → r ≤ words
        → coded_reference c (coded_redirected c w r) ≡ r }
    ensures stays { (c : Coding) (w : ℕ) → coded_redirected c w (coded_reference c w) ≡ w }
    ensures fits { (c : Coding) (words : ℕ) → IsCoding c words → (w r : ℕ) → w < 2 ^ 64 → r ≤ words → coded_redirected c w r < 2 ^ 64 }
{}

/// The layout of images in files and those of hosts keep what proofs need; OCaml's and Scheme 48's numbers are such.
#[inline]
pub fn layouts_are_lawful()
    ensures own { (words : ℕ) → words < 2 ^ 64 → IsLayout Own words }
    ensures coded { (c : Coding) (words : ℕ) → IsCoding c words → IsLayout (Coded c) words }
    ensures of_ocaml { (start words : ℕ) → start + 8 + 8 * words ≤ 2 ^ 64 → IsCoding (ocaml start words) words }
    ensures of_scheme48 { (start words : ℕ) → start + 11 + 8 * words ≤ 2 ^ 64 → IsCoding (scheme48 start words) words }
{}
