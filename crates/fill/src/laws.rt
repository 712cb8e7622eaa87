//! Laws of opaque objects' words. The functions do nothing: each one's contract is a law.
ghost use Rattle.std.specs.Prelude.{◌≡◌, ◌<◌, ◌≤◌, true, None, ℕ, List, length};
ghost use Rattle.object_heap.specs.HeapImage.{HeapImage, IsValid, region_words, region_count, is_live_word};
ghost use Rattle.summary.specs.NewAddresses.{new_top};
ghost use Rattle.summary.specs.WordMoves.{origin, slid};
ghost use Rattle.summary.specs.RegionData.{fill_count};
ghost use Rattle.fill.specs.SlidWords.{AreWhole, held_word, slid_word, slid_block};

use summary::laws::plan_laws;

/// Each live word goes to its new address as it was. Where no word goes, and from the new top up, the word that was
/// there stays.
pub fn opaque_words_slide()
    ensures live { (image : HeapImage) → IsValid image → (held : ℕ → List ℕ) (q : ℕ) → is_live_word image q ≡ true
        → slid_word image held (slid image q) ≡ held_word image held q }
    ensures others { (image : HeapImage) (held : ℕ → List ℕ) (p : ℕ) → origin image p ≡ None
        → slid_word image held p ≡ held_word image held p }
    ensures free { (image : HeapImage) (held : ℕ → List ℕ) (p : ℕ) → new_top image ≤ p
        → slid_word image held p ≡ held_word image held p }
{
    plan_laws();
}

/// What a region gets depends on the words of the heap's regions alone, and is as long as a region. A region that isn't
/// to be filled stays.
pub fn opaque_regions_slide()
    ensures same { (image : HeapImage) → IsValid image → (f g : ℕ → List ℕ)
        → ((r : ℕ) → r < region_count image → f r ≡ g r) → (r : ℕ) → r < region_count image
        → slid_block image f r ≡ slid_block image g r }
    ensures above { (image : HeapImage) → IsValid image → (held : ℕ → List ℕ) → AreWhole image held → (r : ℕ)
        → fill_count image ≤ r → r < region_count image → slid_block image held r ≡ held r }
    ensures whole { (image : HeapImage) (held : ℕ → List ℕ) (r : ℕ)
        → length (slid_block image held r) ≡ region_words image }
{
    plan_laws();
}
