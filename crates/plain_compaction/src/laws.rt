//! A law of compactions. The function does nothing: its contract is the law.
ghost use Rattle.std.specs.Prelude.{◌≡◌, ℕ, List, Option};
ghost use Rattle.object_heap.specs.HeapImage.{HeapImage};
ghost use Rattle.summary.specs.NewAddresses.{new_top, prefix_end};
ghost use Rattle.summary.specs.RegionData.{fill_count};
ghost use Rattle.summary.specs.Compaction.{compact};

/// The new words, the new live list and the figures of a collection don't depend on the roots.
pub fn roots_change_nothing_else()
    ensures words { (image : HeapImage) (roots : Option (List ℕ))
        → (compact (record image { roots = roots })).words ≡ (compact image).words }
    ensures live { (image : HeapImage) (roots : Option (List ℕ))
        → (compact (record image { roots = roots })).live ≡ (compact image).live }
    ensures prefix { (image : HeapImage) (roots : Option (List ℕ))
        → prefix_end (record image { roots = roots }) ≡ prefix_end image }
    ensures top { (image : HeapImage) (roots : Option (List ℕ))
        → new_top (record image { roots = roots }) ≡ new_top image }
    ensures filled { (image : HeapImage) (roots : Option (List ℕ))
        → fill_count (record image { roots = roots }) ≡ fill_count image }
{}
