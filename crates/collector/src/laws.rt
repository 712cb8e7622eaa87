//! Laws of whole collections. The functions do nothing: their contracts are the laws.
ghost use Rattle.std.specs.Prelude.{◌≡◌};
ghost use Rattle.object_heap.specs.HeapImage.{HeapImage};
ghost use Rattle.heap_image.specs.Upgrade.{upgraded};
ghost use Rattle.summary.specs.Compaction.{compact};
ghost use Rattle.scheduler.specs.ImageMoves.{image_table};
ghost use Rattle.collector.specs.Collections.{figures_of};

/// Collecting an image and collecting its upgrade give the same words, live list and figures, by the same moves of
/// regions. Only the roots are added: the collection of the upgrade is the upgrade of the collection.
pub fn an_upgrade_is_collected_alike()
    ensures words { (image : HeapImage) → (compact (upgraded image)).words ≡ (compact image).words }
    ensures live { (image : HeapImage) → (compact (upgraded image)).live ≡ (compact image).live }
    ensures figures { (image : HeapImage) → figures_of (upgraded image) ≡ figures_of image }
    ensures moves { (image : HeapImage) → image_table (upgraded image) ≡ image_table image }
    ensures whole { (image : HeapImage) → compact (upgraded image) ≡ upgraded (compact image) }
{}
