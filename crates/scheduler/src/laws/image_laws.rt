//! Theorem about the moves of an image.
ghost use Rattle.std.specs.Prelude.{◌≡◌, ◌&&◌, ◌==◌, not, ℕ};
ghost use Rattle.object_heap.specs.HeapImage.{HeapImage, IsValid, region_count as heap_regions};
ghost use Rattle.summary.specs.WordMoves.{is_to_fill, reads as image_reads};
ghost use Rattle.scheduler.specs.MoveTable.{IsMoveTable, region_count, to_fill, reads};
ghost use Rattle.scheduler.specs.ImageMoves.{image_table};

use summary::laws::plan_laws;

/// The moves of an image form a valid table with the image's regions. Its regions to be filled are those of the
/// compaction, and it has a pair for each two regions between which a word goes.
pub fn moves_of_images()
    ensures regions { (image : HeapImage) → region_count (image_table image) ≡ heap_regions image }
    ensures lawful { (image : HeapImage) → IsValid image → IsMoveTable (image_table image) }
    ensures to_fill { (image : HeapImage) → IsValid image → (r : ℕ) → to_fill (image_table image) r ≡ is_to_fill image r }
    ensures reads { (image : HeapImage) → IsValid image → (d s : ℕ)
        → reads (image_table image) d s ≡ (not (d == s) && image_reads image d s) }
{
    plan_laws();
}
