ghost use Rattle.std.specs.Prelude.{ℕ, List};
ghost use Rattle.object_heap.specs.HeapImage.{HeapImage, IsValid};
ghost use Rattle.history.specs.MachineLaws.{MachineLaws};
ghost use Rattle.history.specs.WordMachine.{IsAllowed, IsDrainedBeforeWritten};
ghost use Rattle.scheduler.specs.declared.entry.Entry.{Entry};

pub(crate) mod image_laws;
pub(crate) mod record_laws;
pub(crate) mod replay_laws;
pub(crate) mod text_laws;

use scheduler::{calls_are_lines, how_counts_go_down, moves_of_images, what_legal_histories_keep};
use summary::laws::plan_laws;

/// No word is overwritten before it is copied out. For a valid image and any number of workers: in
/// every list of calls that the word machine allows, each copy finds each origin word as it was at the
/// start, although other regions, and the lower words of the region itself, are already overwritten.
/// Once all regions to be filled are filled, the heap is that of the moved words.
pub fn drained_before_written()
    ensures { (image : HeapImage) → IsValid image → (workers : ℕ) (log : List Entry) → IsAllowed image workers log → IsDrainedBeforeWritten image log }
{
    machine_laws();
}

/// What the proofs of the word machine use of plans, of the image's table, of legal histories and of lines.
pub(crate) fn machine_laws()
    ensures { MachineLaws }
{
    plan_laws();
    moves_of_images();
    how_counts_go_down();
    what_legal_histories_keep();
    calls_are_lines();
}
