//! Laws about schedules that the word machine accepts. The function has no effect: its contract is the law.
ghost use Rattle.std.specs.Prelude.{ℕ, List};
ghost use Rattle.object_heap.specs.HeapImage.{HeapImage, region_count};
ghost use Rattle.history.specs.Replay.{IsReplay};
ghost use Rattle.scheduler.specs.declared.entry.Entry.{Entry};
ghost use Rattle.scheduler.specs.declared.schedule.line.Line.{Line};
ghost use Rattle.schedule_timeline.specs.FirstCalls.{AreGrantedBelow};

use history::what_replays_keep;
use scheduler::moves_of_images;

/// A call grants only a region of the image.
pub fn grants_are_inside()
    ensures { (image : HeapImage) (workers : ℕ) (lines : List Line) (log : List Entry) → IsReplay image workers lines log
        → AreGrantedBelow (region_count image) log }
{
    what_replays_keep();
    moves_of_images();
}
