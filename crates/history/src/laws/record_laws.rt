//! Theorem about schedules that have all their replies.
ghost use Rattle.std.specs.Prelude.{true};
ghost use Rattle.object_heap.specs.HeapImage.{HeapImage, IsValid};
ghost use Rattle.scheduler.specs.Schedule.{ScheduleView, IsHistory};
ghost use Rattle.history.specs.Replay.{IsChecked};
ghost use Rattle.history.specs.Record.{IsRecord};

use scheduler::{moves_of_images, settled_histories_have_each_once};

/// If a schedule has all its replies and `check` says that all regions to be filled are settled at its end, it is the
/// record of a whole collection.
pub fn checked_histories_are_records()
    ensures { (image : HeapImage) (v : ScheduleView) → IsValid image → IsHistory v → IsChecked image v true → IsRecord image v.workers v }
{
    moves_of_images();
    settled_histories_have_each_once();
}
