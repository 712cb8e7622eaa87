//! Theorem about the calls of a schedule that the word machine takes.

ghost use Rattle.std.specs.Prelude.{◌≡◌, ℕ, List, map};
ghost use Rattle.object_heap.specs.HeapImage.{HeapImage};
ghost use Rattle.scheduler.specs.History.{state_of, IsLegal};
ghost use Rattle.scheduler.specs.ImageMoves.{image_table};
ghost use Rattle.scheduler.specs.Schedule.{ScheduleView, line_of};
ghost use Rattle.history.specs.WordMachine.{machine_of};
ghost use Rattle.history.specs.Replay.{AreCallsOf, IsReplay, IsRefusedAt};
ghost use Rattle.scheduler.specs.declared.entry.Entry.{Entry};
ghost use Rattle.scheduler.specs.declared.schedule.line.Line.{Line};

/// The calls of a schedule that the word machine takes are a legal history of the image's moves that
/// leads to the state of the machine's scheduler. The list of calls is unique, and it is the
/// schedule's own if each line has its reply. A schedule that is refused at one line is refused at no
/// other and isn't taken.
pub fn what_replays_keep()
    ensures legal { (image : HeapImage) (workers : ℕ) (lines : List Line) (log : List Entry) → IsReplay image workers lines log → IsLegal (image_table image) workers log }
    ensures state { (image : HeapImage) (log : List Entry) → (machine_of image log).known ≡ state_of log }
    ensures one { (image : HeapImage) (workers : ℕ) (lines : List Line) (log other : List Entry) → IsReplay image workers lines log → IsReplay image workers lines other → log ≡ other }
    ensures refused { (image : HeapImage) (v : ScheduleView) (line : ℕ) (log : List Entry) → IsRefusedAt image v line → ¬ (IsReplay image v.workers v.lines log) }
    ensures once { (image : HeapImage) (v : ScheduleView) (line other : ℕ) → IsRefusedAt image v line → IsRefusedAt image v other → line ≡ other }
    ensures calls { (calls log : List Entry) → AreCallsOf (map line_of calls) log → log ≡ calls }
{}
