//! Theorem about calls as lines of a schedule.
ghost use Rattle.std.specs.Prelude.{ℕ, ◌<◌, ◌≤◌, IsTrue};
ghost use Rattle.scheduler.specs.MoveTable.{MoveTable, IsMoveTable};
ghost use Rattle.scheduler.specs.State.{State, IsStep};
ghost use Rattle.scheduler.specs.Schedule.{is_line, line_of};
ghost use Rattle.scheduler.specs.PackedLine.{IsSmall};
ghost use Rattle.scheduler.specs.declared.entry.Entry.{Entry};
ghost use Rattle.scheduler.specs.declared.schedule.line.Line.{Line};

/// A call that is a step makes a line that a schedule may have, and each such line fits in 12 bytes.
pub fn calls_are_lines()
    ensures call { (m : MoveTable) (workers : ℕ) (old new : State) (e : Entry) → IsMoveTable m → e.worker < workers
        → IsStep m old e.worker e.event e.reply new → IsTrue (is_line workers (line_of e)) }
    ensures small { (workers : ℕ) (line : Line) → workers ≤ 64 → IsTrue (is_line workers line) → IsSmall line }
{}
