//! Theorems about the texts of schedules.

ghost use Rattle.std.specs.Prelude.{◌≡◌, ◌≢◌, ℕ, List};
ghost use Rattle.scheduler.specs.Schedule.{ScheduleView};
ghost use Rattle.history.specs.ScheduleText.{schedule_text};
ghost use Rattle.history.specs.ReadSchedule.{IsTextSchedule, IsMalformedAt};

/// Two schedules with the same text are the same.
pub fn one_schedule_a_text()
    ensures { (v u : ScheduleView) → IsTextSchedule v → IsTextSchedule u → schedule_text v ≡ schedule_text u → v ≡ u }
{}

/// A text with a malformed line is not the text of any schedule.
pub fn malformed_is_no_schedule()
    ensures { (bytes : List ℕ) (line : ℕ) → IsMalformedAt bytes line → (v : ScheduleView) → IsTextSchedule v → bytes ≢ schedule_text v }
{}
