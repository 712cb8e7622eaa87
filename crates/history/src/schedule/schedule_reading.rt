//! Parsing of a schedule.

ghost use Rattle.std.specs.Prelude.{◌≡◌, ◌⊎◌, ℕ, IfOk, IfErr};
ghost use Rattle.image_streams.specs.declared.fault.Fault.{Fault};
ghost use Rattle.history.specs.ScheduleText.{schedule_text};
ghost use Rattle.history.specs.ReadSchedule.{IsTextSchedule, IsMalformedAt};

use super::line_text::{header, line};
use heap_image::Fault;
use scheduler::{PackedLine, Schedule, calls_are_lines};
use std::alloc::Global;

/// Parses a schedule. Fault 14 names the first malformed line, counted from 1, where line 1 is the
/// header; fault 11 means out of memory.
pub fn read_schedule(alloc: Global, bytes: &[u8]) -> Result<Schedule, Fault>
    ensures ok { IfOk result (λ schedule. bytes.now ≡ schedule_text schedule) }
    ensures formed { IfOk result IsTextSchedule }
    ensures fault { IfErr result (λ fault. (fault ≡ Fault.Memory) ⊎ ((line : ℕ) × (fault ≡ Fault.Schedule line) × IsMalformedAt bytes.now line)) }
{
    calls_are_lines();
    let Some((workers, behind_header)) = header(bytes) else {
        return Err(Fault::Schedule(1));
    };
    let mut lines = Vec::new(alloc);
    let mut rest = behind_header;
    while !rest.is_empty() {
        let Some((next, behind)) = line(workers, rest) else {
            return Err(Fault::Schedule(lines.len() as u64 + 2));
        };
        lines.push(PackedLine::of(next))?;
        rest = behind;
    }
    Ok(Schedule::of_lines(workers, lines))
}
