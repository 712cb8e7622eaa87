//! Printing of schedules.

ghost use Rattle.std.specs.Prelude.{◌≡◌, ◌++◌, IfOk, OnOk, flat_map, take, string_bytes};
ghost use Rattle.history.specs.ScheduleText.{line_text, header_text, schedule_text};

use scheduler::{Line, PackedLine, Schedule};
use std::alloc::{AllocError, Global};

/// Returns the text of a schedule. Fails only if memory runs out.
pub fn write_schedule(alloc: Global, schedule: &Schedule) -> Result<Vec<u8>, AllocError>
    ensures { IfOk result (λ text. text.items ≡ schedule_text schedule.now) }
{
    let mut text = String::new(alloc);
    append_schedule(&mut text, schedule)?;
    Ok(text.into_bytes())
}

/// Appends the text of a schedule. Fails only if memory runs out.
pub fn append_schedule(text: &mut String, schedule: &Schedule) -> Result<(), AllocError>
    ensures { OnOk result (string_bytes text.new ≡ string_bytes text.old ++ schedule_text schedule.now) }
{
    writeln!(text, "schedule 1 {}", schedule.workers())?;
    write_lines(text, schedule.lines())
}

fn write_lines(text: &mut String, lines: &[PackedLine]) -> Result<(), AllocError>
    ensures { OnOk result (string_bytes text.new ≡ string_bytes text.old ++ flat_map line_text lines.now) }
{
    for line in lines {
        write_line(text, line.line())?;
    }
    Ok(())
}

fn write_line(text: &mut String, line: Line) -> Result<(), AllocError>
    ensures { OnOk result (string_bytes text.new ≡ string_bytes text.old ++ line_text line) }
{
    let Line {
        worker,
        event,
        reply,
    } = line;
    match reply {
        Some(reply) => writeln!(text, "{worker} {event} {reply}"),
        None => writeln!(text, "{worker} {event} ?"),
    }
}
