//! Parsing of a schedule from a device, line by line.
ghost use Rattle.std.specs.Prelude.{◌≡◌, ◌≢◌, ◌≤◌, ◌⊎◌, ◌++◌, ◌||◌, ℕ, List, IsTrue, IfOk, IfErr, IfSome, IfNone, OnOk};
ghost use Rattle.std.specs.Io.KnownBytes.{Consumes, IsAtEnd};
ghost use Rattle.image_streams.specs.Device.{is_io};
ghost use Rattle.image_streams.specs.declared.fault.Fault.{Fault};
ghost use Rattle.history.specs.ReadSchedule.{IsTextSchedule, IsBadHeader, IsMalformedAt, is_text_line};
ghost use Rattle.history.specs.ScheduleText.{header_text, line_text, schedule_text};
ghost use Rattle.history.specs.Window.{IsInRange, rest_of, unread};
ghost use Rattle.scheduler.specs.declared.schedule.line.Line.{Line};

use super::line_text::{header, line};
use super::window::Window;
use heap_image::{Fault, Intake};
use scheduler::{Line, PackedLine, Schedule, calls_are_lines};
use std::alloc::Global;

/// Reads a schedule from a device, with the result that [`read_schedule`](crate::read_schedule) has for all of the
/// device's bytes. The bytes aren't kept.
///
/// Requests more bytes only if those that have come neither hold a whole line nor exceed the length of any line. So the
/// first malformed line decides, whatever follows it. Fault 13 means that the device failed.
pub fn read_schedule_from<R: Intake>(alloc: Global, source: &mut R) -> Result<Schedule, Fault>
    ensures text { IfOk result (λ schedule. Consumes (R.left source.old) (R.left source.new) (schedule_text schedule)) }
    ensures end { OnOk result (IsAtEnd (R.left source.new)) }
    ensures formed { IfOk result IsTextSchedule }
    ensures fault { IfErr result (λ fault. (fault ≡ Fault.Memory) ⊎ (fault ≡ Fault.Io)
        ⊎ ((line : ℕ) × (fault ≡ Fault.Schedule line) × IfSome (R.left source.old) (λ bytes. IsMalformedAt bytes line))) }
    ensures failed { R.has_failed source.new ≡ (is_io result || R.has_failed source.old) }
{
    calls_are_lines();
    let mut window = Window::new();
    let workers = read_header(source, &mut window)?;
    let mut lines = Vec::new(alloc);
    while window.hold_line(source)? {
        let Some(next) = take_line(&mut window, workers) else {
            return Err(Fault::Schedule(lines.len() as u64 + 2));
        };
        lines.push(PackedLine::of(next))?;
    }
    Ok(Schedule::of_lines(workers, lines))
}

/// Reads the first line and returns the number of workers.
fn read_header<R: Intake>(source: &mut R, window: &mut Window) -> Result<u32, Fault>
    requires { IsInRange window.old }
    ensures in_range { OnOk result (IsInRange window.new) }
    ensures few { IfOk result (λ workers. (1 ≤ workers) × (workers ≤ 64)) }
    ensures text { IfOk result (λ workers. Consumes (rest_of window.old (R.left source.old))
        (rest_of window.new (R.left source.new)) (header_text workers)) }
    ensures fault { IfErr result (λ fault. (fault ≡ Fault.Io)
        ⊎ ((fault ≡ Fault.Schedule 1) × IfSome (rest_of window.old (R.left source.old)) (λ bytes. IsBadHeader bytes 1))) }
    ensures failed { R.has_failed source.new ≡ (is_io result || R.has_failed source.old) }
{
    window.hold_line(source)?;
    match header(window.unread()) {
        Some((workers, behind)) => {
            let read = window.unread().len() - behind.len();
            window.pass(read);
            Ok(workers)
        }
        None => Err(Fault::Schedule(1)),
    }
}

/// Parses the line at the front of the window, of a schedule with this number of workers, and skips it.
fn take_line(window: &mut Window, workers: u32) -> Option<Line>
    requires in_range { IsInRange window.old }
    requires few { workers ≤ 64 }
    ensures in_range { IsInRange window.new }
    ensures found { IfSome result (λ line. IsTrue (is_text_line workers line) × (unread window.old ≡ line_text line ++ unread window.new)) }
    ensures none { IfNone result ((line : Line) (rest : List ℕ) → IsTrue (is_text_line workers line) → unread window.old ≢ line_text line ++ rest) }
{
    let (next, behind) = line(workers, window.unread())?;
    let read = window.unread().len() - behind.len();
    window.pass(read);
    Some(next)
}
