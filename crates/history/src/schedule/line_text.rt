//! Parsing of a schedule's lines.

ghost use Rattle.std.specs.Prelude.{◌≡◌, ◌≢◌, ◌≤◌, ◌++◌, List, ℕ, IsTrue, MatchOption};
ghost use Rattle.scheduler.specs.Schedule.{is_event};
ghost use Rattle.history.specs.ScheduleText.{line_text, header_text};
ghost use Rattle.history.specs.ReadSchedule.{is_text_line};
ghost use Rattle.scheduler.specs.declared.schedule.line.Line.{Line};

use super::event_text::event;
use super::reading::{number_to, word};
use super::reply_text::parse_reply;
use scheduler::{Event, Line, MAX_WORKERS};

/// Parses the line at the front of `bytes`, of a schedule with this number of workers. Returns it with
/// the bytes after.
pub(crate) fn line(workers: u32, bytes: &[u8]) -> Option<(Line, &[u8])>
    requires { workers ≤ 64 }
    ensures { MatchOption result
        ((line : Line) (rest : List ℕ) → IsTrue (is_text_line workers line) → bytes.now ≢ line_text line ++ rest)
        (λ parts. IsTrue (is_text_line workers parts.0) × (bytes.now ≡ line_text parts.0 ++ parts.1.now)) }
{
    let (worker, after_worker) = number_to(bytes, b' ')?;
    let (event, after_event) = event(after_worker)?;
    let (reply, rest) = word(after_event, b'\n')?;
    let reply = parse_reply(event, reply)?;
    if worker >= workers || !is_event(event) {
        return None;
    }
    let line = Line {
        worker,
        event,
        reply,
    };
    Some((line, rest))
}

/// Whether a schedule may have this event: a copy has at least one word.
fn is_event(event: Event) -> bool
    ensures { result ≡ is_event event }
{
    match event {
        Event::Copy(_, words) => words >= 1,
        _ => true,
    }
}

/// Parses the first line of a schedule. Returns the number of workers with the bytes after.
pub(crate) fn header(bytes: &[u8]) -> Option<(u32, &[u8])>
    ensures { MatchOption result
        ((workers : ℕ) (rest : List ℕ) → 1 ≤ workers → workers ≤ 64 → bytes.now ≢ header_text workers ++ rest)
        (λ parts. (1 ≤ parts.0) × (parts.0 ≤ 64) × (bytes.now ≡ header_text parts.0 ++ parts.1.now)) }
{
    let bytes = bytes.strip_prefix(b"schedule 1 ")?;
    let (workers, rest) = number_to(bytes, b'\n')?;
    if workers >= 1 && workers <= MAX_WORKERS {
        Some((workers, rest))
    } else {
        None
    }
}
