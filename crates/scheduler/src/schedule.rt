ghost use Rattle.std.specs.Prelude.{◌≡◌, ◌<◌, ◌≤◌, ◌↔◌, Some, [], IsTrue, length, slice_get};
ghost use Rattle.scheduler.specs.Schedule.{IsSchedule, is_line};

pub(crate) mod line;
pub(crate) mod packed_line;
mod reply_kind;
pub(crate) mod verb;

use crate::event::Event;
use crate::reply::Reply;
use packed_line::PackedLine;
use std::marker::Model;

/// The most workers that a schedule, a scheduler or a collection can have.
pub const MAX_WORKERS: u32 = 64;

/// A number of workers, 1 to 64, and their calls, oldest first. Each line has a worker below that
/// number and a reply that fits its event, or none.
#[derive(Drop)]
pub struct Schedule {
    workers: u32,
    lines: Vec<PackedLine>,
}

impl Model for Schedule {
    ghost use Rattle.scheduler.specs.Schedule.{ScheduleView, IsSchedule};

    ghost Value = { ScheduleView };

    ghost view = { λ s. record { workers = s.workers; lines = s.lines.items } };

    ghost invariant = { λ s. IsSchedule (record { workers = s.workers; lines = s.lines.items }) };
}

impl Schedule {
    /// Makes a schedule of these lines.
    pub fn of_lines(workers: u32, lines: Vec<PackedLine>) -> Schedule
        requires { IsSchedule (record { workers = workers; lines = lines.items }) }
        ensures { result ≡ record { workers = workers; lines = lines.items } }
    {
        Schedule { workers, lines }
    }

    /// The number of workers.
    pub fn workers(&self) -> u32
        ensures value { result ≡ self.now.workers }
        ensures formed { IsSchedule self.now }
    {
        self.workers
    }

    /// The number of lines, without the header.
    pub fn len(&self) -> usize
        ensures { result ≡ length self.now.lines }
    {
        self.lines.len()
    }

    /// Whether there are no lines.
    pub fn is_empty(&self) -> bool
        ensures { IsTrue result ↔ (self.now.lines ≡ []) }
    {
        self.lines.is_empty()
    }

    /// The worker, the event and the reply of line `i`, counted from 0 after the header. The reply is
    /// `None` if the line leaves it open.
    pub fn line(&self, i: usize) -> (u32, Event, Option<Reply>)
        requires { i < length self.now.lines }
        ensures line { slice_get self.now.lines i ≡ Some (record { worker = result.0; event = result.1; reply = result.2 }) }
        ensures formed { IsTrue (is_line self.now.workers (record { worker = result.0; event = result.1; reply = result.2 })) }
    {
        let line = self.lines[i].line();
        (line.worker, line.event, line.reply)
    }

    /// The lines, oldest first.
    pub fn lines(&self) -> &[PackedLine]
        ensures lines { result.now ≡ self.now.lines }
        ensures formed { IsSchedule self.now }
    {
        &self.lines
    }
}
