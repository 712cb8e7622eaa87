ghost use Rattle.std.specs.Prelude.{◌≡◌};
ghost use Rattle.schedule_timeline.specs.TimelineFigures.{AreFiguresOf};

use crate::timeline::Timeline;
use crate::timeline::ending::Ending;
use std::fmt;

/// The figures of a timeline, which it prints in its first line.
#[derive(Debug, Clone, Copy, PartialEq, Eq)]
pub struct TimelineFigures {
    pub workers: u32,
    /// The number of calls: the lines after the header.
    pub lines: usize,
    /// The number of granted regions.
    pub granted: usize,
    /// How many granted regions are completed.
    pub completed: usize,
    /// How many granted regions are settled.
    pub settled: usize,
    /// The number of drains that free their source.
    pub freed: usize,
    /// How many of these sources are granted to a worker.
    pub taken: usize,
    pub ending: Ending,
}

impl TimelineFigures {
    /// Counts the bars and marks of a timeline. It allocates nothing.
    pub fn of(timeline: &Timeline) -> TimelineFigures
        ensures { AreFiguresOf timeline.now result }
    {
        let Timeline {
            schedule,
            bars,
            freeings,
            ending,
        } = timeline;
        TimelineFigures {
            workers: schedule.workers(),
            lines: schedule.len(),
            granted: bars.len(),
            completed: bars.iter().filter(|bar| bar.completed.is_some()).count(),
            settled: bars.iter().filter(|bar| bar.settled.is_some()).count(),
            freed: freeings.len(),
            taken: freeings
                .iter()
                .filter(|freeing| freeing.taken.is_some())
                .count(),
            ending: *ending,
        }
    }
}

impl fmt::Display for TimelineFigures {
    ghost use Rattle.std.specs.Prelude.{Some};
    ghost use Rattle.schedule_timeline.specs.TimelineFigures.{figures_text};

    ghost output = { λ figures. Some (figures_text figures) };

    fn fmt<W: fmt::Write>(&self, f: &mut fmt::Formatter<W>) -> fmt::Result {
        let TimelineFigures {
            workers,
            lines,
            granted,
            completed,
            settled,
            freed,
            taken,
            ending,
        } = *self;
        write!(
            f,
            "workers {workers} lines {lines} granted {granted} completed {completed}"
        )?;
        write!(f, " settled {settled} freed {freed} taken {taken} {ending}")
    }
}
