//! The durations of a command's phases.
use super::tenths::Tenths;
use crate::phase::{PHASES, Phase};
use std::io::Write;
use std::time::Duration;
use std::{fmt, io};

/// How long each phase of a command took.
#[derive(Clone, Copy)]
pub struct Laps {
    /// By the number of the phase. None for a phase that hasn't ended.
    took: [Option<Duration>; PHASES.len()],
    /// The end of the last phase, since the command began.
    end: Duration,
}

impl Laps {
    /// No phase has ended yet.
    pub fn new() -> Laps {
        Laps {
            took: [None; PHASES.len()],
            end: Duration::ZERO,
        }
    }

    /// This phase too, which ended at this time since the beginning, or went on until then. A phase whose end isn't known is
    /// left out, and its time counts for the next.
    pub fn then(mut self, phase: Phase, end: Option<Duration>) -> Laps {
        if let Some(end) = end {
            let more = end.saturating_sub(self.end);
            let before = self.took(phase).unwrap_or(Duration::ZERO);
            self.took[phase as usize] = Some(before.saturating_add(more));
            self.end = end.max(self.end);
        }
        self
    }

    /// How long this phase took, if it has ended.
    fn took(&self, phase: Phase) -> Option<Duration> {
        self.took[phase as usize]
    }

    /// How long a collection took in memory: to prepare, to fill and to clean up. None if its beginning or its end isn't known.
    pub fn in_memory(&self) -> Option<Duration> {
        self.took(Phase::Check)?;
        let clean_up = self.took(Phase::CleanUp)?;
        let prepare = self.took(Phase::Prepare).unwrap_or(Duration::ZERO);
        let fills = self.took(Phase::Fills).unwrap_or(Duration::ZERO);
        Some(prepare.saturating_add(fills).saturating_add(clean_up))
    }

    /// Writes a line for each phase, and where the time of all is known one for the rest of it, and one for all of it.
    pub fn print<B: Write>(&self, total: Option<Duration>, err: &mut B) -> io::Result<()> {
        for phase in PHASES {
            if let Some(took) = self.took(phase) {
                print_time(phase, took, err)?;
            }
        }
        if let Some(total) = total {
            print_time("finish", total.saturating_sub(self.end), err)?;
            print_time("total", total, err)?;
        }
        Ok(())
    }
}

/// Writes the line of a time.
fn print_time<D: fmt::Display + Drop, B: Write>(
    name: D,
    time: Duration,
    err: &mut B,
) -> io::Result<()> {
    let time = Tenths::of_milliseconds(time);
    writeln!(err, "pcompact: {name} {time} ms")
}
