//! When the phases of a command end.
use super::laps::Laps;
use super::stopwatch::Stopwatch;
use crate::phase::Phase;
use std::cell::Cell;
use std::time::{Clock, Duration};

/// The times of a command, whose phases say when they end. The time since the end of the one before counts for a phase.
#[derive(Drop)]
pub struct PhaseTimes<'h, H> {
    clock: &'h H,
    watch: Stopwatch,
    laps: Cell<Laps>,
}

impl<'h, H: Clock> PhaseTimes<'h, H> {
    /// The times of a command that begins now. If they aren't requested the clock is never read.
    pub fn start(clock: &'h H, are_requested: bool) -> PhaseTimes<'h, H> {
        PhaseTimes {
            clock,
            watch: Stopwatch::start(clock, are_requested),
            laps: Cell::new(Laps::new()),
        }
    }

    /// What measures them.
    pub fn watch(&self) -> Stopwatch {
        self.watch
    }

    /// The times so far.
    pub fn laps(&self) -> Laps {
        self.laps.get()
    }

    /// Ends a phase now. One that has ended before went on until now.
    pub fn end(&self, phase: Phase) {
        self.end_at(phase, self.watch.elapsed(self.clock));
    }

    /// Ends a phase at this time since the beginning. If that isn't known, its time counts for the next.
    pub fn end_at(&self, phase: Phase, time: Option<Duration>) {
        self.laps.set(self.laps.get().then(phase, time));
    }
}
