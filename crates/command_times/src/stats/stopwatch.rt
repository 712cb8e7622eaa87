//! The time since a command began.
use std::time::{Clock, Duration, Instant};

/// Measures the time since a command began, if that is requested and the clock works.
#[derive(Clone, Copy)]
pub struct Stopwatch {
    begun: Option<Instant>,
}

impl Stopwatch {
    /// Starts now. If it isn't requested the clock is never read.
    pub fn start(clock: &impl Clock, is_requested: bool) -> Stopwatch {
        let begun = if is_requested {
            Instant::now(clock).ok()
        } else {
            None
        };
        Stopwatch { begun }
    }

    /// The time since the start.
    pub fn elapsed(self, clock: &impl Clock) -> Option<Duration> {
        self.begun?.elapsed(clock).ok()
    }
}
