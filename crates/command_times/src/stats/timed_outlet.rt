//! Output devices that note times.
ghost use Rattle.std.specs.Prelude.{◌≡◌};

use super::stopwatch::Stopwatch;
use heap_image::{Failed, Outlet};
use std::time::{Clock, Duration};

/// Writes to another device, and notes when.
#[derive(Drop)]
pub struct TimedOutlet<'h, H, O: Drop> {
    outlet: O,
    clock: &'h H,
    watch: Stopwatch,
    begun: Option<Duration>,
    ended: Option<Duration>,
}

impl<'h, H: Clock, O: Drop> TimedOutlet<'h, H, O> {
    /// Writes to this device, with times by this stopwatch.
    pub fn new(clock: &'h H, watch: Stopwatch, outlet: O) -> TimedOutlet<'h, H, O> {
        TimedOutlet {
            outlet,
            clock,
            watch,
            begun: None,
            ended: None,
        }
    }

    pub fn into_inner(self) -> O
        ensures { result ≡ self.entry.outlet }
    {
        let TimedOutlet { outlet, .. } = self;
        outlet
    }

    /// When the first write began.
    pub fn begun(&self) -> Option<Duration> {
        self.begun
    }

    /// When the last write ended.
    pub fn ended(&self) -> Option<Duration> {
        self.ended
    }
}

impl<H: Clock, O: Outlet + Drop> Outlet for TimedOutlet<'_, H, O> {
    ghost took = { λ timed. O.took timed.outlet };

    ghost has_failed = { λ timed. O.has_failed timed.outlet };

    fn give(&mut self, bytes: &[u8]) -> Result<usize, Failed> {
        if self.begun.is_none() {
            self.begun = self.watch.elapsed(self.clock);
        }
        let count = self.outlet.give(bytes)?;
        self.ended = self.watch.elapsed(self.clock);
        Ok(count)
    }

    fn failed(&self) -> bool {
        self.outlet.failed()
    }

    fn leave_out_zeros(&mut self, count: usize) -> bool {
        self.outlet.leave_out_zeros(count)
    }
}
