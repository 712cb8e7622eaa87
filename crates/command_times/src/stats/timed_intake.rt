//! Input devices that note times.
use super::stopwatch::Stopwatch;
use heap_image::{Body, BodySize, Failed, Intake};
use std::alloc::Global;
use std::time::{Clock, Duration};

/// Reads from another device, and notes when.
#[derive(Drop)]
pub struct TimedIntake<'h, H, I: Drop> {
    intake: I,
    clock: &'h H,
    watch: Stopwatch,
    came: Option<Duration>,
    ended: Option<Duration>,
}

impl<'h, H: Clock, I: Drop> TimedIntake<'h, H, I> {
    /// Reads from this device, with times by this stopwatch.
    pub fn new(clock: &'h H, watch: Stopwatch, intake: I) -> TimedIntake<'h, H, I> {
        TimedIntake {
            intake,
            clock,
            watch,
            came: None,
            ended: None,
        }
    }

    /// When the last bytes were read.
    pub fn came(&self) -> Option<Duration> {
        self.came
    }

    /// When the read began that found the end.
    pub fn ended(&self) -> Option<Duration> {
        self.ended
    }

    pub fn into_inner(self) -> I {
        let TimedIntake { intake, .. } = self;
        intake
    }
}

impl<H: Clock, I: Intake + Drop> Intake for TimedIntake<'_, H, I> {
    ghost left = { λ timed. I.left timed.intake };

    ghost has_failed = { λ timed. I.has_failed timed.intake };

    fn take(&mut self, buffer: &mut [u8]) -> Result<usize, Failed> {
        let start = self.watch.elapsed(self.clock);
        let count = self.intake.take(buffer)?;
        if count > 0 {
            self.came = self.watch.elapsed(self.clock);
        } else {
            self.ended = start;
        }
        Ok(count)
    }

    fn failed(&self) -> bool {
        self.intake.failed()
    }

    fn take_body(&mut self, alloc: Global, size: BodySize) -> Option<Body> {
        let body = self.intake.take_body(alloc, size);
        self.came = self.watch.elapsed(self.clock);
        body
    }
}
