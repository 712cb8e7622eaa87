use collector::Gate;
use command_times::{Phase, PhaseTimes, Stopwatch};
use std::sync::atomic::{AtomicU64, Ordering};
use std::time::{Clock, Duration};

/// The value of `begun` before the first fill.
const NEVER: u64 = u64::MAX;

/// A gate that refuses no fill, and records when the first fill began and when the last one ended.
#[derive(Drop)]
pub struct TimedGate<'h, H> {
    clock: &'h H,
    watch: Stopwatch,
    /// When the first fill began, in nanoseconds.
    begun: AtomicU64,
    /// When the last fill ended, in nanoseconds. 0 before the first.
    ended: AtomicU64,
}

impl<'h, H: Clock> TimedGate<'h, H> {
    /// A gate that takes its times from this stopwatch.
    pub fn new(clock: &'h H, watch: Stopwatch) -> TimedGate<'h, H> {
        TimedGate {
            clock,
            watch,
            begun: AtomicU64::new(NEVER),
            ended: AtomicU64::new(0),
        }
    }

    /// Ends the phases of a collection, which has ended: it was prepared until the first fill, or else until now.
    pub fn end_collection(&self, times: &PhaseTimes<'_, H>) {
        let now = self.watch.elapsed(self.clock);
        times.end_at(Phase::Prepare, self.begun().or(now));
        times.end_at(Phase::Fills, self.ended());
        times.end_at(Phase::CleanUp, now);
    }

    /// When the first fill began. None if no fill has begun.
    fn begun(&self) -> Option<Duration> {
        match self.begun.load(Ordering::Relaxed) {
            NEVER => None,
            nanoseconds => Some(Duration::from_nanos(nanoseconds)),
        }
    }

    /// When the last fill ended. None if no fill has ended.
    fn ended(&self) -> Option<Duration> {
        match self.ended.load(Ordering::Relaxed) {
            0 => None,
            nanoseconds => Some(Duration::from_nanos(nanoseconds)),
        }
    }

    fn nanoseconds(&self) -> Option<u64> {
        u64::try_from(self.watch.elapsed(self.clock)?.as_nanos()).ok()
    }
}

impl<H: Clock> Gate for TimedGate<'_, H> {
    ghost may_refuse = { λ _ _ _. ⊥ };

    fn before_fill(&self, _worker: u32, _region: u32) -> bool {
        if let Some(now) = self.nanoseconds() {
            self.begun.fetch_min(now, Ordering::Relaxed);
        }
        true
    }

    fn after_complete(&self, _worker: u32, _region: u32) {
        if let Some(now) = self.nanoseconds() {
            self.ended.fetch_max(now, Ordering::Relaxed);
        }
    }
}
