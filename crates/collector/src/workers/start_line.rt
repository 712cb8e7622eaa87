//! The line from which the workers of a collection start.
ghost use Rattle.std.specs.Prelude.{◌≡◌};

use retry_policy::RetryPolicy;
use std::sync::atomic::{AtomicU64, Ordering};
use std::time::Duration;

/// How often a worker looks whether the line is open before it pauses: some microseconds.
const LOOKS: u32 = 10_000;

/// How often it pauses at most, and for how many milliseconds by a policy that waits: a tenth of a second in all.
const PAUSES: u32 = 10;

const PAUSE_MILLISECONDS: u64 = 10;

/// A line at which workers wait until all have arrived, so that none does all the work on a small heap before the others
/// begin.
///
/// The wait is bounded, and after one in vain the line is open to all: if a thread can't be started, workers run one
/// after another.
#[derive(Drop)]
pub(crate) struct StartLine {
    /// How many workers open it.
    awaited: u64,
    /// How many have arrived.
    arrived: AtomicU64,
}

impl StartLine {
    /// A line that is open from the beginning.
    pub(crate) fn open() -> StartLine
        ensures { result.awaited ≡ 0 }
    {
        StartLine::awaiting(0)
    }

    /// A line that opens once this many workers have arrived.
    pub(crate) fn awaiting(workers: u32) -> StartLine
        ensures { result.awaited ≡ workers }
    {
        StartLine {
            awaited: u64::from(workers),
            arrived: AtomicU64::new(0),
        }
    }

    /// Arrives, and waits until the line is open.
    pub(crate) fn pass<W: RetryPolicy>(&self, wait: &W) {
        self.arrived.fetch_add(1, Ordering::SeqCst);
        if self.is_open() {
            return self.arrived.wake_all();
        }
        let pause = Duration::from_millis(PAUSE_MILLISECONDS);
        for _ in 0..PAUSES {
            if self.opens() {
                return;
            }
            let arrived = self.arrived.load(Ordering::SeqCst);
            if self.awaited <= arrived {
                return;
            }
            wait.pause_while(&self.arrived, arrived, pause);
        }
        self.open_to_all();
    }

    /// Opens the line to a worker that has no others beside it.
    pub(crate) fn open_if(&self, is_alone: bool) {
        if is_alone {
            self.open_to_all();
        }
    }

    /// Opens the line, whoever has arrived.
    fn open_to_all(&self) {
        self.arrived.store(self.awaited, Ordering::SeqCst);
        self.arrived.wake_all();
    }

    /// Looks whether it is open, some microseconds long.
    fn opens(&self) -> bool {
        (0..LOOKS).any(|_| self.is_open())
    }

    fn is_open(&self) -> bool {
        self.awaited <= self.arrived.load(Ordering::SeqCst)
    }
}
