//! How far the reading or writing of one file is.
use super::Meter;
use super::transfer::Transfer;
use crate::phase::Phase;
use std::sync::atomic::{AtomicBool, AtomicU64, Ordering};

/// After how many bytes the clock is read again.
const STEP: u64 = 1 << 20;

/// Counts the bytes that are read from a file or written to it, and shows them on a meter.
#[derive(Drop)]
pub struct Gauge<'m> {
    meter: &'m Meter,
    phase: Phase,
    /// Whether a file is read for the second time.
    is_again: AtomicBool,
    /// The length of the file, or 0 if it isn't known.
    whole: AtomicU64,
    /// The number of bytes that are read or written.
    done: AtomicU64,
    /// When the first of them were, in milliseconds since the meter's start.
    begun: AtomicU64,
}

impl<'m> Gauge<'m> {
    /// A gauge before the first byte. A length of 0 isn't known.
    pub(crate) fn new(meter: &'m Meter, phase: Phase, whole: u64) -> Gauge<'m> {
        Gauge {
            meter,
            phase,
            is_again: AtomicBool::new(false),
            whole: AtomicU64::new(whole),
            done: AtomicU64::new(0),
            begun: AtomicU64::new(0),
        }
    }

    /// Notes that the file is read for the second time.
    pub fn read_again(&self) {
        self.is_again.store(true, Ordering::Relaxed);
    }

    /// Expects this length of the file, or 0 if it isn't known.
    pub fn expect_len(&self, len: u64) {
        self.whole.store(len, Ordering::Relaxed);
    }

    /// Counts bytes that were read or written. A line may be shown with the first ones, and with the last ones of each MiB.
    pub fn count(&self, bytes: usize) {
        if bytes == 0 {
            return;
        }
        let before = self.done.fetch_add(bytes as u64, Ordering::Relaxed);
        let done = before.saturating_add(bytes as u64);
        if before == 0 {
            if let Some(now) = self.meter.now() {
                self.begun.store(now, Ordering::Relaxed);
                self.meter.begin(now, self.transfer(done, now));
            }
        } else if before / STEP != done / STEP {
            if let Some(now) = self.meter.turn() {
                self.meter.show(self.transfer(done, now));
            }
        }
    }

    /// Notes that the position in the file is this one now.
    pub fn move_to(&self, position: u64) {
        self.done.store(position, Ordering::Relaxed);
    }

    /// Notes that all of the file was read. What follows is done in memory.
    pub fn end(&self) {
        if self.done.swap(0, Ordering::Relaxed) > 0 {
            if let Some(now) = self.meter.now() {
                self.meter.begin(now, "work in memory");
            }
        }
    }

    /// How far the file is at this time.
    fn transfer(&self, done: u64, now: u64) -> Transfer {
        let whole = self.whole.load(Ordering::Relaxed);
        Transfer {
            phase: if self.is_again.load(Ordering::Relaxed) {
                Phase::ReadAgain
            } else {
                self.phase
            },
            done,
            whole: if whole == 0 { None } else { Some(whole) },
            took: now.saturating_sub(self.begun.load(Ordering::Relaxed)),
        }
    }
}
