//! What a thread does when another thread has prevented its step: try again, or give up.
//!
//! [`RetryPolicy`] decides. Each handle that may wait is a policy that never gives up, and [`Tries`] is one that does not
//! wait, for callers without such a handle.
#![tactic(auto)]

ghost use Rattle.std.specs.Prelude.{◌≡◌, ◌≤◌, ◌↔◌, IsTrue, true};

use crossbeam_utils::Backoff;
use std::hint::spin_loop;
use std::sync::Wait;
use std::sync::atomic::AtomicU64;
use std::time::Duration;

/// Decides whether a step that another thread has prevented is tried again.
pub trait RetryPolicy {
    /// Whether to try again after this number of failures. May pause first.
    fn tries_again(&self, failures: u64) -> bool;

    /// Pauses before the next look for what another thread is to do.
    fn back_off(&self, backoff: &Backoff);

    /// Pauses while the word has this value, for at most this time by the clock. It may end sooner.
    fn pause_while(&self, word: &AtomicU64, value: u64, most: Duration);
}

impl<W: Wait> RetryPolicy for W {
    fn tries_again(&self, _failures: u64) -> bool
        ensures { result ≡ true }
    {
        true
    }

    fn back_off(&self, backoff: &Backoff) {
        backoff.snooze();
    }

    fn pause_while(&self, word: &AtomicU64, value: u64, most: Duration) {
        word.park_timeout(self, (value & 0xffff_ffff) as u32, most);
    }
}

/// Gives up after `most` failures. Never waits: a thread that tries again takes its processor's time.
#[derive(Drop, Clone, Copy)]
pub struct Tries {
    /// The largest number of failures after which it tries again.
    pub most: u64,
}

impl RetryPolicy for Tries {
    fn tries_again(&self, failures: u64) -> bool
        ensures { IsTrue result ↔ failures ≤ self.now.most }
    {
        spin_loop();
        failures <= self.most
    }

    fn back_off(&self, backoff: &Backoff) {
        backoff.spin();
    }

    fn pause_while(&self, _word: &AtomicU64, _value: u64, _most: Duration) {
        spin_loop();
    }
}
