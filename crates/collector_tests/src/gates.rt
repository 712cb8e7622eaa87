//! Gates with which tests force an order: they hold a call until another one has come.

mod forced;
mod held;
mod held_recordings;
mod orders;

use collector::Gate;
use std::sync::atomic::{AtomicBool, AtomicU32, Ordering};
use std::thread;

/// How often a held call polls for a call that must come.
pub(crate) const TURNS: u32 = 1_000_000;

/// How often a held call polls for a call that may not come.
pub(crate) const FEW_TURNS: u32 = 10_000;

/// Waits until the flag is set, for at most `turns` polls. Returns whether it is.
pub(crate) fn comes(flag: &AtomicBool, turns: u32) -> bool {
    for _ in 0..turns {
        if flag.load(Ordering::SeqCst) {
            return true;
        }
        thread::yield_now();
    }
    false
}

/// Waits until the count reaches `wanted`, for at most `turns` polls. Returns whether it does.
pub(crate) fn reaches(count: &AtomicU32, wanted: u32, turns: u32) -> bool {
    for _ in 0..turns {
        if count.load(Ordering::SeqCst) >= wanted {
            return true;
        }
        thread::yield_now();
    }
    false
}

/// A call of the gate, for one of three regions.
#[derive(Debug, Clone, Copy, PartialEq, Eq)]
pub(crate) enum Call {
    /// `before_fill` of this region.
    Before(u32),
    /// `after_complete` of this region.
    After(u32),
}

/// All calls of the gate for three regions.
pub(crate) const CALLS: [Call; 6] = [
    Call::Before(0),
    Call::Before(1),
    Call::Before(2),
    Call::After(0),
    Call::After(1),
    Call::After(2),
];

/// Holds two calls, each until another one has come: each pair is the held call and the one it waits for.
#[derive(Drop)]
pub(crate) struct Awaits {
    held: [(Call, Call); 2],
    came_before: [AtomicBool; 3],
    came_after: [AtomicBool; 3],
    waited_in_vain: AtomicBool,
}

fn none_came() -> [AtomicBool; 3] {
    [
        AtomicBool::new(false),
        AtomicBool::new(false),
        AtomicBool::new(false),
    ]
}

impl Awaits {
    /// A gate to which no call has come yet.
    pub(crate) fn new(held: [(Call, Call); 2]) -> Awaits {
        Awaits {
            held,
            came_before: none_came(),
            came_after: none_came(),
            waited_in_vain: AtomicBool::new(false),
        }
    }

    /// Whether each call that was waited for has come.
    pub(crate) fn is_kept(&self) -> bool {
        !self.waited_in_vain.load(Ordering::SeqCst)
    }

    fn flag(&self, call: Call) -> Option<&AtomicBool> {
        match call {
            Call::Before(region) => self.came_before.get(region as usize),
            Call::After(region) => self.came_after.get(region as usize),
        }
    }

    /// Marks a call as come, and holds it if it is one to hold.
    fn enter(&self, call: Call) {
        if let Some(flag) = self.flag(call) {
            flag.store(true, Ordering::SeqCst);
        }
        for (held, other) in &self.held {
            if *held == call && !self.flag(*other).is_some_and(has_come) {
                self.waited_in_vain.store(true, Ordering::SeqCst);
            }
        }
    }
}

fn has_come(flag: &AtomicBool) -> bool {
    comes(flag, TURNS)
}

impl Gate for Awaits {
    ghost may_refuse = { λ _ _ _. ⊥ };

    fn before_fill(&self, _worker: u32, region: u32) -> bool {
        self.enter(Call::Before(region));
        true
    }

    fn after_complete(&self, _worker: u32, region: u32) {
        self.enter(Call::After(region));
    }
}

/// How many turns a worker is held while another one must make progress.
const LONG: u32 = 100_000;

/// Lets other threads run for `LONG` turns.
pub(crate) fn linger() {
    for _ in 0..LONG {
        thread::yield_now();
    }
}

/// Refuses region 0 once another worker has come to fill a region, and holds that worker until long after the refusal.
#[derive(Drop)]
pub(crate) struct RefusesTheFirst {
    other_came: AtomicBool,
    refused: AtomicBool,
    filled: AtomicU32,
}

impl RefusesTheFirst {
    /// A gate to which no worker has come yet.
    pub(crate) fn new() -> RefusesTheFirst {
        RefusesTheFirst {
            other_came: AtomicBool::new(false),
            refused: AtomicBool::new(false),
            filled: AtomicU32::new(0),
        }
    }

    /// Whether a region was refused while another worker was held, and none was filled.
    pub(crate) fn is_kept(&self) -> bool {
        self.refused.load(Ordering::SeqCst) && self.filled.load(Ordering::SeqCst) == 0
    }
}

impl Gate for RefusesTheFirst {
    ghost may_refuse = { λ _ _ _. Unit {0} };

    fn before_fill(&self, _worker: u32, region: u32) -> bool {
        if region == 0 {
            let other_came = has_come(&self.other_came);
            self.refused.store(other_came, Ordering::SeqCst);
            return false;
        }
        self.other_came.store(true, Ordering::SeqCst);
        let is_refused = has_come(&self.refused);
        linger();
        is_refused
    }

    fn after_complete(&self, _worker: u32, _region: u32) {
        self.filled.fetch_add(1, Ordering::SeqCst);
    }
}

/// Holds the first fill that begins until `wanted` calls of the other worker have come.
#[derive(Drop)]
pub(crate) struct FirstHeld {
    begun: AtomicBool,
    calls: AtomicU32,
    wanted: u32,
    counts_begins: bool,
}

impl FirstHeld {
    pub(crate) fn until(wanted: u32, counts_begins: bool) -> FirstHeld {
        FirstHeld {
            begun: AtomicBool::new(false),
            calls: AtomicU32::new(0),
            wanted,
            counts_begins,
        }
    }

    fn count(&self) {
        self.calls.fetch_add(1, Ordering::SeqCst);
    }
}

impl Gate for FirstHeld {
    ghost may_refuse = { λ _ _ _. Unit {0} };

    fn before_fill(&self, _worker: u32, _region: u32) -> bool {
        if self.begun.swap(true, Ordering::SeqCst) {
            if self.counts_begins {
                self.count();
            }
            return true;
        }
        reaches(&self.calls, self.wanted, TURNS)
    }

    fn after_complete(&self, _worker: u32, _region: u32) {
        if !self.counts_begins {
            self.count();
        }
    }
}
