//! Recorded collections in which a gate holds a worker at each of its calls in turn.
use super::orders::{Fillers, is_of_its_fillers, place_of};
use super::{CALLS, Call, FEW_TURNS, reaches};
use crate::checks::equal;
use crate::heaps::{base, replays};
use collector::Gate;
use history::{Event, Schedule};
use std::alloc::Global;
use std::sync::Wait;
use std::sync::atomic::{AtomicBool, AtomicU32, Ordering};
use std::test::Fail;
use std::thread::Threads;

/// Holds the worker that makes `call` until another call comes, for at most `FEW_TURNS` polls.
#[derive(Drop)]
struct HoldsAt {
    call: Call,
    calls: AtomicU32,
    fillers: Fillers,
    /// For each of three regions, the number of its `before_fill` and of its `after_complete` among all calls.
    begun: [AtomicU32; 3],
    ended: [AtomicU32; 3],
    middle_may_begin: AtomicBool,
    last_came_early: AtomicBool,
}

/// A number that no call has.
const NEVER: u32 = 1_000;

fn never() -> [AtomicU32; 3] {
    [
        AtomicU32::new(NEVER),
        AtomicU32::new(NEVER),
        AtomicU32::new(NEVER),
    ]
}

fn set_number(calls: &[AtomicU32; 3], region: u32, number: u32) {
    if let Some(call) = calls.get(region as usize) {
        call.store(number, Ordering::SeqCst);
    }
}

/// The number of the region's call.
fn number_of(calls: &[AtomicU32; 3], region: u32) -> u32 {
    match calls.get(region as usize) {
        Some(call) => call.load(Ordering::SeqCst),
        None => NEVER,
    }
}

impl HoldsAt {
    fn new(call: Call) -> HoldsAt {
        HoldsAt {
            call,
            calls: AtomicU32::new(0),
            fillers: Fillers::unknown(),
            begun: never(),
            ended: never(),
            middle_may_begin: AtomicBool::new(false),
            last_came_early: AtomicBool::new(false),
        }
    }

    /// Counts a call, and holds it until a later one comes if it is the one to hold. Returns the call's number.
    fn enter(&self, call: Call) -> u32 {
        let number = self.calls.fetch_add(1, Ordering::SeqCst);
        if call == self.call {
            let _ = reaches(&self.calls, number.wrapping_add(2), FEW_TURNS);
        }
        number
    }

    /// Whether `after_complete` of `first` came before `before_fill` of `other`.
    fn completes_before(&self, first: u32, other: u32) -> bool {
        number_of(&self.ended, first) < number_of(&self.begun, other)
    }
}

impl Gate for HoldsAt {
    ghost may_refuse = { λ _ _ _. ⊥ };

    fn before_fill(&self, worker: u32, region: u32) -> bool {
        self.fillers.note(worker, region);
        if region == 2 && !self.middle_may_begin.load(Ordering::SeqCst) {
            self.last_came_early.store(true, Ordering::SeqCst);
        }
        let number = self.enter(Call::Before(region));
        set_number(&self.begun, region, number);
        if region == 1 {
            self.middle_may_begin.store(true, Ordering::SeqCst);
        }
        true
    }

    fn after_complete(&self, _worker: u32, region: u32) {
        let number = self.enter(Call::After(region));
        set_number(&self.ended, region, number);
    }
}

/// Whether the schedule has these completions in the order in which the gate's calls came.
fn agrees_on_two(schedule: &Schedule, gate: &HoldsAt, first: u32, other: u32) -> bool {
    !gate.completes_before(first, other)
        || place_of(schedule, Event::Complete(first)) < place_of(schedule, Event::Complete(other))
}

/// Whether the schedule has all completions in the order in which the gate's calls came.
fn agrees_on_all(schedule: &Schedule, gate: &HoldsAt) -> bool {
    for (first, other) in [(0, 1), (0, 2), (1, 0), (1, 2), (2, 0), (2, 1)] {
        if !agrees_on_two(schedule, gate, first, other) {
            return false;
        }
    }
    true
}

/// Whether a collection under the gate records a schedule that replays and agrees with the gate's calls.
fn records_rightly<R: Threads + Wait + Sync>(
    alloc: Global,
    allowance: u64,
    workers: u32,
    gate: &HoldsAt,
    rt: &R,
) -> Result<bool, Fail> {
    let schedule = base(allowance).recorded(alloc, workers, gate, rt)?;
    let agrees = is_of_its_fillers(&schedule, &gate.fillers) && agrees_on_all(&schedule, gate);
    let is_early = gate.last_came_early.load(Ordering::SeqCst);
    let is_replayed = replays(alloc, base(allowance), &schedule, rt)?;
    Ok(is_replayed && agrees && !is_early)
}

/// The first call at which holding a worker gives a wrong schedule, if any.
fn first_wrong<R: Threads + Wait + Sync>(
    alloc: Global,
    allowance: u64,
    workers: u32,
    rt: &R,
) -> Result<Option<Call>, Fail> {
    for call in CALLS {
        let gate = HoldsAt::new(call);
        if !records_rightly(alloc, allowance, workers, &gate, rt)? {
            return Ok(Some(call));
        }
    }
    Ok(None)
}

#[test]
fn a_worker_held_at_any_point_records_a_schedule_that_replays(rt: HostRuntime) -> Result<(), Fail> {
    for (workers, allowance) in [(2, 0), (2, 2), (3, 0), (3, 2)] {
        equal(&rt, first_wrong(rt.alloc(), allowance, workers, &rt)?, None);
    }
    Ok(())
}
