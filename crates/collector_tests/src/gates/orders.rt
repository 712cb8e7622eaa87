//! Recorded collections whose gate holds fills: the schedule names the right worker for each fill, in the forced order.
use super::{TURNS, comes, reaches};
use crate::checks::{equal, holds};
use crate::heaps::base;
use collector::Gate;
use history::{Event, Reply, Schedule};
use std::sync::atomic::{AtomicBool, AtomicU32, Ordering};
use std::test::Fail;

/// For each of three regions, the worker that called the gate.
#[derive(Drop)]
pub(crate) struct Fillers([AtomicU32; 3]);

impl Fillers {
    pub(crate) fn unknown() -> Fillers {
        Fillers([AtomicU32::new(64), AtomicU32::new(64), AtomicU32::new(64)])
    }

    pub(crate) fn note(&self, worker: u32, region: u32) {
        if let Some(filler) = self.0.get(region as usize) {
            filler.store(worker, Ordering::SeqCst);
        }
    }

    /// The worker that called the gate for the region, or 64 if none did.
    fn of(&self, region: u32) -> u32 {
        match self.0.get(region as usize) {
            Some(filler) => filler.load(Ordering::SeqCst),
            None => 64,
        }
    }
}

/// The region that an entry's worker must have been granted.
fn granted_region(event: Event, reply: Option<Reply>) -> Option<u32> {
    match event {
        Event::Claim(region) if reply == Some(Reply::Yes) => Some(region),
        Event::Copy(region, _) | Event::Drain(region, _) => Some(region),
        Event::Complete(region) | Event::Settle(region) => Some(region),
        _ => None,
    }
}

/// Whether each region was granted to the worker that called the gate for it, and moved by no other.
pub(crate) fn is_of_its_fillers(schedule: &Schedule, fillers: &Fillers) -> bool {
    for i in 0..schedule.len() {
        let (worker, event, reply) = schedule.line(i);
        match granted_region(event, reply) {
            Some(region) if fillers.of(region) != worker => return false,
            _ => {}
        }
    }
    true
}

/// The index of the event's first line, or the number of lines.
pub(crate) fn place_of(schedule: &Schedule, event: Event) -> usize {
    for i in 0..schedule.len() {
        if schedule.line(i).1 == event {
            return i;
        }
    }
    schedule.len()
}

/// Holds the fill of region `held` until region `first` is filled, for at most `TURNS` polls.
#[derive(Drop)]
struct Holds {
    held: u32,
    first: u32,
    first_is_filled: AtomicBool,
    fillers: Fillers,
}

impl Gate for Holds {
    ghost may_refuse = { λ _ _ _. Unit {0} };

    fn before_fill(&self, worker: u32, region: u32) -> bool {
        self.fillers.note(worker, region);
        region != self.held || comes(&self.first_is_filled, TURNS)
    }

    fn after_complete(&self, _worker: u32, region: u32) {
        if region == self.first {
            self.first_is_filled.store(true, Ordering::SeqCst);
        }
    }
}

fn holding(held: u32, first: u32) -> Holds {
    Holds {
        held,
        first,
        first_is_filled: AtomicBool::new(false),
        fillers: Fillers::unknown(),
    }
}

/// Whether every copy into the held region comes after the completion of the other.
fn is_in_order(schedule: &Schedule, gate: &Holds) -> bool {
    let mut is_completed = false;
    for i in 0..schedule.len() {
        match schedule.line(i).1 {
            Event::Complete(region) if region == gate.first => is_completed = true,
            Event::Copy(region, _) if region == gate.held && !is_completed => return false,
            _ => {}
        }
    }
    is_completed
}

#[test]
fn the_schedule_has_the_order_that_the_gate_forces(rt: HostRuntime) -> Result<(), Fail> {
    for (held, first) in [(0, 1), (1, 0)] {
        let gate = holding(held, first);
        let schedule = base(2).recorded(rt.alloc(), 2, &gate, &rt)?;
        let is_forced = is_in_order(&schedule, &gate);
        let is_of_fillers = is_of_its_fillers(&schedule, &gate.fillers);
        equal(&rt, (is_forced, is_of_fillers), (true, true));
    }
    Ok(())
}

/// Holds the first fill that begins until another worker begins one, for at most `TURNS` polls.
#[derive(Drop)]
struct Meets {
    begun: AtomicU32,
    fillers: Fillers,
}

impl Gate for Meets {
    ghost may_refuse = { λ _ _ _. Unit {0} };

    fn before_fill(&self, worker: u32, region: u32) -> bool {
        self.fillers.note(worker, region);
        self.begun.fetch_add(1, Ordering::SeqCst);
        reaches(&self.begun, 2, TURNS)
    }

    fn after_complete(&self, _worker: u32, _region: u32) {}
}

#[test]
fn each_of_two_workers_has_its_own_lines(rt: HostRuntime) -> Result<(), Fail> {
    let gate = Meets {
        begun: AtomicU32::new(0),
        fillers: Fillers::unknown(),
    };
    let schedule = base(2).recorded(rt.alloc(), 2, &gate, &rt)?;
    holds(&rt, gate.fillers.of(0) != gate.fillers.of(1));
    holds(&rt, is_of_its_fillers(&schedule, &gate.fillers));
    Ok(())
}
