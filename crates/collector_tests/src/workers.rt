//! Collections whose gate shows which worker fills what: how many workers run, and how the first regions are dealt.
use crate::checks::{equal, holds};
use crate::gates::Call::Before;
use crate::gates::{Awaits, FirstHeld, TURNS, linger, reaches};
use crate::heaps::{base, compacted_text, dead_between, figures, five_regions, four_regions};
use collector::{Figures, Gate, collect_stream};
use heap_image::{Fault, FromRead, ToWrite};
use heap_samples::Base;
use std::alloc::Global;
use std::sync::Wait;
use std::sync::atomic::{AtomicU32, Ordering};
use std::test::Fail;
use std::thread::Threads;

#[test]
fn two_workers_fill_at_the_same_time(rt: HostRuntime) -> Result<(), Fail> {
    let gate = FirstHeld::until(1, true);
    let found = base(2).collected(rt.alloc(), 2, &gate, &rt)?;
    equal(&rt, found.filled, 3);
    Ok(())
}

#[test]
fn a_worker_steals_what_the_other_leaves(rt: HostRuntime) -> Result<(), Fail> {
    let gate = FirstHeld::until(3, false);
    let found = four_regions(&mut [0; 32]).collected(rt.alloc(), 2, &gate, &rt)?;
    equal(&rt, found, figures(32, 32, 4));
    Ok(())
}

/// Collects the text `before` with two workers, from bytes to bytes. Returns the figures, and whether all of it was
/// read and `after` written.
fn streamed<G: Gate + Sync, R: Threads + Wait + Sync>(
    alloc: Global,
    (before, after): (&[u8], &[u8]),
    gate: &G,
    rt: &R,
) -> Result<(Figures, bool), Fault> {
    let (mut reader, mut writer) = (FromRead::new(before), ToWrite::new(Vec::new(alloc)));
    let figures = collect_stream(alloc, &mut reader, &mut writer, 2, gate, rt, rt)?;
    let is_read = reader.into_inner().is_empty();
    Ok((figures, is_read && writer.into_inner().as_slice() == after))
}

/// A `collect_stream` that collects with one worker meets the contract, and fails here.
#[test]
fn two_workers_of_a_stream_fill_at_the_same_time(rt: HostRuntime) -> Result<(), Fail> {
    let before = Base::WithLiveList.text(rt.alloc(), 2)?;
    let after = compacted_text(rt.alloc(), &before, &rt)?;
    let gate = Awaits::new([(Before(0), Before(1)), (Before(1), Before(0))]);
    let found = streamed(rt.alloc(), (&before, &after), &gate, &rt)?;
    equal(&rt, found, (figures(8, 21, 3), true));
    holds(&rt, gate.is_kept());
    Ok(())
}

/// A number that no worker and no region has.
const NONE: u32 = 64;

/// The workers and the regions of four fills, in the order in which they are noted.
#[derive(Drop)]
struct Fills {
    count: AtomicU32,
    workers: [AtomicU32; 4],
    regions: [AtomicU32; 4],
}

fn none_of_four() -> [AtomicU32; 4] {
    [
        AtomicU32::new(NONE),
        AtomicU32::new(NONE),
        AtomicU32::new(NONE),
        AtomicU32::new(NONE),
    ]
}

fn numbers(noted: &[AtomicU32; 4]) -> [u32; 4] {
    let [first, second, third, fourth] = noted;
    [
        first.load(Ordering::SeqCst),
        second.load(Ordering::SeqCst),
        third.load(Ordering::SeqCst),
        fourth.load(Ordering::SeqCst),
    ]
}

impl Fills {
    fn none() -> Fills {
        Fills {
            count: AtomicU32::new(0),
            workers: none_of_four(),
            regions: none_of_four(),
        }
    }

    /// Whether these are the fills of regions 0 to 3, each by the worker of the same number.
    fn are_each_by_its_own(&self) -> bool {
        let regions = numbers(&self.regions);
        self.count.load(Ordering::SeqCst) == 4
            && numbers(&self.workers) == regions
            && (0..4).all(|region| regions.contains(&region))
    }

    fn note(&self, worker: u32, region: u32) {
        let place = self.count.fetch_add(1, Ordering::SeqCst) as usize;
        if let Some(noted) = self.workers.get(place) {
            noted.store(worker, Ordering::SeqCst);
        }
        if let Some(noted) = self.regions.get(place) {
            noted.store(region, Ordering::SeqCst);
        }
    }
}

/// Holds the first fill until the other worker has filled three regions.
#[derive(Drop)]
struct NotedFirstHeld {
    fills: Fills,
    held: FirstHeld,
}

impl Gate for NotedFirstHeld {
    ghost may_refuse = { λ _ _ _. Unit {0} };

    fn before_fill(&self, worker: u32, region: u32) -> bool {
        self.fills.note(worker, region);
        self.held.before_fill(worker, region)
    }

    fn after_complete(&self, worker: u32, region: u32) {
        self.held.after_complete(worker, region);
    }
}

/// A body that deals all first regions to one queue meets the contract, and fails here.
#[test]
fn the_first_regions_are_dealt_in_turn(rt: HostRuntime) -> Result<(), Fail> {
    let gate = NotedFirstHeld {
        fills: Fills::none(),
        held: FirstHeld::until(3, false),
    };
    let found = four_regions(&mut [0; 32]).collected(rt.alloc(), 2, &gate, &rt)?;
    equal(&rt, found.filled, 4);
    let (workers, regions) = if numbers(&gate.fills.workers)[0] == 0 {
        ([0, 1, 1, 1], [0, 1, 3, 2])
    } else {
        ([1, 0, 0, 0], [1, 0, 2, 3])
    };
    equal(&rt, numbers(&gate.fills.workers), workers);
    equal(&rt, numbers(&gate.fills.regions), regions);
    Ok(())
}

/// Holds each fill until four have begun, and notes which have ended.
#[derive(Drop)]
struct FourMeet {
    begun: Fills,
    ended: Fills,
}

impl Gate for FourMeet {
    ghost may_refuse = { λ _ _ _. Unit {0} };

    fn before_fill(&self, worker: u32, region: u32) -> bool {
        self.begun.note(worker, region);
        reaches(&self.begun.count, 4, TURNS)
    }

    fn after_complete(&self, worker: u32, region: u32) {
        self.ended.note(worker, region);
    }
}

/// A body that runs at most two threads, whatever the number of workers, meets the contract, and fails here. So does
/// one that calls `before_fill` twice, or doesn't call `after_complete` exactly once, with the fill's worker and
/// region.
#[test]
fn four_workers_fill_at_the_same_time(rt: HostRuntime) -> Result<(), Fail> {
    let gate = FourMeet {
        begun: Fills::none(),
        ended: Fills::none(),
    };
    let found = four_regions(&mut [0; 32]).collected(rt.alloc(), 4, &gate, &rt)?;
    equal(&rt, found.filled, 4);
    holds(&rt, gate.begun.are_each_by_its_own());
    holds(&rt, gate.ended.are_each_by_its_own());
    Ok(())
}

/// Holds the first fill for a long time, while nothing else is ready, and each of the next two until the other has
/// begun.
#[derive(Drop)]
struct TwoMeetLater(Awaits);

impl Gate for TwoMeetLater {
    ghost may_refuse = { λ _ _ _. ⊥ };

    fn before_fill(&self, worker: u32, region: u32) -> bool {
        if region == 0 {
            linger();
        }
        self.0.before_fill(worker, region)
    }

    fn after_complete(&self, worker: u32, region: u32) {
        self.0.after_complete(worker, region);
    }
}

/// A body in which a worker ends if it finds nothing to take meets the contract, and fails here.
#[test]
fn a_worker_with_nothing_to_take_waits_for_what_becomes_ready(rt: HostRuntime) -> Result<(), Fail> {
    let gate = TwoMeetLater(Awaits::new([(Before(1), Before(2)), (Before(2), Before(1))]));
    let found = five_regions(&mut [0; 40]).collected(rt.alloc(), 2, &gate, &rt)?;
    equal(&rt, found, figures(0, 24, 3));
    holds(&rt, gate.0.is_kept());
    Ok(())
}

/// Notes the fills, and holds none.
#[derive(Drop)]
struct NotesTheOrder {
    fills: Fills,
}

impl Gate for NotesTheOrder {
    ghost may_refuse = { λ _ _ _. ⊥ };

    fn before_fill(&self, worker: u32, region: u32) -> bool {
        self.fills.note(worker, region);
        true
    }

    fn after_complete(&self, _worker: u32, _region: u32) {}
}

/// A lone worker that takes the regions from a queue meets the contract, and fails here: 0 and 2 are ready at first.
#[test]
fn a_lone_worker_fills_in_ascending_order(rt: HostRuntime) -> Result<(), Fail> {
    let gate = NotesTheOrder {
        fills: Fills::none(),
    };
    dead_between(&mut [0; 32]).collected(rt.alloc(), 1, &gate, &rt)?;
    equal(&rt, numbers(&gate.fills.regions), [0, 1, 2, NONE]);
    Ok(())
}
