//! Recorded collections in which a gate forces an order of the schedule's lines.
use super::Awaits;
use super::Call::{After, Before};
use super::orders::place_of;
use crate::checks::equal;
use crate::heaps::{Heap, base};
use history::Event;
use std::sync::Wait;
use std::test::Fail;
use std::thread::Threads;

/// Records a collection of this heap by two workers. Returns whether the first line comes before the other, and whether
/// each held call of the gate was released in time.
fn line_order<R: AllocGlobal + Threads + Wait + Sync>(
    heap: Heap<'_>,
    gate: &Awaits,
    (first, other): (Event, Event),
    rt: &R,
) -> Result<(bool, bool), Fail> {
    let schedule = heap.recorded(rt.alloc(), 2, gate, rt)?;
    let is_before = place_of(&schedule, first) < place_of(&schedule, other);
    Ok((is_before, gate.is_kept()))
}

/// Calling `after_complete` after the settling meets the contract, and fails here.
#[test]
fn a_region_is_settled_after_the_gate_is_notified(rt: HostRuntime) -> Result<(), Fail> {
    let gate = Awaits::new([(Before(1), After(0)), (After(0), After(1))]);
    let lines = (Event::Complete(1), Event::Settle(0));
    equal(&rt, line_order(base(2), &gate, lines, &rt)?, (true, true));
    Ok(())
}

/// Calling `before_fill` before the claim meets the contract, and fails here.
#[test]
fn a_region_is_claimed_before_the_gate_is_asked(rt: HostRuntime) -> Result<(), Fail> {
    let gate = Awaits::new([(Before(1), Before(0)), (Before(0), After(1))]);
    let lines = (Event::Claim(0), Event::Complete(1));
    equal(&rt, line_order(base(2), &gate, lines, &rt)?, (true, true));
    Ok(())
}

/// Calling `after_complete` before the fill or before the completion meets the contract, and fails here: region 1 is
/// ready only once region 0 is filled.
#[test]
fn the_gate_is_notified_of_a_region_once_it_is_completed(rt: HostRuntime) -> Result<(), Fail> {
    let gate = Awaits::new([(Before(1), After(0)), (After(0), After(1))]);
    let lines = (Event::Complete(0), Event::Complete(1));
    equal(&rt, line_order(base(0), &gate, lines, &rt)?, (true, true));
    Ok(())
}
