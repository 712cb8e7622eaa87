//! Collections that a gate refuses: the image is lost.
use crate::checks::{equal, holds};
use crate::gates::RefusesTheFirst;
use crate::heaps::base;
use collector::{Gate, OpenGate, Refusal, collect, collect_alone, record};
use heap_image::Fault;
use std::alloc::Global;
use std::sync::Wait;
use std::test::Fail;
use std::thread::Threads;

/// Refuses one region.
#[derive(Drop)]
struct Refuses(u32);

impl Gate for Refuses {
    ghost use Rattle.std.specs.Prelude.{◌≡◌};

    ghost may_refuse = { λ gate _ region. region ≡ gate.0 };

    fn before_fill(&self, _worker: u32, region: u32) -> bool {
        region != self.0
    }

    fn after_complete(&self, _worker: u32, _region: u32) {}
}

/// The fault with which a collection of the base heap by two workers loses the image.
fn loss_fault<G: Gate + Sync, R: Threads + Wait + Sync>(
    alloc: Global,
    allowance: u64,
    gate: &G,
    rt: &R,
) -> Result<Fault, Fail> {
    let image = base(allowance).image(alloc, rt)?;
    match collect(alloc, image, 2, gate, rt, rt) {
        Err(Refusal::Lost(fault)) => Ok(fault),
        _ => Err(Fail::from("not lost")),
    }
}

#[test]
fn a_refused_region_loses_the_image(rt: HostRuntime) -> Result<(), Fail> {
    let fault = loss_fault(rt.alloc(), 0, &Refuses(2), &rt)?;
    equal(&rt, fault, Fault::Gate);
    Ok(())
}

#[test]
fn a_refused_region_loses_an_image_in_one_thread(rt: HostRuntime) -> Result<(), Fail> {
    let image = base(0).image(rt.alloc(), &rt)?;
    match collect_alone(rt.alloc(), image, &Refuses(2)) {
        Err(Refusal::Lost(fault)) => equal(&rt, fault, Fault::Gate),
        _ => return Err(Fail::from("not lost")),
    }
    Ok(())
}

/// A body that doesn't check the stop flag after the gate meets the contract, and fails here.
#[test]
fn a_worker_that_the_gate_held_stops_if_another_was_refused(rt: HostRuntime) -> Result<(), Fail> {
    let gate = RefusesTheFirst::new();
    let fault = loss_fault(rt.alloc(), 2, &gate, &rt)?;
    equal(&rt, fault, Fault::Gate);
    holds(&rt, gate.is_kept());
    Ok(())
}

/// A `record` that reports each loss as out of memory meets the contract, and fails here.
#[test]
fn a_refused_region_ends_a_recorded_collection(rt: HostRuntime) -> Result<(), Fail> {
    let gate = RefusesTheFirst::new();
    let image = base(2).image(rt.alloc(), &rt)?;
    match record(rt.alloc(), image, 2, &gate, &rt, &rt) {
        Err(Refusal::Lost(fault)) => equal(&rt, fault, Fault::Gate),
        _ => return Err(Fail::from("not lost")),
    }
    holds(&rt, gate.is_kept());
    Ok(())
}

#[test]
fn the_open_gate_refuses_nothing() {
    prove!(OpenGate.before_fill(1, 2));
    OpenGate.after_complete(1, 2);
}
