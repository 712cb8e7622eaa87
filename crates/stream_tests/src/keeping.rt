//! A recorded collection keeps the image if memory runs out before a worker begins.
use crate::checks::holds;
use crate::memory::{image, is_base};
use collector::{Gate, OpenGate, Refusal, record};
use heap_image::{Fault, Image};
use heap_samples::Base;
use std::alloc::Global;
use std::sync::Wait;
use std::sync::atomic::{AtomicBool, Ordering};
use std::test::Fail;
use std::thread::Threads;

/// Keeps whether a worker has called it.
#[derive(Drop)]
struct WasCalled(AtomicBool);

impl Gate for WasCalled {
    ghost may_refuse = { λ _ _ _. ⊥ };

    fn before_fill(&self, worker: u32, region: u32) -> bool {
        self.0.store(true, Ordering::SeqCst);
        OpenGate.before_fill(worker, region)
    }

    fn after_complete(&self, _worker: u32, _region: u32) {}
}

/// Whether a recorded collection of the base heap by one worker succeeds, keeps the image, or loses it after the worker
/// has called the gate. Fails if it loses the image before.
fn is_kept_or_begun<R: Threads + Wait + Sync>(alloc: Global, rt: &R) -> Result<bool, Fail> {
    match image(alloc, Base::WithLiveList, rt) {
        Ok(image) => succeeds_or_reports(alloc, image, rt),
        Err(_) => Ok(true),
    }
}

fn succeeds_or_reports<R: Threads + Wait + Sync>(
    alloc: Global,
    image: Image,
    rt: &R,
) -> Result<bool, Fail> {
    let gate = WasCalled(AtomicBool::new(false));
    match record(alloc, image, 1, &gate, rt, rt) {
        Ok(_) => Ok(true),
        Err(refusal) => reports_memory(alloc, refusal, gate.0.load(Ordering::SeqCst)),
    }
}

fn reports_memory(alloc: Global, refusal: Refusal, has_begun: bool) -> Result<bool, Fail> {
    match refusal {
        Refusal::Kept(back, Fault::Memory) => Ok(is_base(alloc, Base::WithLiveList, &back)?),
        Refusal::Lost(Fault::Memory) if has_begun => Ok(true),
        Refusal::Lost(Fault::Memory) => Err(Fail::from("lost before the gate was asked")),
        _ => Ok(false),
    }
}

/// The script tests/build/test_crate_allocations.sh runs this with each allocation refused in turn. A line for which memory is
/// refused loses the image only once all regions are filled.
#[test]
fn image_is_kept_where_refused_memory_is_reported(rt: HostRuntime) -> Result<(), Fail> {
    holds(&rt, is_kept_or_begun(rt.alloc(), &rt)?);
    Ok(())
}
