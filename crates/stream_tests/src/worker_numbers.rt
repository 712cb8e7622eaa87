//! Collections by no workers, or too many, keep the image unchanged.
use crate::checks::equal;
use crate::memory::{image, is_base};
use collector::{OpenGate, Refusal, collect, record};
use heap_image::Fault;
use heap_samples::Base;
use std::alloc::Global;
use std::sync::Wait;
use std::test::Fail;
use std::thread::Threads;

/// Whether a refusal keeps the base heap, and its fault.
fn check_refusal(alloc: Global, refusal: Refusal) -> Result<(bool, Fault), Fail> {
    match refusal {
        Refusal::Kept(image, fault) => Ok((is_base(alloc, Base::WithLiveList, &image)?, fault)),
        Refusal::Lost(_) => Err(Fail::from("not kept")),
    }
}

/// The same for a collection by `workers` workers, which must be refused.
fn collect_by<R: Threads + Wait + Sync>(
    alloc: Global,
    workers: u32,
    rt: &R,
) -> Result<(bool, Fault), Fail> {
    let image = image(alloc, Base::WithLiveList, rt)?;
    match collect(alloc, image, workers, &OpenGate, rt, rt) {
        Err(refusal) => check_refusal(alloc, refusal),
        Ok(_) => Err(Fail::from("not refused")),
    }
}

/// The same for a recorded collection.
fn record_by<R: Threads + Wait + Sync>(
    alloc: Global,
    workers: u32,
    rt: &R,
) -> Result<(bool, Fault), Fail> {
    let image = image(alloc, Base::WithLiveList, rt)?;
    match record(alloc, image, workers, &OpenGate, rt, rt) {
        Err(refusal) => check_refusal(alloc, refusal),
        Ok(_) => Err(Fail::from("not refused")),
    }
}

#[test]
fn no_workers_or_too_many_keep_the_image(rt: HostRuntime) -> Result<(), Fail> {
    for workers in [0, 65] {
        let found = collect_by(rt.alloc(), workers, &rt)?;
        equal(&rt, found, (true, Fault::Workers));
        let found = record_by(rt.alloc(), workers, &rt)?;
        equal(&rt, found, (true, Fault::Workers));
    }
    Ok(())
}
