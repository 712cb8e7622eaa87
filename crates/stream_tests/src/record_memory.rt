//! The results of recorded collections when memory runs out.
use crate::checks::holds;
use crate::memory::{are_right, fault_with_base, image, is_compacted};
use crate::recordings::replays;
use collector::{OpenGate, Outcome, Refusal, record};
use heap_image::Fault;
use heap_samples::Base;
use history::Schedule;
use std::alloc::Global;
use std::sync::Wait;
use std::thread::Threads;

/// Whether a recorded collection of the base heap by two workers gives the right image and schedule, or keeps the
/// unchanged image.
fn records<R: Threads + Wait + Sync>(alloc: Global, rt: &R, base: Base) -> Result<bool, Fault> {
    match record(alloc, image(alloc, base, rt)?, 2, &OpenGate, rt, rt) {
        Ok((outcome, schedule)) => is_right(alloc, rt, base, (&outcome, &schedule)),
        Err(Refusal::Kept(image, fault)) => fault_with_base(alloc, base, &image, fault),
        Err(Refusal::Lost(fault)) => Err(fault),
    }
}

/// Whether the image is the compaction, and the schedule's replay gives it too.
fn is_right(
    alloc: Global,
    threads: &(impl Threads + Sync),
    base: Base,
    (outcome, schedule): (&Outcome, &Schedule),
) -> Result<bool, Fault> {
    let is_compacted = is_compacted(alloc, base, &outcome.image, threads)?;
    let before = image(alloc, base, threads)?;
    Ok(is_compacted && replays(alloc, threads, &before, schedule)?)
}

/// The script tests/build/test_crate_allocations.sh runs this with each allocation refused in turn.
#[test]
fn refused_memory_is_reported(rt: HostRuntime) {
    let base = Base::WithLiveList;
    let answers = [
        records(rt.alloc(), &rt, base),
        records(rt.alloc(), &rt, base),
    ];
    holds(&rt, are_right(&answers));
}

/// The script runs this one too.
#[test]
fn with_roots_refused_memory_is_reported(rt: HostRuntime) {
    let base = Base::WithRoots;
    let answers = [
        records(rt.alloc(), &rt, base),
        records(rt.alloc(), &rt, base),
    ];
    holds(&rt, are_right(&answers));
}
