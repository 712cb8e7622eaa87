//! The results of calls when memory runs out. The script tests/build/test_crate_allocations.sh runs each of these tests with each
//! allocation refused in turn.
use crate::checks::holds;
use crate::devices::Checked;
use crate::texts::with_prefix;
use collector::{
    Found, OpenGate, Refusal, Verdict, collect, collect_stream, explain, verify, verify_below_top,
};
use heap_image::{Alone, Fault, FromRead, Image, ToWrite, all_processors, decode, encode};
use heap_samples::Base;
use plain_compaction::compact_plainly;
use ready_queues::Ready;
use std::alloc::{AllocError, Global};
use std::sync::Wait;
use std::thread::Threads;

/// A base heap with allowance 2.
pub(crate) fn image(
    alloc: Global,
    base: Base,
    threads: &(impl Threads + Sync),
) -> Result<Image, Fault> {
    let text = base.text(alloc, 2)?;
    decode(alloc, &text, &all_processors(threads))
}

/// Whether the image is this base heap.
pub(crate) fn is_base(alloc: Global, base: Base, image: &Image) -> Result<bool, Fault> {
    let text = base.text(alloc, 2)?;
    Ok(encode(alloc, image)? == text)
}

/// The fault of a refusal that kept this image, or `Ok(false)` if the image isn't this base heap.
pub(crate) fn fault_with_base(
    alloc: Global,
    base: Base,
    image: &Image,
    fault: Fault,
) -> Result<bool, Fault> {
    if is_base(alloc, base, image)? {
        Err(fault)
    } else {
        Ok(false)
    }
}

/// Whether the image is the compaction of this base heap.
pub(crate) fn is_compacted(
    alloc: Global,
    base: Base,
    after: &Image,
    threads: &(impl Threads + Sync),
) -> Result<bool, Fault> {
    let before = image(alloc, base, threads)?;
    Ok(verify(alloc, &before, after, &all_processors(threads))? == Verdict::Same)
}

/// Whether each answer is `Ok(true)` or out of memory, and at least one is `Ok(true)`.
pub(crate) fn are_right(answers: &[Result<bool, Fault>]) -> bool {
    let mut all = answers.iter();
    let is_right = |answer: &Result<bool, Fault>| *answer == Ok(true)
        || *answer == Err(Fault::Memory);
    all.all(is_right) && answers.contains(&Ok(true))
}

/// Whether a collection of the base heap gives its compaction. Its only error is running out of memory, with the image
/// kept.
fn collects<R: Threads + Wait + Sync>(alloc: Global, rt: &R, base: Base) -> Result<bool, Fault> {
    match collect(alloc, image(alloc, base, rt)?, 2, &OpenGate, rt, rt) {
        Ok((outcome, _finished)) => is_compacted(alloc, base, &outcome.image, rt),
        Err(Refusal::Kept(image, fault)) => fault_with_base(alloc, base, &image, fault),
        Err(Refusal::Lost(_)) => Ok(false),
    }
}

#[test]
fn collect_where_refused_memory_is_reported(rt: HostRuntime) {
    let base = Base::WithLiveList;
    let answers = [
        collects(rt.alloc(), &rt, base),
        collects(rt.alloc(), &rt, base),
    ];
    holds(&rt, are_right(&answers));
}

#[test]
fn collect_with_roots_where_refused_memory_is_reported(rt: HostRuntime) {
    let base = Base::WithRoots;
    let answers = [
        collects(rt.alloc(), &rt, base),
        collects(rt.alloc(), &rt, base),
    ];
    holds(&rt, are_right(&answers));
}

/// Whether the text of the base heap's compaction is written. Its only error is running out of memory, with nothing
/// written.
fn streams<R: Threads + Wait + Sync>(alloc: Global, rt: &R, base: Base) -> Result<bool, Fault> {
    let texts = with_prefix(alloc, base, rt)?;
    let mut reader = FromRead::new(texts.before.as_slice());
    let mut writer = ToWrite::new(Checked::against(&texts.after));
    let answer = collect_stream(alloc, &mut reader, &mut writer, 2, &OpenGate, rt, rt);
    let unwritten = writer.into_inner().unwritten();
    match answer {
        Ok(_figures) => Ok(unwritten == Some(0)),
        Err(Fault::Memory) if unwritten == Some(texts.after.len()) => Err(Fault::Memory),
        Err(_) => Ok(false),
    }
}

#[test]
fn stream_where_refused_memory_is_reported(rt: HostRuntime) {
    let base = Base::WithLiveList;
    let answers = [
        streams(rt.alloc(), &rt, base),
        streams(rt.alloc(), &rt, base),
    ];
    holds(&rt, are_right(&answers));
}

#[test]
fn stream_with_roots_where_refused_memory_is_reported(rt: HostRuntime) {
    let base = Base::WithRoots;
    let answers = [
        streams(rt.alloc(), &rt, base),
        streams(rt.alloc(), &rt, base),
    ];
    holds(&rt, are_right(&answers));
}

/// Whether the base heap's compaction verifies as the same, and the base heap itself doesn't.
fn verifies(alloc: Global, threads: &(impl Threads + Sync), base: Base) -> Result<bool, Fault> {
    let before = image(alloc, base, threads)?;
    is_verified(alloc, threads, &before)
}

fn is_verified(
    alloc: Global,
    threads: &(impl Threads + Sync),
    before: &Image,
) -> Result<bool, Fault> {
    let after = compact_plainly(alloc, before)?;
    are_verified(alloc, threads, before, &after)
}

fn are_verified(
    alloc: Global,
    threads: &(impl Threads + Sync),
    before: &Image,
    after: &Image,
) -> Result<bool, Fault> {
    let same = verify(alloc, before, after, &all_processors(threads))?;
    let below = verify_below_top(alloc, before, after, &all_processors(threads))?;
    let other = verify(alloc, before, before, &Alone)?;
    Ok((same, below, other) == (Verdict::Same, Verdict::Same, Verdict::Word(2)))
}

#[test]
fn verify_where_refused_memory_is_reported(rt: HostRuntime) {
    let base = Base::WithLiveList;
    let answers = [
        verifies(rt.alloc(), &rt, base),
        verifies(rt.alloc(), &rt, base),
    ];
    holds(&rt, are_right(&answers));
}

#[test]
fn verify_with_roots_where_refused_memory_is_reported(rt: HostRuntime) {
    let base = Base::WithRoots;
    let answers = [
        verifies(rt.alloc(), &rt, base),
        verifies(rt.alloc(), &rt, base),
    ];
    holds(&rt, are_right(&answers));
}

/// Whether the base heap is explained beside its compaction: 25 words differ, and ten are listed.
fn explains(alloc: Global, threads: &(impl Threads + Sync), base: Base) -> Result<bool, Fault> {
    let before = image(alloc, base, threads)?;
    let heap = before.heap();
    let found = Found {
        heap: &heap,
        live: before.live(),
        roots: before.roots(),
    };
    match explain(alloc, &before, found, false, &all_processors(threads))? {
        Some(explanation) => Ok((explanation.count, explanation.first.len()) == (25, 10)),
        None => Ok(false),
    }
}

#[test]
fn explain_where_refused_memory_is_reported(rt: HostRuntime) {
    let answers = [
        explains(rt.alloc(), &rt, Base::WithLiveList),
        explains(rt.alloc(), &rt, Base::WithRoots),
    ];
    holds(&rt, are_right(&answers));
}

/// Whether a queue accepts as many numbers as its room, and hands them out.
fn queues(alloc: Global) -> Result<bool, AllocError> {
    let mut ready = Ready::new(alloc, 2)?;
    let thief = ready.thief()?;
    let pushed = (ready.push(5), ready.push(6), ready.push(7));
    let taken = (thief.steal().success(), ready.pop(), ready.pop());
    let alone = unshared_queue(alloc)?;
    Ok(alone && (pushed, taken) == ((true, true, false), (Some(5), Some(6), None)))
}

/// Whether a queue that is not shared hands out as many numbers as its room.
fn unshared_queue(alloc: Global) -> Result<bool, AllocError> {
    let mut ready = Ready::unshared(alloc, 1)?;
    let pushed = (ready.push(5), ready.push(6));
    Ok((pushed, ready.pop()) == ((true, false), Some(5)))
}

#[test]
fn queue_where_refused_memory_is_reported(rt: HostRuntime) {
    let answers = [queues(rt.alloc()), queues(rt.alloc())];
    holds(&rt, !answers.contains(&Ok(false)));
    holds(&rt, answers.contains(&Ok(true)));
}
