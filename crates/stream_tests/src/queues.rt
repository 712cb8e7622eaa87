//! The queues of ready regions: what two threads steal, and the order in which a worker tries the queues.
use crate::checks::{equal, holds};
use crossbeam_deque::Steal;
use ready_queues::{Ready, Thief};
use std::alloc::{AllocError, Global};
use std::test::Fail;
use std::thread;
use std::thread::Threads;

/// The numbers that a thread steals in 10,000 tries.
fn steal_many(alloc: Global, thief: &Thief) -> Result<Vec<u32>, AllocError> {
    let mut numbers = Vec::new(alloc);
    for _ in 0..10_000 {
        if let Steal::Success(r) = thief.steal() {
            numbers.push(r)?;
        }
    }
    Ok(numbers)
}

/// A queue of 100 numbers after one pop: whether all pushes succeeded, whether one more did, and the popped number.
fn full_queue(alloc: Global) -> Result<((bool, bool), Option<u32>, Ready), AllocError> {
    let mut ready = Ready::new(alloc, 100)?;
    let mut all = true;
    for r in 0..100 {
        all = ready.push(r) && all;
    }
    let pushed = (all, ready.push(100));
    let popped = ready.pop();
    Ok((pushed, popped, ready))
}

/// The numbers that two threads steal, ascending.
fn steal_by_two(
    alloc: Global,
    threads: &(impl Threads + Sync),
    ready: &Ready,
) -> Result<Vec<u32>, AllocError> {
    let (first, second) = (ready.thief()?, ready.thief()?);
    let (mine, other) = thread::join(
        threads,
        || steal_many(alloc, &first),
        || steal_many(alloc, &second),
    );
    join_sorted(mine?, other?)
}

fn join_sorted(mut all: Vec<u32>, other: Vec<u32>) -> Result<Vec<u32>, AllocError> {
    all.extend_from_slice(other.as_slice())?;
    all.sort()?;
    Ok(all)
}

/// A `steal` that always returns `Empty` meets the contract, and fails here.
#[test]
fn two_threads_steal_each_number_once(rt: HostRuntime) -> Result<(), Fail> {
    let (pushed, popped, mut ready) = full_queue(rt.alloc())?;
    equal(&rt, (pushed, popped), ((true, false), Some(0)));
    let all = steal_by_two(rt.alloc(), &rt, &ready)?;
    holds(&rt, all.iter().copied().eq(1..100));
    equal(&rt, ready.pop(), None);
    Ok(())
}

/// A queue of these numbers.
fn queue_of(alloc: Global, numbers: &[u32]) -> Result<Ready, AllocError> {
    let mut ready = Ready::new(alloc, numbers.len())?;
    for r in numbers {
        let _ = ready.push(*r);
    }
    Ok(ready)
}

/// What worker 1 of three takes in five tries.
fn take_five(
    mut own: Ready,
    (lowest, highest): (&Ready, &Ready),
) -> Result<[Option<u32>; 5], AllocError> {
    let thieves = [lowest.thief()?, own.thief()?, highest.thief()?];
    Ok([
        own.take(&thieves, 1),
        own.take(&thieves, 1),
        own.take(&thieves, 1),
        own.take(&thieves, 1),
        own.take(&thieves, 1),
    ])
}

#[test]
fn a_worker_takes_its_own_first_and_then_the_next_workers(rt: HostRuntime) -> Result<(), Fail> {
    let (lowest, highest) = (queue_of(rt.alloc(), &[4, 5])?, queue_of(rt.alloc(), &[7])?);
    let own = queue_of(rt.alloc(), &[6])?;
    let taken = take_five(own, (&lowest, &highest))?;
    equal(&rt, taken, [Some(6), Some(7), Some(4), Some(5), None]);
    Ok(())
}

/// What comes of a queue that is not shared, with room for two numbers: what three pushes answer, what a thief steals,
/// and what three pops return.
fn unshared_queue(alloc: Global) -> Result<([bool; 3], Option<u32>, [Option<u32>; 3]), AllocError> {
    let mut ready = Ready::unshared(alloc, 2)?;
    let thief = ready.thief()?;
    let pushed = [ready.push(8), ready.push(9), ready.push(10)];
    let stolen = thief.steal().success();
    Ok((pushed, stolen, [ready.pop(), ready.pop(), ready.pop()]))
}

#[test]
fn an_unshared_queue_gives_its_owner_all(rt: HostRuntime) -> Result<(), Fail> {
    let (pushed, stolen, popped) = unshared_queue(rt.alloc())?;
    equal(&rt, pushed, [true, true, false]);
    equal(&rt, stolen, None);
    equal(&rt, popped, [Some(8), Some(9), None]);
    Ok(())
}
