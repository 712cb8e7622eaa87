//! The queues of the workers, and the workers before they begin.
ghost use Rattle.std.specs.Prelude.{◌≡◌, ◌<◌, ◌≤◌, [], All, map, vec_len, IfOk, None, Err};
ghost use Rattle.std.specs.Vec.{vec_capacity};
ghost use Rattle.collector.specs.declared.workers.end.End.TheVariants.{Stopped};

use super::end::End;
use super::worker::Worker;
use claim_board::{Pass, Seat};
use ready_queues::{Ready, Thief};
use std::alloc::{AllocError, Global};
use summary::Plan;
use summary::laws::plans::planned_image_is_valid;
use summary::laws::region_data::regions_to_fill;

/// What the workers need besides a pass each.
#[derive(Drop)]
pub(crate) struct Queues {
    /// One for each worker.
    pub(crate) ready: Vec<Ready>,
    /// A handle to each worker's queue.
    pub(crate) thieves: Vec<Thief>,
    /// Empty, with room for all workers.
    room: Vec<Worker>,
    /// Empty, with room for the passes of all workers, which are collected at the end.
    pub(crate) passes: Vec<Pass>,
    ghost handles: { vec_len thieves ≡ vec_len ready },
    ghost empty: { (room.items ≡ []) × (passes.items ≡ []) },
    ghost roomy: { (vec_len ready ≤ vec_capacity room) × (vec_len ready ≤ vec_capacity passes) },
}

impl Queues {
    /// Makes the queues of this number of workers, and deals the regions to fill that have no pending readers to them in turn.
    ///
    /// Each queue has room for all regions to fill. Fails if memory runs out.
    pub(crate) fn new(alloc: Global, plan: &Plan, workers: u32) -> Result<Queues, AllocError>
        ensures { IfOk result (λ made. vec_len made.ready ≡ workers) }
    {
        let count = workers as usize;
        let mut ready = Vec::with_capacity(alloc, count)?;
        let mut thieves = Vec::with_capacity(alloc, count)?;
        let room = Vec::with_capacity(alloc, count)?;
        let passes = Vec::with_capacity(alloc, count)?;
        for number in 0..count {
            let queue = first_regions(alloc, plan, number, count)?;
            thieves.push(queue.thief()?)?;
            ready.push(queue)?;
        }
        Ok(Queues {
            ready,
            thieves,
            room,
            passes,
        })
    }

    /// A worker for each pass, a handle to each worker's queue, and an empty list with room for the passes.
    pub(crate) fn man(self, mut passes: Vec<Pass>) -> (Vec<Worker>, Vec<Thief>, Vec<Pass>)
        requires all { vec_len passes ≡ vec_len self.ready }
        requires few { vec_len passes ≤ 64 }
        ensures passes { map (λ w. w.seat.pass) result.0.items ≡ passes.items }
        ensures idle { All (λ w. w.result ≡ Err (Stopped None)) result.0.items }
        ensures handles { result.1 ≡ self.thieves }
        ensures empty { result.2.items ≡ [] }
        ensures room { vec_len passes ≤ vec_capacity result.2 }
    {
        let Queues {
            ready: mut queues,
            thieves,
            room: mut workers,
            passes: emptied,
        } = self;
        queues.reverse();
        passes.reverse();
        while let Some(pass) = passes.pop() {
            let Some(ready) = queues.pop() else {
                unreachable!();
            };
            let seat = Seat {
                pass,
                number: workers.len() as u32,
            };
            workers.push_reserved(Worker {
                seat,
                ready,
                lowest: 0,
                result: Err(End::Stopped(None)),
            });
        }
        (workers, thieves, emptied)
    }
}

/// The queue with which worker `number` begins: of the regions to fill that have no pending readers, counted from 0,
/// those whose place is `number` modulo `workers`.
fn first_regions(
    alloc: Global,
    plan: &Plan,
    number: usize,
    workers: usize,
) -> Result<Ready, AllocError>
    requires { number < workers }
{
    regions_to_fill();
    planned_image_is_valid(plan);
    let fill_regions = plan.fill_regions();
    let mut ready = empty_queue(alloc, fill_regions as usize, workers)?;
    let mut place = 0;
    for region in 0..fill_regions {
        if plan.region(region).count > 0 {
            continue;
        }
        if place % workers == number {
            let queued = ready.push(region);
            prove!(queued);
        }
        place += 1;
    }
    Ok(ready)
}

/// An empty queue that takes `room` pushes, without atomic steps if there is one worker.
fn empty_queue(alloc: Global, room: usize, workers: usize) -> Result<Ready, AllocError>
    ensures { IfOk result (λ queue. queue ≡ record { room = room; pushed = [] }) }
{
    if workers == 1 {
        Ready::unshared(alloc, room)
    } else {
        Ready::new(alloc, room)
    }
}
