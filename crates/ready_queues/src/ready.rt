ghost use Rattle.std.specs.Prelude.{◌≡◌, ◌<◌, ◌++◌, [], ◌∷◌, ◌↔◌, length, true, false, IsTrue, IfOk, IfSome, Contains};
ghost use Rattle.ready_queues.specs.Ready.{Queue};

use crate::own_queue::OwnQueue;
use crate::shared_queue::{SharedQueue, Taker};
use crossbeam_deque::Steal;
use std::alloc::{AllocError, Global};
use std::marker::Model;

/// The numbers of the regions that one worker has found ready, first in first out. The worker pushes and pops; others
/// steal through a [`Thief`].
///
/// Contracts view it as the room and all numbers pushed so far, taken or not.
pub struct Ready {
    queue: AnyQueue,
}

impl Drop for Ready {
    fn drop(self) {
        let Self { queue } = self;
    }
}

/// A queue that others take from, or not.
#[derive(Drop)]
enum AnyQueue {
    Own(OwnQueue),
    Shared(SharedQueue),
}

impl Model for Ready {
    ghost use Rattle.ready_queues.specs.Ready.{Queue};
    ghost use Rattle.ready_queues.specs.ReadyKinds.{view_of};

    ghost Value = { Queue };

    ghost view = { λ q. view_of q.queue };
}

impl Ready {
    /// An empty queue that takes `room` pushes in all, for which it allocates now. Fails if memory runs out.
    pub fn new(alloc: Global, room: usize) -> Result<Ready, AllocError>
        ensures { IfOk result (λ queue. queue ≡ record { room = room; pushed = [] }) }
    {
        let queue = AnyQueue::Shared(SharedQueue::new(alloc, room)?);
        Ok(Ready { queue })
    }

    /// Like [`new`](Ready::new), for a worker that has no others: a [`Thief`] of the queue finds nothing. Pushes and
    /// pops take no atomic steps.
    pub fn unshared(alloc: Global, room: usize) -> Result<Ready, AllocError>
        ensures { IfOk result (λ queue. queue ≡ record { room = room; pushed = [] }) }
    {
        let queue = AnyQueue::Own(OwnQueue::new(alloc, room)?);
        Ok(Ready { queue })
    }

    /// Queues a number and returns true, or returns false and changes nothing if as many numbers as the room were
    /// pushed before. Allocates nothing.
    pub fn push(&mut self, r: u32) -> bool
        ensures room { self.new.room ≡ self.old.room }
        ensures answer { IsTrue result ↔ length self.old.pushed < self.old.room }
        ensures queued { result ≡ true → self.new.pushed ≡ self.old.pushed ++ r ∷ [] }
        ensures refused { result ≡ false → self.new.pushed ≡ self.old.pushed }
    {
        match &mut self.queue {
            AnyQueue::Own(queue) => queue.push(r),
            AnyQueue::Shared(queue) => queue.push(r),
        }
    }

    /// Takes the oldest number that is left, if there is one.
    pub fn pop(&mut self) -> Option<u32>
        ensures same { self.new ≡ self.old }
        ensures pushed { IfSome result (λ r. Contains self.old.pushed r) }
    {
        match &mut self.queue {
            AnyQueue::Own(queue) => queue.pop(),
            AnyQueue::Shared(queue) => queue.pop(),
        }
    }

    /// Takes the oldest number that is left here, or else steals one from the other workers, in turn from the worker
    /// after this one round to the one before it.
    ///
    /// `thieves` has a handle to each worker's queue, by worker number; this worker's own is not used.
    pub fn take(&mut self, thieves: &[Thief], worker: usize) -> Option<u32>
        requires { worker < length thieves.now }
        ensures { self.new ≡ self.old }
    {
        if let Some(r) = self.pop() {
            return Some(r);
        }
        let lower = &thieves[..worker];
        let higher = &thieves[worker + 1..];
        higher
            .iter()
            .chain(lower.iter())
            .find_map(|thief| thief.steal().success())
    }

    /// A handle by which other threads take numbers. Fails if memory runs out.
    pub fn thief(&self) -> Result<Thief, AllocError> {
        let taker = match &self.queue {
            AnyQueue::Own(_) => None,
            AnyQueue::Shared(queue) => Some(queue.taker()?),
        };
        Ok(Thief { taker })
    }
}

/// Takes numbers from another worker's queue, on any thread.
pub struct Thief {
    /// None of a queue that is not shared.
    taker: Option<Taker>,
}

impl Drop for Thief {
    fn drop(self) {
        let Self { taker } = self;
    }
}

impl Thief {
    /// Takes the oldest number that is left. `Empty` means that there was none at some moment; `Retry` means that, or
    /// that another thread took a number meanwhile.
    pub fn steal(&self) -> Steal<u32> {
        match &self.taker {
            Some(taker) => taker.steal(),
            None => Steal::Empty,
        }
    }
}
