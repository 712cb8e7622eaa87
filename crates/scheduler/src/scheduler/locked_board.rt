ghost use Rattle.std.specs.Prelude.{◌≡◌, ◌<◌, ◌≤◌, IfOk};
ghost use Rattle.scheduler.specs.Schedule.{IsHistory};

use super::book::Book;
use super::call_fault::CallFault;
use crate::event::Event;
use crate::moves::Moves;
use crate::reply::Reply;
use crate::schedule::Schedule;
use std::alloc::{AllocError, Global};
use std::sync::{Mutex, Wait};

/// A book under a lock, for workers in any thread. Its list of calls is legal at every moment, by its
/// type. No contract can say how a call changes a value under a lock; tests show that `call` does what
/// `Book::apply` does.
#[derive(Drop)]
pub struct LockedBoard {
    book: Mutex<Book>,
}

impl LockedBoard {
    /// Makes the board of these moves and 1 to 64 workers, with no calls.
    pub fn new<M: Moves>(alloc: Global, moves: &M, workers: u32) -> Result<LockedBoard, AllocError>
        requires { (1 ≤ workers) × (workers ≤ 64) }
    {
        let book = Book::new(alloc, moves, workers)?;
        Ok(LockedBoard {
            book: Mutex::new(book),
        })
    }

    /// Takes the lock and calls `Book::apply`. Fails with `Illegal` if the event isn't allowed or there
    /// is no such worker, and with `Memory` if the list can't grow. An error leaves the board unchanged.
    pub fn call(&self, worker: u32, event: Event, wait: &impl Wait) -> Result<Reply, CallFault> {
        let mut book = self.book.lock(wait);
        if worker >= book.workers() {
            return Err(CallFault::Illegal);
        }
        book.apply(worker, event)
    }

    /// Whether all regions to be filled are settled. Not recorded as a call.
    pub fn done(&self, wait: &impl Wait) -> bool {
        self.book.lock(wait).is_done()
    }

    /// All calls so far, each with its reply.
    pub fn into_schedule(self) -> Schedule
        ensures { IsHistory result }
    {
        let LockedBoard { book } = self;
        book.into_inner().into_schedule()
    }
}
