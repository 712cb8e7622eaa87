//! A queue that other threads take from.
ghost use Rattle.std.specs.Prelude.{◌≡◌, ◌<◌, ◌++◌, [], ◌∷◌, ◌↔◌, length, true, false, IsTrue, IfOk, IfSome, Contains};
ghost use Rattle.ready_queues.specs.Ready.{Queue};

use crossbeam_deque::protocol::{Outcome, Protocol};
use crossbeam_deque::{Steal, Stealer, Worker};
use std::alloc::{AllocError, Global};
use std::collections::LinkedList;
use std::marker::Model;

/// What a pass of the deque knows: whether it is the owner's, and if so, the numbers that were pushed. Used by proofs
/// only.
pub struct Pushed {
    pub owner: bool,
    pub numbers: LinkedList<u32>,
}

/// The protocol that proofs attach to the deque.
struct InOrder;

impl Protocol<u32, Pushed> for InOrder {
    ghost use Rattle.std.specs.Prelude.{true, false, []};
    ghost use Rattle.ready_queues.specs.Ready.{pushed_so_far, HoldsTheRest};

    ghost holds = { HoldsTheRest };

    ghost first = { pushed_so_far [] };

    ghost guest = { record { owner = false; numbers = [] } };
}

struct Push;

impl Outcome<u32, Pushed> for Push {
    ghost then = { λ view numbers next. next ≡ record { owner = view.owner; numbers = view.numbers ++ numbers } };
}

struct Pop;

impl Outcome<u32, Pushed> for Pop {
    ghost use Rattle.std.specs.Prelude.{All, Contains};

    ghost then = { λ view numbers next. (next ≡ view) × All (Contains view.numbers) numbers };
}

struct Take;

impl Outcome<u32, Pushed> for Take {
    ghost then = { λ view _ next. next ≡ view };
}

/// Numbers in a deque, first in first out. Its owner pushes and pops; others steal.
#[derive(Drop)]
pub struct SharedQueue {
    deque: Worker<u32, Global, Pushed, InOrder>,
    room: usize,
    pushed: usize,
}

impl Model for SharedQueue {
    ghost use Rattle.crossbeam_deque.specs.Handles.{worker_view, worker_flavor, worker_capacity, worker_index};
    ghost use Rattle.ready_queues.specs.Ready.{Queue, IsQueue};

    ghost Value = { Queue };

    ghost view = { λ q. record { room = q.room; pushed = (worker_view q.deque).numbers } };

    ghost invariant = { λ q. IsQueue q.room q.pushed (worker_view q.deque) (worker_flavor q.deque)
        (worker_capacity q.deque) (worker_index q.deque) };
}

impl SharedQueue {
    /// An empty queue for `room` pushes in all.
    pub fn new(alloc: Global, room: usize) -> Result<SharedQueue, AllocError>
        ensures { IfOk result (λ queue. queue ≡ record { room = room; pushed = [] }) }
    {
        let deque = Worker::fifo_as(alloc, room)?;
        Ok(SharedQueue {
            deque,
            room,
            pushed: 0,
        })
    }

    /// As `Ready::push`.
    pub fn push(&mut self, r: u32) -> bool
        ensures room { self.new.room ≡ self.old.room }
        ensures answer { IsTrue result ↔ length self.old.pushed < self.old.room }
        ensures queued { result ≡ true → self.new.pushed ≡ self.old.pushed ++ r ∷ [] }
        ensures refused { result ≡ false → self.new.pushed ≡ self.old.pushed }
    {
        if self.pushed == self.room {
            return false;
        }
        match self.deque.push_as::<Push>(r) {
            Ok(()) => {
                self.pushed += 1;
                true
            }
            Err(_) => unreachable!(),
        }
    }

    /// As `Ready::pop`.
    pub fn pop(&mut self) -> Option<u32>
        ensures same { self.new ≡ self.old }
        ensures pushed { IfSome result (λ r. Contains self.old.pushed r) }
    {
        self.deque.pop_as::<Pop>()
    }

    /// A handle by which another thread takes numbers. Fails if memory runs out.
    pub fn taker(&self) -> Result<Taker, AllocError> {
        Ok(Taker {
            deque: self.deque.stealer()?,
        })
    }
}

/// Takes numbers from a queue on any thread.
#[derive(Drop)]
pub struct Taker {
    deque: Stealer<u32, Global, Pushed, InOrder>,
}

impl Taker {
    /// Takes the oldest number that is left, as `Thief::steal`.
    pub fn steal(&self) -> Steal<u32> {
        let mut pass = self.deque.pass();
        self.deque.steal_as::<Take>(&mut pass)
    }
}
