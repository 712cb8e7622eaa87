//! A queue that only its owner uses.
ghost use Rattle.std.specs.Prelude.{◌≡◌, ◌<◌, ◌++◌, [], ◌∷◌, ◌↔◌, length, true, false, IsTrue, IfOk, IfSome, Contains};
ghost use Rattle.ready_queues.specs.Ready.{Queue};

use std::alloc::{AllocError, Global};
use std::marker::Model;

/// Numbers in a list, first in first out, without an atomic step.
#[derive(Drop)]
pub struct OwnQueue {
    /// All numbers that were pushed, taken or not.
    numbers: Vec<u32>,
    /// How many of them were taken: the first ones.
    taken: usize,
    room: usize,
}

impl Model for OwnQueue {
    ghost use Rattle.std.specs.Vec.{vec_capacity};
    ghost use Rattle.ready_queues.specs.Ready.{Queue, IsOwnQueue};

    ghost Value = { Queue };

    ghost view = { λ q. record { room = q.room; pushed = q.numbers.items } };

    ghost invariant = { λ q. IsOwnQueue q.room q.taken q.numbers.items (vec_capacity q.numbers) };
}

impl OwnQueue {
    /// An empty queue for `room` pushes in all.
    pub fn new(alloc: Global, room: usize) -> Result<OwnQueue, AllocError>
        ensures { IfOk result (λ queue. queue ≡ record { room = room; pushed = [] }) }
    {
        let numbers = Vec::with_capacity(alloc, room)?;
        Ok(OwnQueue {
            numbers,
            taken: 0,
            room,
        })
    }

    /// As `Ready::push`.
    pub fn push(&mut self, r: u32) -> bool
        ensures room { self.new.room ≡ self.old.room }
        ensures answer { IsTrue result ↔ length self.old.pushed < self.old.room }
        ensures queued { result ≡ true → self.new.pushed ≡ self.old.pushed ++ r ∷ [] }
        ensures refused { result ≡ false → self.new.pushed ≡ self.old.pushed }
    {
        if self.numbers.len() == self.room {
            return false;
        }
        self.numbers.push_reserved(r);
        true
    }

    /// As `Ready::pop`.
    pub fn pop(&mut self) -> Option<u32>
        ensures same { self.new ≡ self.old }
        ensures pushed { IfSome result (λ r. Contains self.old.pushed r) }
    {
        if self.taken == self.numbers.len() {
            return None;
        }
        let oldest = self.numbers[self.taken];
        self.taken += 1;
        Some(oldest)
    }
}
