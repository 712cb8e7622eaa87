ghost use Rattle.std.specs.Prelude.{◌≡◌, ◌<◌, ◌≤◌, ◌++◌, ◌∷◌, [], ◌↔◌, IsTrue, IfOk, OnErr};
ghost use Rattle.scheduler.specs.State.{Allows, IsStep, AllAreSettled};
ghost use Rattle.scheduler.specs.History.{IsLegal, state_of};
ghost use Rattle.scheduler.specs.Schedule.{schedule_of};

use super::Scheduler;
use super::call_fault::CallFault;
use crate::event::Event;
use crate::laws::moves_are_lawful;
use crate::moves::Moves;
use crate::reply::Reply;
use crate::schedule::Schedule;
use crate::schedule::line::Line;
use crate::schedule::packed_line::PackedLine;
use std::alloc::{AllocError, Global};
use std::marker::Model;

/// A scheduler that records its calls. Contracts see its moves, the number of workers and the list
/// of calls, which is a legal history that leads to the scheduler's state.
pub struct Book {
    scheduler: Scheduler,
    /// The calls, each with its reply.
    lines: Vec<PackedLine>,
}

impl Drop for Book {
    fn drop(self) {
        let Self { scheduler, lines } = self;
    }
}

impl Model for Book {
    ghost use Rattle.scheduler.specs.Book.{BookView, IsKeptBook};
    ghost use Rattle.scheduler.specs.Schedule.{entries_of};

    ghost Value = { BookView };

    ghost view = { λ b. record { workers = b.scheduler.workers; moves = b.scheduler.moves; log = entries_of b.lines.items } };

    ghost invariant = { λ b. IsKeptBook b.scheduler b.lines.items };
}

impl Book {
    /// Makes the book of these moves and 1 to 64 workers, with no calls.
    pub fn new<M: Moves>(alloc: Global, moves: &M, workers: u32) -> Result<Book, AllocError>
        requires { (1 ≤ workers) × (workers ≤ 64) }
        ensures { IfOk result (λ book. book ≡ record { workers = workers; moves = M.table moves.now; log = [] }) }
    {
        moves_are_lawful(moves);
        let scheduler = Scheduler::new(alloc, moves, workers)?;
        let lines = Vec::new(alloc);
        Ok(Book { scheduler, lines })
    }

    /// Makes one call: returns the reply and appends the entry to the list. Fails with `Illegal` if and
    /// only if the present state doesn't allow the event, and with `Memory` if the list can't grow. An
    /// error leaves the book unchanged.
    pub fn apply(&mut self, worker: u32, event: Event) -> Result<Reply, CallFault>
        requires { worker < self.old.workers }
        ensures ok { IfOk result (λ reply. self.new ≡ record self.old { log = self.old.log ++ (record { worker = worker; event = event; reply = reply }) ∷ [] }) }
        ensures step { IfOk result (λ reply. IsStep self.old.moves (state_of self.old.log) worker event reply (state_of self.new.log)) }
        ensures illegal { (result ≡ Err CallFault.Illegal) ↔ ¬ (Allows self.old.moves (state_of self.old.log) worker event) }
        ensures memory { result ≡ Err CallFault.Memory → Allows self.old.moves (state_of self.old.log) worker event }
        ensures unchanged { OnErr result (self.new ≡ self.old) }
        ensures legal { IsLegal self.new.moves self.new.workers self.new.log }
    {
        if !self.scheduler.allows(worker, event) {
            return Err(CallFault::Illegal);
        }
        self.lines.reserve(1)?;
        let reply = self.scheduler.step(worker, event)?;
        self.lines.push(PackedLine::of(Line {
            worker,
            event,
            reply: Some(reply),
        }))?;
        Ok(reply)
    }

    /// The number of workers.
    pub fn workers(&self) -> u32
        ensures { result ≡ self.now.workers }
    {
        self.scheduler.workers()
    }

    /// Whether all regions to be filled are settled. Not recorded as a call.
    pub fn is_done(&self) -> bool
        ensures { IsTrue result ↔ AllAreSettled self.now.moves (state_of self.now.log) }
    {
        self.scheduler.is_done()
    }

    /// The calls as a schedule, each with its reply.
    pub fn into_schedule(self) -> Schedule
        ensures lines { result ≡ schedule_of self.workers self.log }
        ensures legal { IsLegal self.moves self.workers self.log }
    {
        let Book { scheduler, lines } = self;
        Schedule::of_lines(scheduler.workers(), lines)
    }
}
