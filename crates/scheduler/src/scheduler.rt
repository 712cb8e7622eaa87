ghost use Rattle.std.specs.Prelude.{◌≡◌, ℕ, ◌+◌, ◌<◌, ◌≤◌, ◌↔◌, ◌==◌, length, slice_index_or, count_by, take, IsTrue, IfOk, OnErr, Some, true, false, IfSome, OnSome, IfNone, slice_index};
ghost use Rattle.scheduler.specs.MoveTable.{region_count, to_fill, has_source, readers_of, reads};
ghost use Rattle.scheduler.specs.State.{all_or_more, unsettled, may_claim, opening, readers_left, is_pending, Allows, IsStep, IsFilling, AllAreSettled};
ghost use Rattle.scheduler.specs.Progress.{claimant_of, is_filled, is_settled};
ghost use Rattle.scheduler.specs.Scheduler.{state_in, IsPendingAt, Steps};

pub(crate) mod book;
pub(crate) mod call_fault;
pub(crate) mod locked_board;
mod progress;

use crate::event::{Event, Illegal};
use crate::moves::Moves;
use crate::moves::given_moves::GivenMoves;
use crate::moves::indexed_moves::IndexedMoves;
use crate::moves::tallies::{count_readers, count_sources};
use crate::reply::Reply;
use progress::Progress;
use std::alloc::{AllocError, Global};
use std::marker::Model;

/// The one-thread scheduler, which defines what every other scheduler may do. Contracts see its moves,
/// the number of workers and its state.
pub struct Scheduler {
    workers: u32,
    moves: IndexedMoves,
    /// For each pair of the moves, whether it is drained.
    drained: Vec<bool>,
    /// For each region, the state of its fill.
    progress: Vec<Progress>,
    /// For each region, the number of its pending readers.
    readers_left: Vec<usize>,
    /// For each region, the number of regions that it has still to read.
    sources_left: Vec<usize>,
    /// The number of regions to be filled that aren't settled.
    unsettled: usize,
}

impl Drop for Scheduler {
    fn drop(self) {
        let Self {
            workers,
            moves,
            drained,
            progress,
            readers_left,
            sources_left,
            unsettled,
        } = self;
    }
}

impl Model for Scheduler {
    ghost use Rattle.scheduler.specs.Scheduler.{SchedulerView, IsKept};

    ghost Value = { SchedulerView };

    ghost view = { λ s. record { workers = s.workers; moves = s.moves; flags = s.drained.items; progress = s.progress.items } };

    ghost invariant = { λ s. IsKept (record { workers = s.workers; moves = s.moves; flags = s.drained.items; progress = s.progress.items }) s.readers_left.items s.sources_left.items s.unsettled };
}

impl Scheduler {
    /// Makes the scheduler of these moves and 1 to 64 workers, at its start.
    pub fn new<M: Moves>(alloc: Global, moves: &M, workers: u32) -> Result<Scheduler, AllocError>
        requires { (1 ≤ workers) × (workers ≤ 64) }
        ensures moves { IfOk result (λ scheduler. scheduler.moves ≡ M.table moves.now) }
        ensures opening { IfOk result (λ scheduler. state_in scheduler ≡ opening) }
        ensures workers { IfOk result (λ scheduler. scheduler.workers ≡ workers) }
    {
        let given = GivenMoves::copy_of(alloc, moves)?;
        let regions = given.regions() as usize;
        let drained = vec![in alloc; false; given.pairs().len()]?;
        let progress = vec![in alloc; Progress::Unclaimed; regions]?;
        let readers_left = count_readers(alloc, &given)?;
        let sources_left = count_sources(alloc, &given)?;
        let unsettled = given.fill_count();
        let moves = IndexedMoves::new(alloc, given)?;
        Ok(Scheduler {
            workers,
            moves,
            drained,
            progress,
            readers_left,
            sources_left,
            unsettled,
        })
    }

    /// Makes one step. Returns the reply if the present state allows the event; otherwise returns
    /// `Illegal` and changes nothing. Takes constant time and allocates nothing.
    pub fn step(&mut self, worker: u32, event: Event) -> Result<Reply, Illegal>
        requires { worker < self.old.workers }
        ensures moves { self.new.moves ≡ self.old.moves }
        ensures workers { self.new.workers ≡ self.old.workers }
        ensures ok { IfOk result (λ reply. IsStep self.old.moves (state_in self.old) worker event reply (state_in self.new)) }
        ensures illegal { OnErr result (¬ (Allows self.old.moves (state_in self.old) worker event)) }
        ensures unchanged { OnErr result (self.new ≡ self.old) }
    {
        match event {
            Event::Claim(region) => self.claim(worker, region),
            Event::Look(region) => self.look(worker, region),
            Event::Drain(destination, source) => self.drain(worker, destination, source),
            Event::Complete(destination) => self.complete(worker, destination),
            Event::Settle(destination) => self.settle(worker, destination),
            Event::Poll => self.poll(worker),
            Event::Copy(destination, words) => self.copy(worker, destination, words),
        }
    }

    /// Whether the present state allows the event.
    pub fn allows(&self, worker: u32, event: Event) -> bool
        ensures { IsTrue result ↔ Allows self.now.moves (state_in self.now) worker event }
    {
        match event {
            Event::Claim(region) => region < self.moves.regions(),
            Event::Look(region) => region < self.moves.regions(),
            Event::Drain(destination, source) => self.may_drain(worker, destination, source),
            Event::Complete(destination) => self.may_complete(worker, destination),
            Event::Settle(destination) => self.is_at(destination, Progress::Completed(worker)),
            Event::Poll => true,
            Event::Copy(destination, words) => {
                self.is_at(destination, Progress::Filling(worker)) && words >= 1
            }
        }
    }

    /// The number of workers.
    pub fn workers(&self) -> u32
        ensures { result ≡ self.now.workers }
    {
        self.workers
    }

    /// Whether all regions to be filled are settled.
    pub fn is_done(&self) -> bool
        ensures { IsTrue result ↔ AllAreSettled self.now.moves (state_in self.now) }
    {
        self.unsettled == 0
    }

    fn claim(&mut self, worker: u32, region: u32) -> Result<Reply, Illegal>
        ensures { Steps self.old worker (Event.Claim region) result self.new }
    {
        if region >= self.moves.regions() {
            return Err(Illegal);
        }
        if !self.may_claim(region) {
            return Ok(Reply::No);
        }
        self.progress[region as usize] = Progress::Filling(worker);
        Ok(Reply::Yes)
    }

    fn look(&self, worker: u32, region: u32) -> Result<Reply, Illegal>
        ensures { Steps self.now worker (Event.Look region) result self.now }
    {
        if region >= self.moves.regions() {
            return Err(Illegal);
        }
        let left = self.readers_left_of(region);
        Ok(match self.progress_of(region) {
            Progress::Filling(_) => Reply::Claimed,
            Progress::Completed(_) | Progress::Settled(_) => Reply::Filled,
            Progress::Unclaimed if self.moves.to_fill(region) => Reply::Open(left),
            Progress::Unclaimed => Reply::Outside(left),
        })
    }

    fn drain(&mut self, worker: u32, destination: u32, source: u32) -> Result<Reply, Illegal>
        ensures { Steps self.old worker (Event.Drain destination source) result self.new }
    {
        if !self.is_at(destination, Progress::Filling(worker)) {
            return Err(Illegal);
        }
        let Some(at) = self.pending_place(destination, source) else {
            return Err(Illegal);
        };
        self.drained[at] = true;
        self.sources_left[destination as usize] -= 1;
        let left = self.readers_left[source as usize] - 1;
        self.readers_left[source as usize] = left;
        Ok(if left == 0 {
            Reply::Last
        } else {
            Reply::NotLast
        })
    }

    fn complete(&mut self, worker: u32, destination: u32) -> Result<Reply, Illegal>
        ensures { Steps self.old worker (Event.Complete destination) result self.new }
    {
        if !self.is_at(destination, Progress::Filling(worker))
            || self.sources_left[destination as usize] > 0
        {
            return Err(Illegal);
        }
        self.progress[destination as usize] = Progress::Completed(worker);
        Ok(Reply::Done)
    }

    fn settle(&mut self, worker: u32, destination: u32) -> Result<Reply, Illegal>
        ensures { Steps self.old worker (Event.Settle destination) result self.new }
    {
        if !self.is_at(destination, Progress::Completed(worker)) {
            return Err(Illegal);
        }
        self.progress[destination as usize] = Progress::Settled(worker);
        self.unsettled -= 1;
        Ok(self.all_or_more())
    }

    fn poll(&self, worker: u32) -> Result<Reply, Illegal>
        ensures { Steps self.now worker Event.Poll result self.now }
    {
        Ok(self.all_or_more())
    }

    fn copy(&self, worker: u32, destination: u32, words: u32) -> Result<Reply, Illegal>
        ensures { Steps self.now worker (Event.Copy destination words) result self.now }
    {
        if self.is_at(destination, Progress::Filling(worker)) && words >= 1 {
            Ok(Reply::Done)
        } else {
            Err(Illegal)
        }
    }

    /// The reply to a settling or a poll in the present state.
    fn all_or_more(&self) -> Reply
        ensures { result ≡ all_or_more (unsettled self.now.moves (state_in self.now)) }
    {
        if self.unsettled == 0 {
            Reply::All
        } else {
            Reply::More
        }
    }

    /// The state of the fill of a region. A region out of range counts as unclaimed.
    fn progress_of(&self, region: u32) -> Progress
        ensures { result ≡ slice_index_or self.now.progress region Progress.Unclaimed }
    {
        self.progress
            .get(region as usize)
            .copied()
            .unwrap_or(Progress::Unclaimed)
    }

    fn is_at(&self, region: u32, progress: Progress) -> bool
        ensures { IsTrue result ↔ (slice_index_or self.now.progress region Progress.Unclaimed ≡ progress) }
    {
        self.progress_of(region) == progress
    }

    fn readers_left_of(&self, region: u32) -> u32
        requires { region < region_count self.now.moves }
        ensures { result ≡ readers_left self.now.moves (state_in self.now) region }
    {
        self.readers_left[region as usize] as u32
    }

    /// Whether the region may be claimed in the present state.
    fn may_claim(&self, region: u32) -> bool
        requires { region < region_count self.now.moves }
        ensures { result ≡ may_claim self.now.moves (state_in self.now) region }
    {
        self.moves.to_fill(region)
            && self.is_at(region, Progress::Unclaimed)
            && self.readers_left_of(region) == 0
    }

    fn may_drain(&self, worker: u32, destination: u32, source: u32) -> bool
        ensures { IsTrue result ↔ Allows self.now.moves (state_in self.now) worker (Event.Drain destination source) }
    {
        self.is_at(destination, Progress::Filling(worker))
            && self.pending_place(destination, source).is_some()
    }

    fn may_complete(&self, worker: u32, destination: u32) -> bool
        ensures { IsTrue result ↔ Allows self.now.moves (state_in self.now) worker (Event.Complete destination) }
    {
        self.is_at(destination, Progress::Filling(worker))
            && self.sources_left[destination as usize] == 0
    }

    /// The index of the pair, if it is in the moves and isn't drained.
    fn pending_place(&self, destination: u32, source: u32) -> Option<usize>
        ensures found { IfSome result (λ at. IsPendingAt self.now destination source at) }
        ensures pending { OnSome result (IsTrue (is_pending self.now.moves (state_in self.now) destination source)) }
        ensures none { IfNone result (is_pending self.now.moves (state_in self.now) destination source ≡ false) }
    {
        let at = self.moves.place(destination, source)?;
        if self.drained[at] { None } else { Some(at) }
    }
}
