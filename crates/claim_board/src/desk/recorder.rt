//! `Recorder`: a board that keeps regions, and a lock under which each call is written down.
ghost use Rattle.std.specs.Prelude.{◌≡◌};
ghost use Rattle.scheduler.specs.Schedule.{IsHistory};

use crate::regions::region_board::RegionBoard;
use scheduler::{Book, CallFault, Event, Schedule};
use std::sync::Mutex;

/// The calls so far, as long as none was missed.
pub(crate) struct Notes {
    book: Book,
    /// Why a call is missing.
    missing: Option<CallFault>,
}

impl Drop for Notes {
    fn drop(self) {
        let Self { book, missing: _ } = self;
    }
}

impl Notes {
    /// Writes a call down, unless one is missing already.
    pub(crate) fn keep(&mut self, worker: u32, event: Event) {
        if self.missing.is_some() {
            return;
        }
        if worker >= self.book.workers() {
            self.missing = Some(CallFault::Illegal);
            return;
        }
        if let Err(fault) = self.book.apply(worker, event) {
            self.missing = Some(fault);
        }
    }

    /// The calls, and why those after them are missing.
    fn into_schedule(self) -> (Schedule, Option<CallFault>)
        ensures { IsHistory result.0 }
    {
        let Notes { book, missing } = self;
        (book.into_schedule(), missing)
    }
}

/// A board that keeps regions, and a lock under which each call is made and written down with its reply, for a schedule.
/// Threads share it by `&Recorder`.
pub struct Recorder {
    pub(crate) board: RegionBoard,
    pub(crate) notes: Mutex<Notes>,
}

impl Drop for Recorder {
    fn drop(self) {
        let Self { board, notes } = self;
    }
}

impl Recorder {
    /// Records the calls of a board in a book. Both are of the same moves and workers and have no calls: if not, a call is
    /// missing in the end.
    pub fn new(board: RegionBoard, book: Book) -> Recorder
        ensures { result.board ≡ board }
    {
        let notes = Mutex::new(Notes {
            book,
            missing: None,
        });
        Recorder { board, notes }
    }

    /// The board, the calls that are written down, each with its reply, and why those after them are missing, if so:
    /// `Memory` if the list couldn't grow, and `Illegal` if the calls don't make a history.
    pub fn into_parts(self) -> (RegionBoard, Schedule, Option<CallFault>)
        ensures board { result.0 ≡ self.board }
        ensures schedule { IsHistory result.1 }
    {
        let Recorder { board, notes } = self;
        let (schedule, missing) = notes.into_inner().into_schedule();
        (board, schedule, missing)
    }
}
