//! The one-thread scheduler, which defines what every other scheduler may do.
//!
//! A sliding collection fills each region from itself and from regions above it. A region may be
//! overwritten only after every other region that takes words from it has copied them. `Moves` says
//! which regions are to be filled and which pairs (destination, source) there are; `Scheduler` replies
//! to the events of the workers, one at a time.
//!
//! - `Moves` is a trait, so that a plan of a real heap can implement it. Contracts see one table of
//!   plain data. `GivenMoves` is a table made of lists, and `IndexedMoves` adds an index for look-ups
//!   in constant time. `summary::Plan` implements `Moves` by the table of its image.
//! - `Scheduler::step` returns the reply and changes the state if the step relation allows the event;
//!   otherwise it returns `Illegal` and changes nothing.
//! - `Book` is a scheduler that records its calls, a legal history that leads to its state.
//!   `LockedBoard` is a book under a lock, for workers in any thread.
//! - `Schedule` is a history in which replies may be left open.
//!
//! The laws have no body; their contracts are theorems, about legal histories of any number of workers
//! and tables of moves.
//!
//! `specs/MoveTable.antt` defines tables of moves, `specs/State.antt` the state and the step,
//! `specs/History.antt` legal histories and their properties, and `specs/Schedule.antt` schedules. The
//! contracts are proved. Only tested: that allocations succeed, and that a call of a `LockedBoard` does
//! what `Book::apply` does.
#![tactic(auto)]

mod call_text;
mod entry;
mod event;
mod laws;
mod moves;
mod reply;
mod schedule;
mod scheduler;

pub use entry::Entry;
pub use event::{Event, Illegal};
pub use laws::going_on::{
    changes_are_counted, freed_regions_are_counted, freed_regions_find_room, legal_histories_go_on,
    lowest_claims_are_granted, lowest_unfilled_regions_are_read, regions_are_freed_once,
    shares_follow_the_state,
};
pub use laws::image_laws::moves_of_images;
pub use laws::line_laws::calls_are_lines;
pub use laws::whole_histories::settled_histories_have_each_once;
pub use laws::{
    how_counts_go_down, legal_histories_are_orderly, moves_are_lawful, pairs_slide_down,
    what_legal_histories_keep, what_own_calls_tell,
};
pub use moves::Moves;
pub use moves::given_moves::GivenMoves;
pub use moves::indexed_moves::{IndexedMoves, first_places};
pub use moves::tallies::{count_readers, count_sources};
pub use reply::Reply;
pub use schedule::line::Line;
pub use schedule::packed_line::PackedLine;
pub use schedule::verb::Verb;
pub use schedule::{MAX_WORKERS, Schedule};
pub use scheduler::Scheduler;
pub use scheduler::book::Book;
pub use scheduler::call_fault::CallFault;
pub use scheduler::locked_board::LockedBoard;
