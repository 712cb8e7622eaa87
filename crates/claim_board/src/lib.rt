//! The board: atomic words by which workers agree, without a lock, on who fills which region.
//!
//! A region of a heap may be overwritten once all words that other regions take from it are copied.
//! A worker claims such a region, opens and drains each of its sources, completes it and settles it.
//! `Board` grants each region once and reports when all are settled. Threads share it by `&Board`; each
//! worker calls it with its own `Pass`.
//!
//! - `Board::claim`, `look`, `drain`, `complete`, `settle` and `poll` make one atomic step each, on one
//!   word, which their contracts name with its operands, and never repeat it. They allocate nothing and
//!   don't wait.
//! - Contracts see a pass as two lists: `seen`, a legal history of the scheduler, and `mine`,
//!   the worker's own calls in it. A call appends one entry to a legal history that begins with `seen`.
//!   `meet` and `finish` join what passes have seen.
//! - `RegionBoard` is a board that keeps the regions as well, and for each pair of the moves the right to
//!   read the source. Its calls make the same atomic steps. A granted claim has the region, with its
//!   original words, and nobody reads it any more; `open` lends the right to read a source, `drain` puts
//!   it back, and `complete` puts the region back with its moved words. So nothing is locked or counted
//!   for a region, and no call finds one in a wrong state. `finish` returns all regions, and `take_back` does
//!   if none was claimed. A pass has one ticket at a time, and a ticket one opening.
//! - A `RegionBoard` that is dropped, also by a `finish` or `take_back` that returns `None`, frees the
//!   regions that have moved, and each unclaimed region none of whose readers is being filled. The others
//!   that are unclaimed stay allocated for good, since what a ticket that was given up held of them
//!   doesn't come back. A claimed region that isn't completed is its claimant's. If any was claimed, so
//!   does the block in which all regions lay, though not their words.
//! - `Ticket`, `Opening`, `Closed`, `Right`, `Written` and `Done` can't be dropped. Each must be spent
//!   by the call that its page names, or given up.
//! - `Desk` is the trait of the calls that a fill makes. `Board` implements it, and so does `Recorder`,
//!   a board under a lock that keeps its calls for a schedule.
//! - The laws have no body; their contracts are theorems for proofs of callers.
//!   `other_calls_leave_tickets`, `other_calls_leave_completions`, `one_more_source_is_drained` and
//!   `swept_tickets_have_none_left` are for a caller that keeps a ticket or a `Done` over several calls,
//!   `other_calls_leave_openings` for one that keeps an opening or a right,
//!   `writers_have_no_pending_readers` is about a right and all destinations,
//!   `no_region_is_read_and_written` about a right and an opening of passes that have met, and
//!   `nothing_is_read_from_a_ticket` about two tickets;
//!   `calls_of_passes_are_gained`, `lowest_claims_of_one_worker_are_granted` and
//!   `other_calls_leave_what_is_held` are about passes of a `RegionBoard`;
//!   `appended_calls_are_gained` leads from a pass to these laws, and `appended_calls_leave_others`
//!   says for one call of a pass what the first two say.
//!
//! `specs/Rule.antt` (`Kept`) defines the rule of the words: at every moment there is one legal history
//! that begins with what every living pass has seen, and each word has the value that this history
//! determines. The table of a board may have slots as well, which hold what the same history says
//! (`specs/Slots.antt`); that of a `Board` has none. All contracts are proved. No contract says that a
//! claim ever succeeds, that memory is freed, how threads take turns, or how long a call takes.
#![tactic(auto)]

mod board;
mod calls;
mod desk;
mod finish;
mod finished;
mod laws;
mod make;
mod meet;
mod pass;
mod regions;
mod rule;
mod tokens;

pub use board::Board;
pub use desk::recorder::Recorder;
pub use desk::{Desk, HasBoard, Seat};
pub use finished::Finished;
pub use laws::{
    appended_calls_are_gained, appended_calls_leave_others, no_region_is_read_and_written,
    nothing_is_read_from_a_ticket, one_more_source_is_drained, other_calls_leave_completions,
    other_calls_leave_openings, other_calls_leave_tickets, swept_tickets_have_none_left,
    writers_have_no_pending_readers,
};
pub use pass::Pass;
pub use regions::laws::{
    calls_of_passes_are_gained, lowest_claims_of_one_worker_are_granted,
    other_calls_leave_what_is_held,
};
pub use regions::making::MovedWords;
pub use regions::region_board::RegionBoard;
pub use regions::region_ticket::RegionTicket;
pub use tokens::closed::Closed;
pub use tokens::done::Done;
pub use tokens::drained::Drained;
pub use tokens::opening::Opening;
pub use tokens::right::Right;
pub use tokens::ticket::Ticket;
pub use tokens::written::Written;
