//! Two workers sweep once over three regions and agree, by one board, on who fills which.
//!
//! [`sweep_with_two_workers`] makes a board of `claim_board` over three regions to be filled. Each
//! worker claims every region in turn and fills those that it is granted: it drains their sources,
//! completes and settles them. The result is the text that the command `board` prints.
//! [`steps_of_two_workers`] makes the lines that `--steps` adds.
//!
//! # What is proved
//!
//! - The text is the report of a legal history: a list of calls of two workers that the scheduler's
//!   definition allows, over the moves of the three regions. Each count is the number of such calls
//!   in that history, and `all settled` is in the text if and only if no region is left unsettled.
//! - No call reads out of bounds, overflows or stops the process. The only error is a failed
//!   allocation.
//!
//! # What is only tested
//!
//! That each region is claimed and completed once, and that all are settled; the lines of `--steps`.
//! No test shows that the workers run in threads.
#![tactic(auto)]

mod report;
mod steps;
mod sweeper;
mod tally;
mod two_workers;

pub use steps::steps_of_two_workers;
pub use two_workers::sweep_with_two_workers;
