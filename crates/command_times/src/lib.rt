//! How long commands take, and how far they are.
//!
//! [`Stats`] has what `--stats` prints, of [`PhaseTimes`]: the phases of a collection and of a comparison say themselves when
//! they end. An import has devices that note when bytes go through them ([`TimedIntake`], [`TimedOutlet`]). A [`Meter`] has the
//! line that `--progress` shows, of what a [`Gauge`] counts.
//!
//! # What is proved
//!
//! - The text of the line that shows how far a file is (`transfer_text` of `specs/Transfer.antt`).
//! - A timed device has the contract of the device that it wraps.
//! - Nothing here reads out of bounds, overflows or stops the process, and every loop ends.
//!
//! # What is only tested
//!
//! The texts of times, and when progress is shown. The tests are those of the program (see the README).
#![tactic(auto)]

mod meter;
mod phase;
mod stats;

pub use meter::Meter;
pub use meter::gauge::Gauge;
pub use meter::transfer::{Transfer, transfers_have_lines};
pub use phase::Phase;
pub use stats::Stats;
pub use stats::laps::Laps;
pub use stats::live_share::LiveShare;
pub use stats::moved::Moved;
pub use stats::phase_times::PhaseTimes;
pub use stats::stopwatch::Stopwatch;
pub use stats::tenths::Tenths;
pub use stats::timed_intake::TimedIntake;
pub use stats::timed_outlet::TimedOutlet;
