//! The commands that collect, or look at what a collection left: `collect`, `record` and `verify`.
//!
//! Each is a module. Its `answer` takes a parsed request, works on files, and returns what the command prints and the files
//! that are still to be renamed into place ([`command_files::WorkDone`]), or why it failed
//! ([`command_support::Trouble`]). The work itself is a function over any devices, so that its contract can speak of
//! their bytes. `command_line` parses the requests, and `pcompact` prints the results.
//!
//! # What is proved
//!
//! - The contract of `answer`: the text that a command prints, as `specs/NAME.antt` defines it, of some valid image.
//! - `collect` and `record` write the text of the compaction of the image that they read, and `record` that of a
//!   schedule that the word machine allows. `verify` prints what the definitions say of what it read. A fault of the
//!   bytes is the first one.
//! - Nothing here reads out of bounds, overflows or stops the process, and every loop ends.
//!
//! `collect` and `record` may wait, since workers wait for one another, and so no contract says that they return.
//!
//! # What is only tested
//!
//! Which files the commands read and write; that the workers run in threads if the system starts some; the lines that
//! explain a difference, and the times. The tests are those of the program (see the README).
#![tactic(auto)]

pub mod collect;
mod collection;
mod explanation;
mod figures;
mod out_file;
pub mod record;
mod timed_gate;
mod turn_gate;
pub mod verify;

pub use collection::Run;
pub use figures::FiguresLine;
