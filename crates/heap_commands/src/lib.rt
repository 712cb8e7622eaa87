//! The commands that don't run a collection. This crate doesn't depend on the collector, and is proved beside it.
//!
//! Each command is a module. Its `answer` takes a parsed request, works on files, and returns what the command prints
//! and the files that are still to be renamed into place ([`command_files::WorkDone`]), or why it failed
//! ([`command_support::Trouble`]). The work itself is a function over any devices, so that its contract can speak of
//! their bytes. `command_line` parses the requests, and `pcompact` prints the results.
//!
//! # What is proved
//!
//! - The contract of `answer`: the text that a command prints, as `specs/NAME.antt` defines it, of some valid image.
//! - The contract of the function over devices: that image, or schedule, is the one whose text was read.
//! - Nothing here reads out of bounds, overflows or stops the process, and every loop ends.
//!
//! # What is only tested
//!
//! Which files the commands read and write. The tests are those of the program (see the README).
#![tactic(auto)]

pub mod assemble;
pub mod board;
pub mod compare;
pub mod generate;
pub mod import;
pub mod map;
pub mod order;
pub mod reduce;
pub mod replay;
mod shared;
pub mod summarize;
pub mod text;
pub mod timeline;
pub mod upgrade;

pub use import::{histogram, object_list};
