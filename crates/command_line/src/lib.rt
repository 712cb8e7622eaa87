//! The command line of `pcompact`: its commands, their arguments and help.
//!
//! [`read`] parses the words after the program's name with the kit's `clap`, and returns a [`Request`]: a command with its
//! arguments, or a text to show. Each command has a file of its own, with its definition as data. `heap_commands` and
//! `collection_commands` carry the commands out.
//!
//! # What is proved
//!
//! - The definitions of the program and its commands, as `clap` sees them, are those of `specs/Commands.antt` (`commands` of
//!   `specs/CommandLine.antt`).
//! - Words that `clap` accepts as a call of a command give the request for that command, and never a text. For the one word
//!   `board` the only error is that memory runs out.
//! - A law beside each command shows that lines such as `collect heap.pcheap out.pcheap --workers 2` are such calls.
//! - Nothing here reads out of bounds, overflows or stops the process, and every loop ends.
//!
//! # What is only tested
//!
//! The arguments in a request: that each name and each number is the one in the words. The texts of help and of usage errors,
//! and which other words are which command.
#![tactic(auto)]

mod arguments;
mod beginning;
mod commands;
mod definition;
mod reading;
mod request;
mod respelled;
mod shape;
mod unread;
mod usage_text;

pub use commands::assemble::{Assemble, lines_call_assemble};
pub use commands::board::line_calls_board;
pub use commands::collect::{Collect, lines_call_collect};
pub use commands::compare::{Compare, lines_call_compare};
pub use commands::generate::{Generate, lines_call_generate};
pub use commands::import::{Import, lines_call_import};
pub use commands::map::{Look, Map, lines_call_map};
pub use commands::order::{Order, lines_call_order};
pub use commands::record::{Record, line_calls_record};
pub use commands::reduce::{Reduce, lines_call_reduce};
pub use commands::replay::{Replay, line_calls_replay};
pub use commands::summary::{Summary, lines_call_summary};
pub use commands::text::{Text, lines_call_text};
pub use commands::timeline::{Timeline, lines_call_timeline};
pub use commands::upgrade::{Upgrade, lines_call_upgrade};
pub use commands::verify::{Verify, line_calls_verify};
pub use reading::read;
pub use request::Request;
pub use respelled::{Respelled, When, lines_call_plainly, progress_in, respell};
pub use shape::Shape;
pub use unread::Unread;
