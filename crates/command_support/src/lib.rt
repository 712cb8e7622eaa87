//! What all commands of the program use: failures, files to read and lines.
//!
//! **Failures.** A [`Failure`] decides the exit status and the first line on standard error. [`Trouble`] adds the file, the
//! [`Reason`] and a [`Hint`], which follow that line unless `--verbose=never` is given.
//!
//! **Files.** A [`FileWord`] is a file name from the command line, with its role. [`Watched`] is an open file that keeps its
//! first bytes and the last call on it that failed; it can read an image with another head ([`reshape`]). `command_files` opens
//! several, and writes.
//!
//! **Printing.** A [`Screen`] says what standard output can show. [`push_text`] and [`push_number`] append to a line that has
//! its room before anything is written.
//!
//! # What is proved
//!
//! - The exit status of a failure (`status_of` of `specs/Failure.antt`), and which failure comes of which error.
//! - Adding a file, a reason or a hint leaves a failure the same.
//! - Which hint comes of which first bytes (`hint_of` of `specs/Hints.antt`).
//! - Which object comes of which text and of which difference (`specs/Json.antt`).
//! - A system call that fails on a file is fault 13.
//! - An image that is read with a shape has the head with its values, and the same body (`bytes_read` of `specs/Heads.antt`).
//! - Nothing here reads out of bounds, overflows or stops the process, and every loop ends.
//!
//! # What is only tested
//!
//! Which files are opened: no clause is about the content of a file. The texts of reasons. The tests are those of the program
//! (see the README).
#![tactic(auto)]

mod difference;
mod failure;
mod files;
mod json;
mod line;
mod screen;
mod trouble;

pub use difference::Difference;
pub use failure::Failure;
pub use files::content::Content;
pub use files::file_id::FileId;
pub use files::file_word::{FileWord, Role};
pub use files::head::{heads_have_shapes, reshape, unchanged_heads_stay};
pub use files::named_files::NamedFiles;
pub use files::watched::Watched;
pub use files::writing::Writing;
pub use json::push_json;
pub use line::{push_number, push_text};
pub use screen::{Screen, USUAL_WIDTH};
pub use trouble::failed_call::{FailedCall, SystemCall};
pub use trouble::hint::Hint;
pub use trouble::printable::Printable;
pub use trouble::reason::{LineReason, Reason};
pub use trouble::{Trouble, on_file};
