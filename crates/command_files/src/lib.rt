//! The files that commands write, and those that they open together.
//!
//! [`FileTarget::find`] looks at a file to write and changes nothing; [`FileTarget::begin_apart`] makes an [`Output`] of it: the
//! emptied file, or a temporary file that is renamed to its path at the end ([`Replacement`]). [`Late`] begins with the first
//! byte.
//! [`WorkDone`] is the outcome of a command before it prints.
//!
//! # What is proved
//!
//! - A call that completes, renames or finishes a new file fails by fault 13 alone.
//! - A command that ends prints the line that it gave.
//! - Nothing here reads out of bounds, overflows or stops the process, and every loop ends.
//!
//! # What is only tested
//!
//! Which files are opened, emptied, made, replaced and removed, and in which order: no clause is about the content of a file.
//! The tests are those of the program (see the README).
#![tactic(auto)]

mod access;
mod file_target;
mod files;
mod image_and_schedule;
mod late;
mod leftovers;
mod opened;
mod output;
mod replacement;
mod system_file;
mod work_done;

pub use file_target::FileTarget;
pub use files::{
    both_ended, different_target, ended, image_and_out, input_and_target, must_differ, not_regular,
    open_again, open_image, other_target, output_must_differ, reject_same_file, same_file,
    target_beside, two_different_inputs, two_inputs,
};
pub use image_and_schedule::ImageAndSchedule;
pub use late::Late;
pub use opened::Opened;
pub use output::Output;
pub use replacement::Replacement;
pub use system_file::{FileLock, SystemFile};
pub use work_done::WorkDone;
