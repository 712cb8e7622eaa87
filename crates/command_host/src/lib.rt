//! The system that commands run on: its files, threads and clock, and what they print to.
//!
//! A [`Host`] opens files as the system does, but writes standard output through the one [`StandardOutput`], and shows on a
//! meter what is read and written. [`Printer`] and [`Errors`] are where commands print. An [`ImageFile`] reads a large image
//! by several threads side by side.
//!
//! # What is proved
//!
//! - An image's file never gives more bytes than requested, and after a failed read it gives none.
//! - Nothing here reads out of bounds, overflows or stops the process, and every loop ends.
//!
//! # What is only tested
//!
//! Everything about the bytes of files, as contracts know none: the tests are those of the program (see the README).
#![tactic(auto)]

mod ahead;
mod host;
mod image_file;
mod standard_error;
mod standard_output;
mod streams;

pub use host::{Errors, Host, HostFile, Printer};
pub use image_file::ImageFile;
pub use standard_error::StandardError;
pub use standard_output::StandardOutput;
pub use streams::{ClosedStreams, closed};
