//! The files of a command line.

pub(crate) mod content;
pub(crate) mod file_id;
pub(crate) mod file_word;
pub(crate) mod head;
pub(crate) mod named_files;
pub(crate) mod watched;
pub(crate) mod writing;
