//! How files are written.
use super::file_id::FileId;

/// How a command writes its files.
#[derive(Clone, Copy)]
pub struct Writing {
    /// Whether each file is replaced, once all is done.
    pub atomic: bool,
    /// Whether a file that isn't there yet is made for its owner alone.
    pub is_private: bool,
    /// The file that the command reads, if it reads one. It isn't removed as a leftover of a killed call.
    pub read: Option<FileId>,
}
