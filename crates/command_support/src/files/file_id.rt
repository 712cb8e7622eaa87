//! Which file of the system a file is.
use std::fs::Metadata;
use std::os::unix::fs::MetadataExt;

/// A file of the system, whatever its names.
#[derive(Clone, Copy, PartialEq, Eq)]
pub struct FileId {
    /// The number of the device that has the file.
    device: u64,
    /// The file's number on that device, 0 if the system has none.
    inode: u64,
}

impl FileId {
    /// The file that this metadata is of.
    pub fn of(metadata: &Metadata) -> FileId {
        FileId {
            device: metadata.dev(),
            inode: metadata.ino(),
        }
    }

    /// Whether it has a number, by which it is known again.
    pub fn is_known(self) -> bool {
        self.inode != 0
    }

    /// Whether both are one file. A file without a number is the same as none, not even itself.
    pub fn is_same(self, other: FileId) -> bool {
        self.inode != 0 && self == other
    }
}
