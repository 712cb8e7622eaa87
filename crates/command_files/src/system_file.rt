//! Calls on an open file that [`OpenFile`] lacks.
use std::fs::{File, OpenFile};
use std::io;
use std::os::unix::fs::fchown;

/// What a command needs of an open file beyond [`OpenFile`]. Each call acts on the open file, whatever has its name by then.
pub trait SystemFile: OpenFile {
    /// Sets the owner and the group. None keeps the present one.
    fn set_owner(&self, owner: Option<u32>, group: Option<u32>) -> io::Result<()>;

    /// Takes the exclusive lock of the file, without waiting. The lock lasts until both this handle and the result are
    /// dropped, and no longer than the process.
    ///
    /// Fails with `WouldBlock` if another opening of the file holds a lock, and with `Unsupported` if the file system has no
    /// locks.
    fn acquire_lock(&self) -> io::Result<FileLock>;

    /// Whether what is written to it goes to standard output itself.
    fn is_standard_output(&self) -> bool {
        false
    }

    /// Says how long a file that is written will be, or 0 if that isn't known. Progress is shown as a share of that.
    fn expect_len(&self, _len: u64) {}

    /// Says that the file is read for the second time, which progress then shows.
    fn read_again(&self) {}
}

/// The lock of a file, held until it is dropped.
#[derive(Drop)]
pub struct FileLock {
    /// Another handle of the locked file. None if the file system has no locks.
    handle: Option<File>,
}

impl FileLock {
    /// The value for a file system that has no locks.
    pub fn none() -> FileLock {
        FileLock { handle: None }
    }
}

impl SystemFile for File {
    fn set_owner(&self, owner: Option<u32>, group: Option<u32>) -> io::Result<()> {
        fchown(self, owner, group)
    }

    fn acquire_lock(&self) -> io::Result<FileLock> {
        self.try_lock()?;
        Ok(FileLock {
            handle: Some(self.try_clone()?),
        })
    }
}
