//! The owner, the group and the permissions of files.
use crate::system_file::SystemFile;
use std::fs::{Metadata, Permissions};
use std::io;
use std::io::ErrorKind;
use std::os::unix::fs::{MetadataExt, PermissionsExt};

/// The mode bits that say who may read, write and run a file.
const PERMISSIONS: u32 = 0o777;

/// The owner of a file, its group, and who may read and write it.
#[derive(Clone, Copy)]
pub struct Access {
    owner: u32,
    group: u32,
    permissions: u32,
}

impl Access {
    /// The access of the file that this metadata is of.
    pub fn of(metadata: &Metadata) -> Access {
        Access {
            owner: metadata.uid(),
            group: metadata.gid(),
            permissions: metadata.mode() & PERMISSIONS,
        }
    }

    /// Gives an open file the owner and the group, if this process may, and then the permissions. Until then only its owner
    /// may read it.
    pub fn give<F: SystemFile>(self, file: &F) -> io::Result<()> {
        unless_denied(file.set_owner(Some(self.owner), None))?;
        unless_denied(file.set_owner(None, Some(self.group)))?;
        file.set_permissions(Permissions::from_mode(self.permissions))
    }
}

/// The permissions with which a file is made. The system removes those of the caller's umask.
pub fn first_mode(is_private: bool) -> u32 {
    if is_private { 0o600 } else { 0o666 }
}

/// Ignores the error that this process isn't permitted to do it.
fn unless_denied(outcome: io::Result<()>) -> io::Result<()> {
    match outcome {
        Err(error) if error.kind() == ErrorKind::PermissionDenied => Ok(()),
        other => other,
    }
}
