//! Removal of the new files that killed calls have left.
use crate::file_target::folder_of;
use crate::system_file::SystemFile;
use command_support::FileId;
use std::fs::{Metadata, OpenFile, OpenOptions};
use std::io::ErrorKind;
use std::os::unix::fs::MetadataExt;
use std::path::PathBuf;
use std::rt::Files;
use std::{fs, io};

/// The mode bits by which others than its owner may write in a folder.
const OTHERS_WRITE: u32 = 0o022;

/// The mode bit by which only the owners of a file and of its folder may rename or remove the file.
const STICKY: u32 = 0o1000;

const ROOT: u32 = 0;

/// The files that a command reads.
#[derive(Clone, Copy)]
pub(crate) struct Inputs {
    pub first: Option<FileId>,
    pub second: Option<FileId>,
}

impl Inputs {
    fn have(self, id: FileId) -> bool {
        is_file(self.first, id) || is_file(self.second, id)
    }
}

fn is_file(file: Option<FileId>, id: FileId) -> bool {
    match file {
        Some(file) => file.is_same(id),
        None => false,
    }
}

/// Whether nobody but this user and root may rename or remove the user's files in the folder of this place.
pub(crate) fn is_guarded<H: Files>(host: &H, place: &PathBuf, user: u32) -> bool {
    match fs::metadata(host, folder_of(place.as_path())) {
        Ok(folder) => {
            let mode = folder.mode();
            (folder.uid() == user || folder.uid() == ROOT)
                && (mode & OTHERS_WRITE == 0 || mode & STICKY != 0)
        }
        Err(_) => false,
    }
}

/// Removes the file of this name, which is one of a new file, if a killed call of this user left it: a regular file with one
/// name that no process has locked. The command's inputs and the standard streams stay, and so does the file if a call on it
/// fails.
///
/// Only for a folder that [`is_guarded`]: in another one the name may lead elsewhere by the time that it is opened.
pub(crate) fn remove_leftover<H: Files>(host: &H, path: &PathBuf, user: u32, inputs: Inputs)
where
    H::File: SystemFile,
{
    if let Ok(named) = fs::symlink_metadata(host, path) {
        let id = FileId::of(&named);
        if is_new_file_of(&named, user) && !inputs.have(id) && !is_stream(host, id) {
            let _ = remove_unlocked(host, path);
        }
    }
}

/// Whether it may be a new file of this user.
fn is_new_file_of(named: &Metadata, user: u32) -> bool {
    named.is_file() && named.uid() == user && named.nlink() == 1 && named.ino() != 0
}

/// Whether it may be one of the standard streams: where `/proc` isn't mounted, any file may.
fn is_stream<H: Files>(host: &H, id: FileId) -> bool {
    leads_to(host, "/proc/self/fd/0", id)
        || leads_to(host, "/proc/self/fd/1", id)
        || leads_to(host, "/proc/self/fd/2", id)
}

fn leads_to<H: Files>(host: &H, name: &str, id: FileId) -> bool {
    match fs::metadata(host, name) {
        Ok(file) => FileId::of(&file).is_same(id),
        Err(_) => true,
    }
}

/// Removes a file, unless another process has locked it.
///
/// A call that makes a new file locks it, and looks at its name once it has the lock. So the name isn't that of another file
/// when it is removed here.
fn remove_unlocked<H: Files>(host: &H, path: &PathBuf) -> io::Result<()>
where
    H::File: SystemFile,
{
    let file = OpenOptions::new().write(true).open(host, path)?;
    let _lock = file.acquire_lock()?;
    if has_name(host, path, &file)? {
        fs::remove_file(host, path)?;
    }
    Ok(())
}

/// Whether this name is that of an open file.
pub(crate) fn has_name<H: Files>(host: &H, path: &PathBuf, file: &H::File) -> io::Result<bool> {
    let opened = FileId::of(&file.metadata()?);
    match fs::symlink_metadata(host, path) {
        Ok(named) => Ok(FileId::of(&named) == opened),
        Err(error) if error.kind() == ErrorKind::NotFound => Ok(false),
        Err(error) => Err(error),
    }
}
