//! New files that take the places of others: made beside the place, locked, completed and renamed.
ghost use Rattle.std.specs.Prelude.{◌≡◌, IfErr};
ghost use Rattle.command_support.specs.Failure.{failed_device};

use crate::access::{Access, first_mode};
use crate::leftovers::{Inputs, has_name, is_guarded, remove_leftover};
use crate::output::Output;
use crate::system_file::{FileLock, SystemFile};
use command_support::{FileWord, SystemCall, Trouble, Watched, on_file};
use heap_image::Fault;
use std::alloc::{AllocError, Global};
use std::fs::{OpenFile, OpenOptions};
use std::io::ErrorKind;
use std::os::unix::fs::{MetadataExt, OpenOptionsExt};
use std::path::PathBuf;
use std::rt::Files;
use std::{fs, io};

/// How many names are looked at for files that killed calls have left, from the one of the new file on. Names before that
/// are looked at too.
const NAMES_AHEAD: u32 = 16;

/// How many of the first names may be lost to a call that takes a new file for a leftover before it is locked.
const NAMES_TO_LOSE: u32 = 16;

/// A temporary file in the same folder, renamed to this path at the end. There may be a file at the path, which it replaces.
pub struct Replacement<'a> {
    word: FileWord<'a>,
    new: PathBuf,
    place: PathBuf,
    /// The access of the file at the place, if there is one.
    access: Option<Access>,
    /// Keeps other calls from removing the new file, until it has taken its place.
    lock: FileLock,
}

/// How a new file is to be made.
#[derive(Clone, Copy)]
pub(crate) struct Making<'n> {
    /// The access of the file that it replaces, if there is one.
    pub access: Option<Access>,
    /// Whether only its owner may read it.
    pub is_private: bool,
    /// The name of the other file that the command writes. The new file gets another one.
    pub apart: Option<&'n str>,
    pub inputs: Inputs,
}

/// A new file, open and locked.
#[derive(Drop)]
struct New<F: Drop> {
    path: PathBuf,
    number: u32,
    file: F,
    lock: FileLock,
}

// Written by hand, so that a drop is one call. A derived one takes the value apart at each drop, which the prover follows.
impl Drop for Replacement<'_> {
    fn drop(self) {
        let Replacement {
            word: _,
            new: _,
            place: _,
            access: _,
            lock: _,
        } = self;
    }
}

impl<'a> Replacement<'a> {
    /// Begins to write a new file beside this place. If it replaces another file only its owner may read it until
    /// [`Replacement::complete`]. New files that killed calls have left beside the place are removed.
    ///
    /// Fault 13 if it can't be made, and 11 if memory for its name runs out.
    pub(crate) fn begin<H: Files + AllocGlobal>(
        host: &H,
        word: FileWord<'a>,
        place: PathBuf,
        making: Making<'_>,
    ) -> Result<Output<'a, H::File>, Trouble>
    where
        H::File: SystemFile,
    {
        let new = make_beside(host, word, &place, making)?;
        remove_leftovers(host, &place, making, &new);
        let New {
            path,
            file,
            lock,
            ..
        } = new;
        Ok(Output {
            may_have_holes: !file.is_standard_output(),
            file: Watched::new(word, file),
            replacement: Some(Replacement {
                word,
                new: path,
                place,
                access: making.access,
                lock,
            }),
        })
    }

    /// Gives the new file, which is open here, the owner, the group and the permissions of the one that it replaces, and syncs
    /// it to the disk.
    ///
    /// After fault 13 it is removed.
    pub(crate) fn complete<H: Files>(
        self,
        host: &H,
        file: &H::File,
    ) -> Result<Replacement<'a>, Trouble>
    where
        H::File: SystemFile,
        ensures { IfErr result (λ trouble. trouble.failure ≡ failed_device) }
    {
        match self.give_access_and_sync(file) {
            Ok(()) => Ok(self),
            Err(trouble) => {
                self.remove(host);
                Err(trouble)
            }
        }
    }

    fn give_access_and_sync<F: SystemFile>(&self, file: &F) -> Result<(), Trouble>
        ensures { IfErr result (λ trouble. trouble.failure ≡ failed_device) }
    {
        if let Some(access) = self.access {
            on_file(self.word, SystemCall::Access, access.give(file))?;
        }
        on_file(self.word, SystemCall::Sync, file.sync_all())
    }

    /// The name of its place, without the folder.
    pub(crate) fn place_name(&self) -> Option<&str> {
        self.place.file_name()
    }

    /// Renames the new file to its place. A file that was there is gone.
    ///
    /// After fault 13 the place is unchanged and the new file is removed.
    pub fn take_place<H: Files>(self, host: &H) -> Result<(), Trouble>
        ensures { IfErr result (λ trouble. trouble.failure ≡ failed_device) }
    {
        let renamed = fs::rename(host, &self.new, &self.place);
        match on_file(self.word, SystemCall::Rename, renamed) {
            Ok(()) => Ok(()),
            Err(trouble) => {
                self.remove(host);
                Err(trouble)
            }
        }
    }

    /// Removes the new file. The place is unchanged.
    pub fn remove<H: Files>(self, host: &H) {
        let _ = fs::remove_file(host, &self.new);
    }
}

/// Makes a file beside this place under the first free name, open for writing, and locks it.
fn make_beside<H: Files + AllocGlobal>(
    host: &H,
    word: FileWord<'_>,
    place: &PathBuf,
    making: Making<'_>,
) -> Result<New<H::File>, Trouble>
where
    H::File: SystemFile,
{
    let mode = first_mode(making.is_private || making.access.is_some());
    for number in 0..u32::MAX {
        let path = beside(host.alloc(), place, number)?;
        if is_free_for_new(&path, place, making.apart) {
            match make_locked(host, &path, mode) {
                Ok(Some((file, lock))) => return Ok(New {
                    path,
                    number,
                    file,
                    lock,
                }),
                Ok(None) if number < NAMES_TO_LOSE => {}
                Ok(None) => return Err(Trouble::from(Fault::Io).about(word)),
                Err(error) if error.kind() == ErrorKind::AlreadyExists => {}
                Err(error) => return Err(Trouble::of_call(word, SystemCall::Make, &error)),
            }
        }
    }
    Err(Trouble::from(Fault::Io).about(word))
}

/// Whether the name isn't that of a file that the command writes.
fn is_free_for_new(new: &PathBuf, place: &PathBuf, apart: Option<&str>) -> bool {
    let name = new.file_name();
    name != place.file_name() && name != apart
}

/// A new file under this name, which must be free, open for writing and with these permissions, and its lock. None if another
/// call has locked it or taken its name before it was locked here.
fn make_locked<H: Files>(
    host: &H,
    path: &PathBuf,
    mode: u32,
) -> io::Result<Option<(H::File, FileLock)>>
where
    H::File: SystemFile,
{
    let file = OpenOptions::new()
        .write(true)
        .create_new(true)
        .mode(mode)
        .open(host, path)?;
    match lock_new(host, path, &file) {
        Ok(Some(lock)) => Ok(Some((file, lock))),
        Ok(None) => Ok(None),
        Err(error) => {
            let _ = fs::remove_file(host, path);
            Err(error)
        }
    }
}

/// The lock of a file that was made under this name, if the name still is that file's.
fn lock_new<H: Files>(host: &H, path: &PathBuf, file: &H::File) -> io::Result<Option<FileLock>>
where
    H::File: SystemFile,
{
    let lock = match file.acquire_lock() {
        Ok(lock) => lock,
        Err(error) if error.kind() == ErrorKind::WouldBlock => return Ok(None),
        Err(error) if error.kind() == ErrorKind::Unsupported => FileLock::none(),
        Err(error) => return Err(error),
    };
    Ok(if has_name(host, path, file)? {
        Some(lock)
    } else {
        None
    })
}

/// Removes what killed calls have left beside a place in which this new file was made.
fn remove_leftovers<H: Files + AllocGlobal>(
    host: &H,
    place: &PathBuf,
    making: Making<'_>,
    new: &New<H::File>,
)
where
    H::File: SystemFile,
{
    let Ok(own) = new.file.metadata() else {
        return;
    };
    if !is_guarded(host, place, own.uid()) {
        return;
    }
    for number in 0..new.number.saturating_add(NAMES_AHEAD) {
        let Ok(path) = beside(host.alloc(), place, number) else {
            return;
        };
        if number != new.number && is_free_for_new(&path, place, making.apart) {
            remove_leftover(host, &path, own.uid(), making.inputs);
        }
    }
}

/// The name with this number for a file beside a place.
fn beside(alloc: Global, place: &PathBuf, number: u32) -> Result<PathBuf, AllocError> {
    let name = format!(in alloc; ".pcompact-{number}.tmp")?;
    place.as_path().with_file_name(alloc, name.as_str())
}
