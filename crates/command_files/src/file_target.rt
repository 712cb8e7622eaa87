//! Files to write, as they are before a command changes them.
use crate::access::{Access, first_mode};
use crate::files::not_regular;
use crate::leftovers::Inputs;
use crate::output::Output;
use crate::replacement::{Making, Replacement};
use crate::system_file::SystemFile;
use command_support::{FileId, FileWord, SystemCall, Trouble, Watched, Writing, on_file};
use std::alloc::{AllocError, Global};
use std::fs::{Metadata, OpenFile, OpenOptions};
use std::io::ErrorKind;
use std::os::unix::fs::OpenOptionsExt;
use std::path::{Path, PathBuf};
use std::rt::Files;
use std::{fs, io};

/// A file to write, unchanged yet.
#[derive(Drop)]
pub struct FileTarget<'a, F: Drop> {
    word: FileWord<'a>,
    /// Whether it is made for its owner alone, if it isn't there yet.
    is_private: bool,
    /// The file that was there, or was made because there was none.
    found: Option<FileId>,
    inputs: Inputs,
    way: Way<F>,
}

/// How a file is to be written.
#[derive(Drop)]
enum Way<F: Drop> {
    /// In place. The file is open, and was made if it wasn't there.
    InPlace {
        file: F,
        is_new: bool,
        /// The length of a regular file.
        len: Option<u64>,
    },
    /// As a temporary file in the same folder, renamed to this path at the end.
    Beside {
        place: PathBuf,
        /// The access of the file that was there.
        access: Option<Access>,
    },
}

/// The file that was found, if there is one, and how it is to be written.
type Found<F> = (Option<FileId>, Way<F>);

impl<'a, F: OpenFile + Drop> FileTarget<'a, F> {
    /// Opens the file of this word for writing, and makes it if it isn't there. With `atomic` it only looks at what is there,
    /// which must be a regular file or nothing, and not standard output.
    ///
    /// Fault 13 if the file can't be opened for writing, and 11 if memory runs out.
    pub fn find<H: Files<File = F> + AllocGlobal>(
        host: &H,
        word: FileWord<'a>,
        writing: Writing,
    ) -> Result<FileTarget<'a, F>, Trouble> {
        if writing.atomic && word.is_standard() {
            return Err(not_regular(host.alloc(), word)?);
        }
        let (found, way) = if writing.atomic {
            find_place(host, word)?
        } else {
            open_in_place(host, word, writing.is_private)?
        };
        Ok(FileTarget {
            word,
            is_private: writing.is_private,
            found,
            inputs: Inputs {
                first: writing.read,
                second: None,
            },
            way,
        })
    }

    pub fn word(&self) -> FileWord<'a> {
        self.word
    }

    /// Whether a new file takes its place.
    pub fn is_replaced(&self) -> bool {
        match &self.way {
            Way::InPlace { .. } => false,
            Way::Beside { .. } => true,
        }
    }

    /// The name, without the folder, of the place that a new file takes.
    pub fn place_name(&self) -> Option<&str> {
        match &self.way {
            Way::InPlace { .. } => None,
            Way::Beside { place, .. } => place.file_name(),
        }
    }

    /// The name of that place as a text of its own.
    pub fn place_text(&self, alloc: Global) -> Result<Option<String>, AllocError> {
        match self.place_name() {
            Some(name) => Ok(Some(String::from_str(alloc, name)?)),
            None => Ok(None),
        }
    }

    /// Notes that the command reads this file besides the one of its [`Writing`].
    pub(crate) fn beside_input(mut self, id: FileId) -> FileTarget<'a, F> {
        self.inputs = Inputs {
            second: Some(id),
            ..self.inputs
        };
        self
    }

    /// Whether it is this file.
    pub fn is(&self, id: FileId) -> bool {
        match self.found {
            Some(found) => found.is_same(id),
            None => false,
        }
    }

    /// Whether both are one file, or will be. Fault 13 if a call on one of them fails.
    pub fn is_same<H: Files<File = F>>(
        &self,
        host: &H,
        other: &FileTarget<'a, F>,
    ) -> Result<bool, Trouble> {
        match (self.found, other.found) {
            (Some(one), Some(other)) => Ok(one.is_same(other)),
            (None, None) => is_one_place(host, self.word, other.word),
            _ => Ok(false),
        }
    }

    /// Leaves the file unchanged. If it was made it is removed.
    pub fn leave<H: Files<File = F> + AllocGlobal>(self, host: &H) {
        if let Way::InPlace { is_new: true, .. } = self.way {
            remove_made(host, self.word.path_to_write());
        }
    }

    /// Begins to write the file: empties it, or makes the new file beside it. A pipe, a device and standard output have nothing
    /// to empty, and an empty file isn't emptied again: some systems write a file that was emptied to the disk when it is
    /// closed. A new file doesn't get the name `apart`, which is that of the other file that the command writes.
    ///
    /// After fault 13, or 11 if memory runs out, the file is as it was.
    pub fn begin_apart<H: Files<File = F> + AllocGlobal>(
        self,
        host: &H,
        apart: Option<&str>,
    ) -> Result<Output<'a, F>, Trouble>
    where
        F: SystemFile,
    {
        let FileTarget {
            word,
            is_private,
            inputs,
            way,
            ..
        } = self;
        match way {
            Way::InPlace { file, len, .. } => begin_in_place(word, file, len),
            Way::Beside { place, access } => {
                let making = Making {
                    access,
                    is_private,
                    apart,
                    inputs,
                };
                Replacement::begin(host, word, place, making)
            }
        }
    }
}

/// Opens a file to write it in place, and makes it if it isn't there.
fn open_in_place<H: Files + AllocGlobal>(
    host: &H,
    word: FileWord<'_>,
    is_private: bool,
) -> Result<Found<H::File>, Trouble> {
    let opened = open(host, word.path_to_write(), is_private);
    let (file, is_new) = on_file(word, SystemCall::Open, opened)?;
    match on_file(word, SystemCall::Stat, file.metadata()) {
        Ok(found) => {
            let len = if found.is_file() {
                Some(found.len())
            } else {
                None
            };
            Ok((Some(FileId::of(&found)), Way::InPlace { file, is_new, len }))
        }
        Err(trouble) => {
            if is_new {
                remove_made(host, word.path_to_write());
            }
            Err(trouble)
        }
    }
}

/// Begins to write a file in place. A regular file has this length.
fn begin_in_place<'a, F: SystemFile + Drop>(
    word: FileWord<'a>,
    file: F,
    len: Option<u64>,
) -> Result<Output<'a, F>, Trouble> {
    let len = if file.is_standard_output() { None } else { len };
    if len.unwrap_or(0) > 0 {
        on_file(word, SystemCall::Empty, file.set_len(0))?;
    }
    Ok(Output {
        file: Watched::new(word, file),
        may_have_holes: len.is_some(),
        replacement: None,
    })
}

/// The file of this name, open for writing, and whether it was made because there was none. If the name is a link's, the file
/// that it leads to is made.
fn open<H: Files>(host: &H, name: &str, is_private: bool) -> io::Result<(H::File, bool)> {
    match OpenOptions::new().write(true).open(host, name) {
        Ok(file) => Ok((file, false)),
        Err(error) if error.kind() == ErrorKind::NotFound => {
            let made = OpenOptions::new()
                .write(true)
                .create(true)
                .mode(first_mode(is_private))
                .open(host, name)?;
            Ok((made, true))
        }
        Err(error) => Err(error),
    }
}

/// Removes a file that was made under this name. If the name is a link's, the file that it leads to is removed, unless memory
/// for that file's name runs out.
fn remove_made<H: Files + AllocGlobal>(host: &H, name: &str) {
    let is_link = match fs::symlink_metadata(host, name) {
        Ok(named) => named.is_symlink(),
        Err(_) => true,
    };
    if !is_link {
        let _ = fs::remove_file(host, name);
    } else if let Ok(path) = fs::canonicalize(host, name) {
        let _ = fs::remove_file(host, &path);
    }
}

/// The metadata of a file that this process may write.
fn writable<H: Files>(host: &H, name: &str) -> io::Result<Metadata> {
    OpenOptions::new().write(true).open(host, name)?.metadata()
}

/// The place of a new file, and the file that it replaces, if there is one.
fn find_place<H: Files + AllocGlobal>(
    host: &H,
    word: FileWord<'_>,
) -> Result<Found<H::File>, Trouble> {
    match fs::symlink_metadata(host, word.name) {
        Ok(named) => find_replaced(host, word, named.is_symlink()),
        Err(error) if error.kind() != ErrorKind::NotFound => {
            Err(Trouble::of_call(word, SystemCall::Stat, &error))
        }
        Err(_) if may_be_made(word.name) => {
            let place = PathBuf::from_str(host.alloc(), word.name)?;
            let way = Way::Beside {
                place,
                access: None,
            };
            Ok((None, way))
        }
        Err(error) => Err(Trouble::of_call(word, SystemCall::Make, &error)),
    }
}

/// Whether a file can be made under this name, which is neither empty nor a folder's.
fn may_be_made(name: &str) -> bool {
    !name.is_empty() && !name.ends_with('/')
}

/// A file that is to be replaced, and its place. It must be a regular file.
fn find_replaced<H: Files + AllocGlobal>(
    host: &H,
    word: FileWord<'_>,
    is_link: bool,
) -> Result<Found<H::File>, Trouble> {
    must_be_regular(host, word)?;
    let place = place_of(host, word, is_link)?;
    let found = on_file(word, SystemCall::Open, writable(host, word.name))?;
    let access = Some(Access::of(&found));
    Ok((Some(FileId::of(&found)), Way::Beside { place, access }))
}

/// Refuses what isn't a regular file.
fn must_be_regular<H: Files + AllocGlobal>(host: &H, word: FileWord<'_>) -> Result<(), Trouble> {
    match fs::metadata(host, word.name) {
        Ok(found) if found.is_file() => Ok(()),
        Err(error) if error.kind() != ErrorKind::NotFound => {
            Err(Trouble::of_call(word, SystemCall::Stat, &error))
        }
        _ => Err(not_regular(host.alloc(), word)?),
    }
}

/// The place of a file: its name, or where a link of this name leads.
fn place_of<H: Files + AllocGlobal>(
    host: &H,
    word: FileWord<'_>,
    is_link: bool,
) -> Result<PathBuf, Trouble> {
    if !is_link {
        return Ok(PathBuf::from_str(host.alloc(), word.name)?);
    }
    match fs::canonicalize(host, word.name) {
        Ok(place) => Ok(place),
        Err(error) if error.kind() == ErrorKind::OutOfMemory => Err(Trouble::from(AllocError)),
        Err(error) => Err(Trouble::of_call(word, SystemCall::Stat, &error)),
    }
}

/// Whether both are one name in one folder.
fn is_one_place<'a, H: Files>(
    host: &H,
    one: FileWord<'a>,
    other: FileWord<'a>,
) -> Result<bool, Trouble> {
    if Path::new(one.name).file_name() != Path::new(other.name).file_name() {
        return Ok(false);
    }
    let (one, other) = (folder_id(host, one)?, folder_id(host, other)?);
    Ok(one.is_same(other))
}

/// Which file of the system the folder of a file is.
fn folder_id<H: Files>(host: &H, word: FileWord<'_>) -> Result<FileId, Trouble> {
    let folder = fs::metadata(host, folder_of(Path::new(word.name)));
    Ok(FileId::of(&on_file(word, SystemCall::Stat, folder)?))
}

/// The folder of a file.
pub(crate) fn folder_of(path: Path<'_>) -> &str {
    match path.parent() {
        Some(folder) if !folder.as_str().is_empty() => folder.as_str(),
        _ => ".",
    }
}
