//! Files that are being written.
use crate::replacement::Replacement;
use crate::system_file::SystemFile;
use command_support::{Trouble, Watched};
use std::fs::OpenFile;
use std::io::Seek;
use std::rt::Files;

/// A file that is being written, in place or as a new file beside it.
pub struct Output<'a, F: Drop> {
    /// The file, open for writing.
    pub file: Watched<'a, F>,
    /// Whether it is a regular file, and not standard output.
    pub may_have_holes: bool,
    /// What renames a temporary file to its path at the end.
    pub replacement: Option<Replacement<'a>>,
}

impl<F: Drop> Drop for Output<'_, F> {
    fn drop(self) {
        let Output {
            file: _,
            may_have_holes: _,
            replacement: _,
        } = self;
    }
}

impl<'a, F: OpenFile + Seek + Drop> Output<'a, F> {
    /// Cuts a regular file after what was written, whatever another process has written there meanwhile. A new file gets the
    /// owner, the group and the permissions of the one that it replaces, and is synced to the disk.
    ///
    /// After fault 13 a new file is removed.
    pub fn finish<H: Files<File = F>>(
        mut self,
        host: &H,
    ) -> Result<Option<Replacement<'a>>, Trouble>
    where
        F: SystemFile,
    {
        if self.may_have_holes {
            if let Err(trouble) = self.file.cut() {
                return Err(self.abandon_with(host, trouble));
            }
        }
        match self.replacement.take() {
            Some(replacement) => Ok(Some(replacement.complete(host, self.file.file())?)),
            None => Ok(None),
        }
    }

    /// The name, without the folder, of the place that a new file takes.
    pub fn place_name(&self) -> Option<&str> {
        match &self.replacement {
            Some(replacement) => replacement.place_name(),
            None => None,
        }
    }

    /// Gives up writing. A new file is removed.
    pub fn abandon<H: Files<File = F>>(mut self, host: &H) {
        if let Some(replacement) = self.replacement.take() {
            replacement.remove(host);
        }
    }

    /// Gives up writing, as [`Output::abandon`] does, and returns the error that is the reason.
    pub fn abandon_with<H: Files<File = F>>(self, host: &H, trouble: Trouble) -> Trouble {
        self.abandon(host);
        trouble
    }
}
