//! Files that are changed only once there is something to write.
ghost use Rattle.std.specs.Prelude.{◌≡◌, IfOk, string_bytes};

use crate::file_target::FileTarget;
use crate::files::{both_ended, ended};
use crate::output::Output;
use crate::system_file::SystemFile;
use crate::work_done::WorkDone;
use command_support::Trouble;
use heap_image::Fault;
use std::io;
use std::io::{Error, ErrorKind, Write};
use std::rt::Files;

/// A file that is emptied, or made anew, only with the first byte that is written.
pub struct Late<'a, 'h, H: Files> {
    host: &'h H,
    /// The file before its first byte.
    found: Option<FileTarget<'a, H::File>>,
    /// The name that a new file doesn't get.
    apart: Option<String>,
    /// How long the file will be, or 0 where that isn't known.
    expected: u64,
    /// The file from its first byte on, or the error that prevented it.
    begun: Option<Result<Output<'a, H::File>, Trouble>>,
}

impl<H: Files> Drop for Late<'_, '_, H> {
    fn drop(self) {
        let Late {
            host: _,
            found: _,
            apart: _,
            expected: _,
            begun: _,
        } = self;
    }
}

impl<'a, 'h, H: Files + AllocGlobal> Late<'a, 'h, H>
where
    H::File: SystemFile,
{
    /// Wraps a file, which stays unchanged until the first byte.
    pub fn new(host: &'h H, found: FileTarget<'a, H::File>) -> Late<'a, 'h, H> {
        Late {
            host,
            found: Some(found),
            apart: None,
            expected: 0,
            begun: None,
        }
    }

    /// The same, but a new file doesn't get this name, which is that of the place of the other file that the command writes.
    pub fn apart(mut self, name: Option<String>) -> Late<'a, 'h, H> {
        self.apart = name;
        self
    }

    /// The same, for a file that will be this long. Progress is shown as a share of that.
    pub fn expecting(mut self, len: u64) -> Late<'a, 'h, H> {
        self.expected = len;
        self
    }

    fn begin(&mut self) {
        if let Some(found) = self.found.take() {
            let apart = match &self.apart {
                Some(name) => Some(name.as_str()),
                None => None,
            };
            let begun = found.begin_apart(self.host, apart);
            if let Ok(output) = &begun {
                output.file.file().expect_len(self.expected);
            }
            self.begun = Some(begun);
        }
    }

    /// The file, begun if it wasn't yet. None if it can't be.
    pub fn begun(&mut self) -> Option<&mut Output<'a, H::File>> {
        self.begin();
        match &mut self.begun {
            Some(Ok(output)) => Some(output),
            _ => None,
        }
    }

    /// Whether zeros may be left out, as holes: only in a regular file that was begun.
    pub fn may_have_holes(&self) -> bool {
        match &self.begun {
            Some(Ok(output)) => output.may_have_holes,
            _ => false,
        }
    }

    /// The file, begun even if nothing was written.
    ///
    /// Fault 13 if it can't be begun, and 11 if memory runs out.
    pub fn into_output(mut self) -> Result<Output<'a, H::File>, Trouble> {
        self.begin();
        match self.begun.take() {
            Some(begun) => begun,
            None => Err(Trouble::from(Fault::Io)),
        }
    }

    /// Finishes the file, even if nothing was written. The command prints this line.
    pub fn ended(self, line: String) -> Result<WorkDone<'a>, Trouble>
        ensures { IfOk result (λ done. done.text.items ≡ string_bytes line) }
    {
        let host = self.host;
        ended(host, line, self.into_output()?)
    }

    /// Finishes both files, even if nothing was written. The command prints this line.
    pub fn ended_with(self, other: Late<'a, 'h, H>, line: String) -> Result<WorkDone<'a>, Trouble>
        ensures { IfOk result (λ done. done.text.items ≡ string_bytes line) }
    {
        let host = self.host;
        let output = match self.into_output() {
            Ok(output) => output,
            Err(trouble) => return Err(other.failed(trouble)),
        };
        match other.into_output() {
            Ok(other) => both_ended(host, line, output, other),
            Err(trouble) => Err(output.abandon_with(host, trouble)),
        }
    }

    /// The error of a command that failed before the file was complete. A file that wasn't begun is unchanged.
    pub fn failed(mut self, trouble: Trouble) -> Trouble {
        if let Some(found) = self.found.take() {
            found.leave(self.host);
        }
        match self.begun.take() {
            Some(Ok(output)) => {
                let trouble = trouble.if_failed(&output.file);
                output.abandon_with(self.host, trouble)
            }
            Some(Err(earlier)) => earlier,
            None => trouble,
        }
    }
}

impl<H: Files + AllocGlobal> Write for Late<'_, '_, H>
where
    H::File: SystemFile,
{
    fn write(&mut self, buf: &[u8]) -> io::Result<usize> {
        match self.begun() {
            Some(output) => output.file.write(buf),
            None => Err(Error::from(ErrorKind::Other)),
        }
    }

    fn flush(&mut self) -> io::Result<()> {
        match &mut self.begun {
            Some(Ok(output)) => output.file.flush(),
            _ => Ok(()),
        }
    }
}
