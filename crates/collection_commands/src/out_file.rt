ghost use Rattle.std.specs.Prelude.{◌≡◌, ◌≤◌, IfOk, IfSome, Ok, length};

use crate::figures::FiguresLine;
use command_files::{Late, SystemFile};
use heap_image::{Failed, Fault, Outlet};
use std::io::Write;
use std::rt::Files;

/// The file that a collected image is written to, begun with the first byte. Its bytes are unknown to contracts.
///
/// In a regular file zeros are left out as holes, which take no room on the disk and read as zeros. To any other
/// file, such as a pipe, each zero is written.
#[derive(Drop)]
pub struct OutFile<'a, 'h, 'f, H: Files> {
    file: &'f mut Late<'a, 'h, H>,
    failed: bool,
    /// The number of zeros left out after the last byte that was written.
    left_out: u64,
}

impl<'a, 'h, 'f, H: Files + AllocGlobal> OutFile<'a, 'h, 'f, H>
where
    H::File: SystemFile,
{
    /// A file to which nothing is written yet.
    pub fn new(file: &'f mut Late<'a, 'h, H>) -> OutFile<'a, 'h, 'f, H> {
        OutFile {
            file,
            failed: false,
            left_out: 0,
        }
    }

    /// Writes the zeros at the end that were left out, even if the collection failed after the whole image was written.
    /// Returns the outcome, or fault 13 if the file fails.
    pub fn end(&mut self, outcome: Result<FiguresLine, Fault>) -> Result<FiguresLine, Fault>
        ensures { IfOk result (λ line. outcome ≡ Ok line) }
    {
        let ended = if self.failed { None } else { self.write_hole() };
        let line = outcome?;
        match ended {
            Some(()) => Ok(line),
            None => Err(Fault::Io),
        }
    }

    /// Writes bytes after the zeros that were left out. None if the file fails.
    fn write_after_hole(&mut self, bytes: &[u8]) -> Option<usize>
        ensures within { IfSome result (λ n. n ≤ length bytes.now) }
        ensures kept { self.new.failed ≡ self.old.failed }
    {
        self.write_hole()?;
        self.file.write(bytes).ok()
    }

    /// Skips all zeros that were left out except the last, and writes that one, so that the file has its length even if
    /// nothing follows. None if the file fails or takes no byte.
    fn write_hole(&mut self) -> Option<()>
        ensures { self.new.failed ≡ self.old.failed }
    {
        let Some(hole) = self.left_out.checked_sub(1) else {
            return Some(());
        };
        self.left_out = 0;
        let file = &mut self.file.begun()?.file;
        file.skip(hole).ok()?;
        match file.write(&[0]) {
            Ok(1) => Some(()),
            _ => None,
        }
    }
}

impl<H: Files + AllocGlobal> Outlet for OutFile<'_, '_, '_, H>
where
    H::File: SystemFile,
{
    ghost use Rattle.std.specs.Prelude.{None};

    ghost took = { λ _. None };

    ghost has_failed = { λ out. out.failed };

    fn give(&mut self, bytes: &[u8]) -> Result<usize, Failed> {
        if self.failed {
            return Err(Failed);
        }
        match self.write_after_hole(bytes) {
            Some(n) if n > 0 || bytes.is_empty() => Ok(n),
            _ => {
                self.failed = true;
                Err(Failed)
            }
        }
    }

    fn failed(&self) -> bool {
        self.failed
    }

    fn leave_out_zeros(&mut self, count: usize) -> bool {
        if !self.file.may_have_holes() {
            return false;
        }
        match self.left_out.checked_add(count as u64) {
            Some(left_out) => {
                self.left_out = left_out;
                true
            }
            None => false,
        }
    }
}
