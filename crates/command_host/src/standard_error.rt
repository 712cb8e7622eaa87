use std::io;
use std::io::{Stderr, Write};

/// Standard error. Where it is closed, what is written to it is lost.
#[derive(Clone, Copy)]
pub struct StandardError {
    stderr: Stderr,
    is_open: bool,
}

impl StandardError {
    /// Standard error, which was open when the program began or wasn't.
    pub fn new(stderr: Stderr, is_open: bool) -> StandardError {
        StandardError { stderr, is_open }
    }
}

impl Write for StandardError {
    fn write(&mut self, buf: &[u8]) -> io::Result<usize> {
        if self.is_open {
            self.stderr.write(buf)
        } else {
            Ok(buf.len())
        }
    }

    fn flush(&mut self) -> io::Result<()> {
        self.stderr.flush()
    }
}
