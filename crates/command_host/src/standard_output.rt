use std::io;
use std::io::{ErrorKind, Stdout, Write};
use std::sync::atomic::{AtomicBool, Ordering};

/// Standard output, which is written as a file or by what prints, and what was noticed about it.
#[derive(Drop)]
pub struct StandardOutput {
    stdout: Stdout,
    /// Whether it was opened as a file to write.
    is_taken: AtomicBool,
    /// Whether a write found no reader.
    has_no_reader: AtomicBool,
}

impl StandardOutput {
    /// Standard output before anything was written.
    pub fn new(stdout: Stdout) -> StandardOutput {
        StandardOutput {
            stdout,
            is_taken: AtomicBool::new(false),
            has_no_reader: AtomicBool::new(false),
        }
    }

    /// Notes that it is opened as a file to write.
    pub fn take(&self) {
        self.is_taken.store(true, Ordering::SeqCst);
    }

    /// Whether it was opened as a file to write.
    pub fn is_taken(&self) -> bool {
        self.is_taken.load(Ordering::SeqCst)
    }

    /// Whether its reader was gone when something was written.
    pub fn has_no_reader(&self) -> bool {
        self.has_no_reader.load(Ordering::SeqCst)
    }
}

impl Write for &StandardOutput {
    fn write(&mut self, buf: &[u8]) -> io::Result<usize> {
        let mut stdout = self.stdout;
        match stdout.write(buf) {
            Err(error) if error.kind() == ErrorKind::BrokenPipe => {
                self.has_no_reader.store(true, Ordering::SeqCst);
                Err(error)
            }
            other => other,
        }
    }

    fn flush(&mut self) -> io::Result<()> {
        let mut stdout = self.stdout;
        stdout.flush()
    }
}
