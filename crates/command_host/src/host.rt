//! The system that commands run on, with standard output among its files.
use crate::standard_error::StandardError;
use crate::standard_output::StandardOutput;
use crate::streams::{ClosedStreams, closed};
use command_files::{FileLock, SystemFile};
use command_support::FileId;
use command_times::{Gauge, Meter, Phase};
use std::alloc::Allocator;
use std::fs::{FileTimes, Metadata, OpenFile, OpenOptions, Permissions};
use std::io;
use std::io::{PipeReader, PipeWriter, Read, Seek, SeekFrom, Write};
use std::os::fd::BorrowedFd;
use std::os::unix::fs::FileExt;
use std::os::unix::net::SocketAddr;
use std::path::PathBuf;
use std::rt::Files;
use std::sync::Wait;
use std::thread::Threads;
use std::time::{Clock, Duration};

/// The path of standard input's file.
const STANDARD_INPUT: &str = "/proc/self/fd/0";

/// The path of standard output's file.
const STANDARD_OUTPUT: &str = "/proc/self/fd/1";

/// The path of standard error's file.
const STANDARD_ERROR: &str = "/proc/self/fd/2";

/// The system that commands run on. A file that is opened for writing and is standard output is written through
/// standard output itself: a second opening would have a file position of its own, and each would overwrite what the
/// other wrote. What is read and written is shown on a meter, unless standard error is itself a file that is written.
#[derive(Drop)]
pub struct Host<'s, R> {
    rt: R,
    has_input: bool,
    stdout: &'s StandardOutput,
    meter: &'s Meter,
}

impl<'s, R> Host<'s, R> {
    /// This system without these streams, with this standard output and this meter.
    pub fn new(
        rt: R,
        closed: &ClosedStreams,
        stdout: &'s StandardOutput,
        meter: &'s Meter,
    ) -> Host<'s, R> {
        Host {
            rt,
            has_input: closed.has_input(),
            stdout,
            meter,
        }
    }
}

impl<'s, R: Files> Host<'s, R> {
    /// Whether it is the file of the standard stream at this path. None if that isn't known, for example because `/proc` isn't
    /// mounted.
    fn is_stream(&self, file: &R::File, path: &str) -> Option<bool> {
        let opened = FileId::of(&file.metadata().ok()?);
        let standard = FileId::of(&self.rt.metadata(path).ok()?);
        standard.is_known().then_some(opened.is_same(standard))
    }

    /// The file, which is written.
    fn written(&self, file: R::File) -> HostFile<'s, R::File> {
        if self.meter.is_on() && self.is_stream(&file, STANDARD_ERROR) != Some(false) {
            self.meter.end();
        }
        let gauge = self.meter.gauge(Phase::Write, &file);
        let is_stdout = self.is_stream(&file, STANDARD_OUTPUT);
        if is_stdout != Some(false) {
            self.stdout.take();
        }
        let stdout = if is_stdout == Some(true) {
            Some(self.stdout)
        } else {
            None
        };
        HostFile {
            file,
            stdout,
            gauge,
        }
    }
}

impl<R: Threads> Threads for Host<'_, R> {}

impl<R: Wait> Wait for Host<'_, R> {}

impl<R: Alloc> Alloc for Host<'_, R> {
    type A = R::A;

    fn alloc(&self) -> R::A {
        self.rt.alloc()
    }
}

impl<R: Clock> Clock for Host<'_, R> {
    fn monotonic(&self) -> io::Result<Duration> {
        self.rt.monotonic()
    }

    fn since_1970(&self) -> io::Result<Duration> {
        self.rt.since_1970()
    }

    fn sleep(&self, duration: Duration) {
        self.rt.sleep(duration)
    }
}

impl<'s, R: Files> Files for Host<'s, R> {
    type File = HostFile<'s, R::File>;

    type Dir = R::Dir;

    fn open_file(&self, how: &OpenOptions, path: &str) -> io::Result<HostFile<'s, R::File>> {
        if path == STANDARD_INPUT && !self.has_input {
            return Err(closed());
        }
        let file = self.rt.open_file(how, path)?;
        if how.asks_write() {
            return Ok(self.written(file));
        }
        let gauge = self.meter.gauge(Phase::Read, &file);
        Ok(HostFile {
            file,
            stdout: None,
            gauge,
        })
    }

    fn open_dir(&self, path: &str) -> io::Result<R::Dir> {
        self.rt.open_dir(path)
    }

    fn metadata(&self, path: &str) -> io::Result<Metadata> {
        self.rt.metadata(path)
    }

    fn symlink_metadata(&self, path: &str) -> io::Result<Metadata> {
        self.rt.symlink_metadata(path)
    }

    fn copy(&self, from: &str, to: &str) -> io::Result<u64> {
        self.rt.copy(from, to)
    }

    fn rename(&self, from: &str, to: &str) -> io::Result<()> {
        self.rt.rename(from, to)
    }

    fn remove_file(&self, path: &str) -> io::Result<()> {
        self.rt.remove_file(path)
    }

    fn create_dir(&self, path: &str) -> io::Result<()> {
        self.rt.create_dir(path)
    }

    fn remove_dir(&self, path: &str) -> io::Result<()> {
        self.rt.remove_dir(path)
    }

    fn remove_dir_all<B: Allocator>(&self, alloc: B, path: &str) -> io::Result<()> {
        self.rt.remove_dir_all(alloc, path)
    }

    fn canonicalize<B: Allocator>(&self, alloc: B, path: &str) -> io::Result<PathBuf<B>> {
        self.rt.canonicalize(alloc, path)
    }

    fn read_link<B: Allocator>(&self, alloc: B, path: &str) -> io::Result<PathBuf<B>> {
        self.rt.read_link(alloc, path)
    }

    fn hard_link(&self, original: &str, link: &str) -> io::Result<()> {
        self.rt.hard_link(original, link)
    }

    fn set_permissions(&self, path: &str, perm: Permissions) -> io::Result<()> {
        self.rt.set_permissions(path, perm)
    }

    fn symlink(&self, original: &str, link: &str) -> io::Result<()> {
        self.rt.symlink(original, link)
    }

    fn pipe(&self) -> io::Result<(PipeReader, PipeWriter)> {
        self.rt.pipe()
    }

    fn chown(&self, path: &str, owner: Option<u32>, group: Option<u32>) -> io::Result<()> {
        self.rt.chown(path, owner, group)
    }

    fn lchown(&self, path: &str, owner: Option<u32>, group: Option<u32>) -> io::Result<()> {
        self.rt.lchown(path, owner, group)
    }

    fn create_dir_with_mode(&self, path: &str, mode: u32) -> io::Result<()> {
        self.rt.create_dir_with_mode(path, mode)
    }

    fn bind_unix(&self, socket: BorrowedFd<'_>, address: &SocketAddr) -> io::Result<()> {
        self.rt.bind_unix(socket, address)
    }
}

/// An open file of the system.
#[derive(Drop)]
pub struct HostFile<'s, F: Drop> {
    file: F,
    /// Standard output, if the file is standard output and is written.
    stdout: Option<&'s StandardOutput>,
    /// What shows how far the file is, if it is shown.
    gauge: Option<Gauge<'s>>,
}

impl<F: Drop> HostFile<'_, F> {
    /// Counts bytes that were read or written.
    fn count(&self, bytes: usize) {
        if let Some(gauge) = &self.gauge {
            gauge.count(bytes);
        }
    }
}

impl<F: Read + Drop> Read for HostFile<'_, F> {
    fn read(&mut self, buf: &mut [u8]) -> io::Result<usize> {
        let n = self.file.read(buf)?;
        match &self.gauge {
            Some(gauge) if n == 0 && !buf.is_empty() => gauge.end(),
            _ => self.count(n),
        }
        Ok(n)
    }
}

impl<F: Write + Drop> Write for HostFile<'_, F> {
    fn write(&mut self, buf: &[u8]) -> io::Result<usize> {
        let n = match &mut self.stdout {
            Some(stdout) => stdout.write(buf)?,
            None => self.file.write(buf)?,
        };
        self.count(n);
        Ok(n)
    }

    fn flush(&mut self) -> io::Result<()> {
        match &mut self.stdout {
            Some(stdout) => stdout.flush(),
            None => self.file.flush(),
        }
    }
}

impl<F: Seek + Drop> Seek for HostFile<'_, F> {
    fn seek(&mut self, to: SeekFrom) -> io::Result<u64> {
        let position = self.file.seek(to)?;
        if let Some(gauge) = &self.gauge {
            gauge.move_to(position);
        }
        Ok(position)
    }
}

impl<F: OpenFile + Drop> OpenFile for HostFile<'_, F> {
    fn metadata(&self) -> io::Result<Metadata> {
        self.file.metadata()
    }

    fn set_len(&self, size: u64) -> io::Result<()> {
        self.file.set_len(size)
    }

    fn sync_all(&self) -> io::Result<()> {
        self.file.sync_all()
    }

    fn sync_data(&self) -> io::Result<()> {
        self.file.sync_data()
    }

    fn set_permissions(&self, perm: Permissions) -> io::Result<()> {
        self.file.set_permissions(perm)
    }

    fn set_times(&self, times: FileTimes) -> io::Result<()> {
        self.file.set_times(times)
    }
}

impl<F: FileExt + Drop> FileExt for HostFile<'_, F> {
    fn read_at(&self, buf: &mut [u8], offset: u64) -> io::Result<usize> {
        let n = self.file.read_at(buf, offset)?;
        self.count(n);
        Ok(n)
    }

    fn write_at(&self, buf: &[u8], offset: u64) -> io::Result<usize> {
        self.file.write_at(buf, offset)
    }
}

impl<F: SystemFile + Drop> SystemFile for HostFile<'_, F> {
    fn set_owner(&self, owner: Option<u32>, group: Option<u32>) -> io::Result<()> {
        self.file.set_owner(owner, group)
    }

    fn acquire_lock(&self) -> io::Result<FileLock> {
        self.file.acquire_lock()
    }

    fn is_standard_output(&self) -> bool {
        self.stdout.is_some()
    }

    fn expect_len(&self, len: u64) {
        if let Some(gauge) = &self.gauge {
            gauge.expect_len(len);
        }
    }

    fn read_again(&self) {
        if let Some(gauge) = &self.gauge {
            gauge.read_again();
        }
    }
}

/// Where a command prints: to standard output, or to standard error if it may have written standard output as a file. It ends
/// the meter.
#[derive(Drop)]
pub struct Printer<'s> {
    stdout: &'s StandardOutput,
    stderr: StandardError,
    meter: &'s Meter,
}

impl<'s> Printer<'s> {
    /// A printer to this standard output, or to this standard error.
    pub fn new(stdout: &'s StandardOutput, stderr: StandardError, meter: &'s Meter) -> Printer<'s> {
        Printer {
            stdout,
            stderr,
            meter,
        }
    }
}

impl Write for Printer<'_> {
    fn write(&mut self, buf: &[u8]) -> io::Result<usize> {
        self.meter.end();
        if self.stdout.is_taken() {
            self.stderr.write(buf)
        } else {
            self.stdout.write(buf)
        }
    }

    fn flush(&mut self) -> io::Result<()> {
        if self.stdout.is_taken() {
            self.stderr.flush()
        } else {
            self.stdout.flush()
        }
    }
}

/// Where errors are printed: to standard error, but nowhere once standard output was found to have no reader. It ends the meter.
#[derive(Drop)]
pub struct Errors<'s> {
    stdout: &'s StandardOutput,
    stderr: StandardError,
    meter: &'s Meter,
}

impl<'s> Errors<'s> {
    /// The errors of commands with this standard output, for this standard error.
    pub fn new(stdout: &'s StandardOutput, stderr: StandardError, meter: &'s Meter) -> Errors<'s> {
        Errors {
            stdout,
            stderr,
            meter,
        }
    }
}

impl Write for Errors<'_> {
    fn write(&mut self, buf: &[u8]) -> io::Result<usize> {
        self.meter.end();
        if self.stdout.has_no_reader() {
            Ok(buf.len())
        } else {
            self.stderr.write(buf)
        }
    }

    fn flush(&mut self) -> io::Result<()> {
        self.stderr.flush()
    }
}
