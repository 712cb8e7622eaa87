//! System calls that fail.
use std::io::{Error, ErrorKind, Write};
use std::{fmt, io};

/// A system call on a file.
#[derive(Clone, Copy)]
pub enum SystemCall {
    Open,
    /// Gets the metadata.
    Stat,
    /// Cuts the file.
    Empty,
    /// Makes the new file.
    Make,
    /// Gives the new file the owner and the permissions of the old one.
    Access,
    Read,
    Write,
    Sync,
    /// Renames the new file to its place.
    Rename,
}

impl fmt::Display for SystemCall {
    fn fmt<W: fmt::Write>(&self, f: &mut fmt::Formatter<W>) -> fmt::Result {
        f.write_str(match self {
            SystemCall::Open => "open",
            SystemCall::Stat => "stat",
            SystemCall::Empty => "empty",
            SystemCall::Make => "make",
            SystemCall::Access => "access",
            SystemCall::Read => "read",
            SystemCall::Write => "write",
            SystemCall::Sync => "sync",
            SystemCall::Rename => "rename",
        })
    }
}

/// A system call that failed.
#[derive(Clone, Copy)]
pub struct FailedCall {
    call: SystemCall,
    kind: ErrorKind,
    /// The system's number of the error, if it is from the system.
    number: Option<i32>,
    /// Whether it was on `-`.
    is_stream: bool,
}

impl FailedCall {
    pub fn of(call: SystemCall, error: &Error) -> FailedCall {
        FailedCall {
            call,
            kind: error.kind(),
            number: error.raw_os_error(),
            is_stream: false,
        }
    }

    /// The same call, on `-`.
    pub fn on_stream(self) -> FailedCall {
        FailedCall {
            is_stream: true,
            ..self
        }
    }

    /// A write that took no byte.
    pub fn full() -> FailedCall {
        FailedCall {
            call: SystemCall::Write,
            kind: ErrorKind::WriteZero,
            number: None,
            is_stream: false,
        }
    }

    /// Writes the lines of the call and of the reason.
    pub fn print<B: Write>(&self, err: &mut B) -> io::Result<()> {
        writeln!(err, "pcompact: call {}", self.call)?;
        writeln!(err, "pcompact: reason {self}")
    }
}

/// The reason, in words where the error has some, else by the system's number.
impl fmt::Display for FailedCall {
    fn fmt<W: fmt::Write>(&self, f: &mut fmt::Formatter<W>) -> fmt::Result {
        match (self.kind, self.number) {
            (ErrorKind::NotFound, _) if self.is_stream => f.write_str("/proc is not mounted"),
            (ErrorKind::NotFound, _) => f.write_str("no such file or folder"),
            (ErrorKind::PermissionDenied, _) => f.write_str("not permitted"),
            (ErrorKind::StorageFull | ErrorKind::QuotaExceeded, _) => f.write_str("no space"),
            (ErrorKind::IsADirectory, _) => f.write_str("a folder"),
            (ErrorKind::WriteZero, _) => f.write_str("no byte was taken"),
            (_, Some(number)) => match words_of(number) {
                Some(words) => f.write_str(words),
                None => write!(f, "other, error {number} of the system"),
            },
            (_, None) => f.write_str("other"),
        }
    }
}

/// What Linux means by the number of an error that a call on a file may meet, beside those above.
fn words_of(number: i32) -> Option<&'static str> {
    Some(match number {
        4 => "interrupted by a signal",
        5 => "an error of the device",
        6 | 19 => "no such device",
        9 => "not open",
        11 => "nothing is there yet",
        12 => "the system has no memory",
        16 => "the file is in use",
        18 => "another file system",
        20 => "a file where a folder is wanted",
        22 => "not possible with such a file",
        23 => "too many files are open in the system",
        24 => "too many files are open",
        26 => "a program that runs",
        27 => "file too large",
        29 => "not possible with a pipe",
        30 => "a read-only file system",
        32 => "nobody reads it",
        36 => "the name is too long",
        37 => "no more locks",
        38 | 95 => "not supported by the system",
        40 => "too many links",
        75 => "file too large for the system",
        110 => "no answer in time",
        116 => "the server has lost the file",
        _ => return None,
    })
}
