//! The standard streams as they were when the program began.
use std::fs::File;
use std::io;
use std::io::Error;
use std::os::fd::{AsFd, BorrowedFd};

/// The system's number of the error that a descriptor is closed.
const CLOSED: i32 = 9;

/// A folder that is there on each system. It can't be written, and it gives no bytes.
const FOLDER: &str = "/";

/// The standard streams that were closed when the program began. A folder holds the descriptor of each, so that no file of
/// a command gets it.
#[derive(Drop)]
pub struct ClosedStreams {
    input: Option<File>,
    output: Option<File>,
    errors: Option<File>,
}

impl ClosedStreams {
    /// Looks at the three descriptors. No file may have been opened yet: the system gives the least free number.
    ///
    /// Fails if one is closed and the folder can't be opened.
    pub fn hold(rt: &HostRuntime) -> io::Result<ClosedStreams> {
        Ok(ClosedStreams {
            input: held(rt, rt.stdin().as_fd())?,
            output: held(rt, rt.stdout().as_fd())?,
            errors: held(rt, rt.stderr().as_fd())?,
        })
    }

    /// Whether standard input was open.
    pub fn has_input(&self) -> bool {
        self.input.is_none()
    }

    /// Whether standard output was open.
    pub fn has_output(&self) -> bool {
        self.output.is_none()
    }

    /// Whether standard error was open.
    pub fn has_errors(&self) -> bool {
        self.errors.is_none()
    }
}

/// What holds this descriptor, if it is closed. Those before it are open.
fn held(rt: &HostRuntime, stream: BorrowedFd<'_>) -> io::Result<Option<File>> {
    if is_closed(stream) {
        Ok(Some(File::open(rt, FOLDER)?))
    } else {
        Ok(None)
    }
}

fn is_closed(stream: BorrowedFd<'_>) -> bool {
    match stream.try_clone_to_owned() {
        Ok(_) => false,
        Err(error) => error.raw_os_error() == Some(CLOSED),
    }
}

/// The error of a call on a standard stream that is closed.
pub fn closed() -> Error {
    Error::from_raw_os_error(CLOSED)
}
