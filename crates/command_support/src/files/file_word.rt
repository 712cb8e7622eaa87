//! The files of a command line.
use std::fmt;

/// The name of standard input where a file is read, and of standard output where one is written.
const STANDARD: &str = "-";

/// The path of standard input's file.
const STANDARD_INPUT: &str = "/proc/self/fd/0";

/// The path of standard output's file.
const STANDARD_OUTPUT: &str = "/proc/self/fd/1";

/// A file of a command, by the name that the command's usage gives it.
#[derive(Clone, Copy, PartialEq, Eq)]
pub enum Role {
    Image,
    Out,
    Schedule,
    Before,
    After,
    Dump,
    Text,
    Drawing,
}

impl fmt::Display for Role {
    fn fmt<W: fmt::Write>(&self, f: &mut fmt::Formatter<W>) -> fmt::Result {
        f.write_str(match self {
            Role::Image => "IMAGE",
            Role::Out => "OUT",
            Role::Schedule => "SCHEDULE",
            Role::Before => "BEFORE",
            Role::After => "AFTER",
            Role::Dump => "DUMP",
            Role::Text => "TEXT",
            Role::Drawing => "FILE",
        })
    }
}

/// A file as the command line names it.
#[derive(Clone, Copy)]
pub struct FileWord<'a> {
    pub role: Role,
    /// The name, as on the command line.
    pub name: &'a str,
}

impl<'a> FileWord<'a> {
    /// The file of this name.
    pub fn new(role: Role, name: &'a str) -> FileWord<'a> {
        FileWord { role, name }
    }

    /// Whether it is standard input or standard output.
    pub fn is_standard(self) -> bool {
        self.name == STANDARD
    }

    /// The path by which the file is opened for reading. A regular file that is standard input is read from its beginning.
    pub fn path_to_read(self) -> &'a str {
        if self.is_standard() {
            STANDARD_INPUT
        } else {
            self.name
        }
    }

    /// The path by which the file is opened for writing.
    pub fn path_to_write(self) -> &'a str {
        if self.is_standard() {
            STANDARD_OUTPUT
        } else {
            self.name
        }
    }
}
