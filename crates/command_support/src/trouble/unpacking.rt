//! Commands that read what gzip has packed.
use super::shell_word::ShellWord;
use crate::files::file_word::{FileWord, Role};
use crate::files::named_files::NamedFiles;
use std::fmt;

/// The command that reads a packed dump, among the files of the command that refused it.
#[derive(Clone, Copy)]
pub(crate) struct Unpacking<'a> {
    packed: FileWord<'a>,
    other: FileWord<'a>,
}

impl<'a> Unpacking<'a> {
    /// The command for the packed file of this role, if there is one: the other file of two dumps can't be standard input, too.
    pub(crate) fn of(named: NamedFiles<'a>, role: Option<Role>) -> Option<Unpacking<'a>> {
        let packed = named.file(role)?;
        let other = named.file(Some(partner(packed.role)?))?;
        if other.is_standard() && other.role != Role::Image {
            return None;
        }
        Some(Unpacking { packed, other })
    }
}

impl fmt::Display for Unpacking<'_> {
    fn fmt<W: fmt::Write>(&self, f: &mut fmt::Formatter<W>) -> fmt::Result {
        let (packed, other) = (ShellWord(self.packed.name), ShellWord(self.other.name));
        write!(f, "gunzip -c {packed} | pcompact ")?;
        match self.packed.role {
            Role::Before => write!(f, "compare - {other}"),
            Role::After => write!(f, "compare {other} -"),
            _ => write!(f, "import - {other}"),
        }
    }
}

/// The role of the other file of the command that reads a dump in this role.
fn partner(role: Role) -> Option<Role> {
    match role {
        Role::Dump => Some(Role::Image),
        Role::Before => Some(Role::After),
        Role::After => Some(Role::Before),
        _ => None,
    }
}
