use super::file_word::{FileWord, Role};

/// The files that a command line names: at most three, each with a role of its own.
#[derive(Clone, Copy)]
pub struct NamedFiles<'a> {
    files: [Option<FileWord<'a>>; 3],
}

impl<'a> NamedFiles<'a> {
    /// No file.
    pub fn none() -> NamedFiles<'a> {
        NamedFiles { files: [None; 3] }
    }

    /// One file.
    pub fn one(role: Role, name: &'a str) -> NamedFiles<'a> {
        let file = FileWord::new(role, name);
        NamedFiles {
            files: [Some(file), None, None],
        }
    }

    /// Two files.
    pub fn two(first: (Role, &'a str), second: (Role, &'a str)) -> NamedFiles<'a> {
        NamedFiles::one(first.0, first.1).with(second.0, Some(second.1))
    }

    /// These files and another one, if there is one. A file beyond the third is left out.
    pub fn with(self, role: Role, name: Option<&'a str>) -> NamedFiles<'a> {
        let [first, second, third] = self.files;
        let file = name.map(|name| FileWord::new(role, name));
        NamedFiles {
            files: match second {
                None => [first, file, third],
                Some(_) => [first, second, third.or(file)],
            },
        }
    }

    /// The file of this role, if there is one.
    pub fn file(self, role: Option<Role>) -> Option<FileWord<'a>> {
        let [first, second, third] = self.files;
        let has_role = |file: &FileWord<'_>| Some(file.role) == role;
        first
            .filter(has_role)
            .or(second.filter(has_role))
            .or(third.filter(has_role))
    }
}
