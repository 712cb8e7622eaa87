//! File names in commands that messages propose.
use super::printable::Printable;
use std::fmt;

/// A file name as a word of a shell's command: in quotes, if a shell would take it for something else. A character that isn't
/// printable is shown as its escape.
#[derive(Clone, Copy)]
pub struct ShellWord<'a>(pub &'a str);

impl fmt::Display for ShellWord<'_> {
    fn fmt<W: fmt::Write>(&self, f: &mut fmt::Formatter<W>) -> fmt::Result {
        let word = self.0;
        if !word.is_empty() && word.chars().all(is_bare) {
            return f.write_str(word);
        }
        f.write_char('\'')?;
        for part in word.split_inclusive('\'') {
            write_part(part, f)?;
        }
        f.write_char('\'')
    }
}

/// Whether a shell takes a character as it is, wherever it stands.
fn is_bare(character: char) -> bool {
    character.is_ascii_alphanumeric() || "-_./,:=@%+".contains(character)
}

/// Writes a part of a word in quotes, whose last character may be a quote.
fn write_part<W: fmt::Write>(part: &str, f: &mut fmt::Formatter<W>) -> fmt::Result {
    match part.strip_suffix('\'') {
        Some(before) => write!(f, "{}'\\''", Printable(before)),
        None => write!(f, "{}", Printable(part)),
    }
}
