//! Words of the command line in messages.
use std::fmt;

/// A word of the command line, shown on one line and with an escape for each character that isn't printable, as `\n`, `\x1b`
/// or `\u{202e}`. A backslash is shown as two.
#[derive(Clone, Copy)]
pub struct Printable<'a>(pub &'a str);

impl fmt::Display for Printable<'_> {
    fn fmt<W: fmt::Write>(&self, f: &mut fmt::Formatter<W>) -> fmt::Result {
        for character in self.0.chars() {
            write_printable(character, f)?;
        }
        Ok(())
    }
}

impl Printable<'_> {
    /// Whether it is shown as it is.
    pub fn is_plain(self) -> bool {
        self.0.chars().all(is_plain)
    }
}

/// Whether a character is shown as it is.
fn is_plain(character: char) -> bool {
    match character {
        '\\' => false,
        '\'' | '"' => true,
        _ => character.escape_debug().eq([character]),
    }
}

/// Writes a character, or the escape that stands for it.
fn write_printable<W: fmt::Write>(character: char, f: &mut fmt::Formatter<W>) -> fmt::Result {
    match character {
        '\'' | '"' => f.write_char(character),
        _ if character.is_ascii() => write!(f, "{}", (character as u8).escape_ascii()),
        _ => write!(f, "{}", character.escape_debug()),
    }
}
