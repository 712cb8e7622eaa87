//! Finds the line of a byte or of an address.
ghost use Rattle.std.specs.Prelude.{◌+◌, ◌≤◌, ◌<◌, IfSome, length};
ghost use Rattle.heap_text.specs.TextLines.{IsLineOf, ended_lines};

use crate::line_parser::tokens::{Tokens, parse_address};

/// The bytes before the first newline, and those after it.
fn first_line(text: &[u8]) -> Option<(&[u8], &[u8])>
    ensures rest { IfSome result (λ parts. ended_lines parts.1.now + 1 ≤ ended_lines text.now) }
    ensures less { IfSome result (λ parts. length parts.1.now < length text.now) }
{
    for (i, byte) in text.iter().enumerate() {
        if *byte == b'\n' {
            return Some((&text[..i], &text[i + 1..]));
        }
    }
    None
}

/// The number of the line that has the byte at `place`, or of the line after the last if there is no such byte.
pub(crate) fn line_of_place(text: &[u8], place: usize) -> u64
    requires { place ≤ length text.now }
    ensures { IsLineOf text.now result }
{
    let (before, _after) = text.split_at(place);
    1 + before.iter().filter(|byte| **byte == b'\n').count() as u64
}

/// The number of the line that has the word at this address, or 1 if no line has it.
pub(crate) fn line_of_address(text: &[u8], wanted: u64) -> u64
    ensures { IsLineOf text.now result }
{
    let mut found = 1u64;
    let mut line = 1u64;
    let mut rest = text;
    while let Some((bytes, after)) = first_line(rest) {
        let (place, _tokens) = Tokens::of(bytes);
        if matches!(parse_address(place), Some(first) if first <= wanted) {
            found = line;
        }
        line += 1;
        rest = after;
    }
    found
}
