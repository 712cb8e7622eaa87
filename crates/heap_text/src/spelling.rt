//! Compares a text with that of an image, an object at a time.
ghost use Rattle.std.specs.Prelude.{◌≡◌, ◌≤◌, ◌++◌, ⊤, ℕ, List, IfOk, IfErr, IsOk, OnOk, length};
ghost use Rattle.heap_text.specs.Parsing.{AcceptsText};
ghost use Rattle.heap_text.specs.Text.{lines_from, text_of};
ghost use Rattle.heap_text.specs.TextLines.{IsWithin};

use crate::error::TextError;
use crate::expected::Expected;
use crate::lines::line_of_place;
use crate::writing::{write_dead, write_front, write_object, write_roots_line};
use heap_image::Image;
use std::alloc::Global;

/// Rejects a text that isn't that of the image, at its first byte that differs.
pub(crate) fn check_spelling(alloc: Global, text: &[u8], image: &Image) -> Result<(), TextError>
    ensures same { OnOk result (text.now ≡ text_of image.now) }
    ensures line { IfErr result (λ error. IsWithin text.now error) }
    ensures accepts { text.now ≡ text_of image.now → AcceptsText result (λ _. ⊤) }
{
    let mut lines = Vec::new(alloc);
    write_front(&mut lines, image)?;
    write_roots_line(&mut lines, image)?;
    let rest = rest_after(text, text, lines.as_slice())?;
    check_heap_lines(text, rest, image, lines)
}

/// Rejects the rest of a text that isn't the lines of the words of the image.
fn check_heap_lines(
    text: &[u8],
    after_front: &[u8],
    image: &Image,
    mut lines: Vec<u8>,
) -> Result<(), TextError>
    requires { length after_front.now ≤ length text.now }
    ensures same { OnOk result (after_front.now ≡ lines_from image.now 0 image.now.live) }
    ensures line { IfErr result (λ error. IsWithin text.now error) }
    ensures accepts { after_front.now ≡ lines_from image.now 0 image.now.live → AcceptsText result (λ _. ⊤) }
{
    let mut rest = after_front;
    let mut from = 0;
    for place in image.live() {
        lines.clear();
        write_dead(&mut lines, image, from, *place)?;
        from = write_object(&mut lines, image, *place)?;
        rest = rest_after(text, rest, lines.as_slice())?;
    }
    lines.clear();
    write_dead(&mut lines, image, from, image.len())?;
    check_last_line(text, rest, lines.as_slice())
}

/// Rejects the rest of a text that isn't this line, or nothing if the line is empty.
fn check_last_line(text: &[u8], rest: &[u8], line: &[u8]) -> Result<(), TextError>
    requires { length rest.now ≤ length text.now }
    ensures same { OnOk result (rest.now ≡ line.now) }
    ensures line { IfErr result (λ error. IsWithin text.now error) }
    ensures accepts { rest.now ≡ line.now → AcceptsText result (λ _. ⊤) }
{
    if rest == line {
        return Ok(());
    }
    Err(difference(text, rest, line))
}

/// Returns what follows these lines, with which the rest of a text has to begin.
fn rest_after<'a>(text: &[u8], rest: &'a [u8], lines: &[u8]) -> Result<&'a [u8], TextError>
    requires { length rest.now ≤ length text.now }
    ensures rest { IfOk result (λ after. rest.now ≡ lines.now ++ after.now) }
    ensures line { IfErr result (λ error. IsWithin text.now error) }
    ensures accepts { (more : List ℕ) → rest.now ≡ lines.now ++ more → AcceptsText result (λ after. after.now ≡ more) }
{
    match rest.strip_prefix(lines) {
        Some(after) => Ok(after),
        None => Err(difference(text, rest, lines)),
    }
}

/// The error for the rest of a text that should begin with these lines.
fn difference(text: &[u8], rest: &[u8], lines: &[u8]) -> TextError
    requires { length rest.now ≤ length text.now }
    ensures { IsWithin text.now result }
{
    let place = text.len() - rest.len() + common_prefix(rest, lines);
    TextError::Line(line_of_place(text, place), Expected::Spelling)
}

/// The length of the longest common prefix.
pub(crate) fn common_prefix<T: PartialEq + Copy>(one: &[T], other: &[T]) -> usize
    ensures { result ≤ length one.now }
{
    for (place, left) in one.iter().enumerate() {
        match other.get(place) {
            Some(right) if *left == *right => {}
            _ => return place,
        }
    }
    one.len()
}
