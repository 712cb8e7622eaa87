//! Writes an image as a text.
ghost use Rattle.std.specs.Prelude.{◌≡◌, ◌++◌, ◌+◌, ◌-◌, ◌≤◌, ◌<◌, IfOk, OnOk, List, ℕ, IsTrue, codes, decimal};
ghost use Rattle.object_heap.specs.HeapImage.{HasSoundHeader, end_of, heap_words};
ghost use Rattle.heap_text.specs.Text.{are_equal, dead_text, dead_words_text, front_text, number_line, lines_from, number_text, numbers_text, object_text, reference_text, references_text, roots_line, roots_text, text_of};

use crate::word_row::{ROW, write_number, write_number_row, write_reference, write_reference_row};
use heap_image::{Image, image_is_valid};
use std::alloc::{AllocError, Global};

/// Returns the text of an image.
pub fn write_text(alloc: Global, image: &Image) -> Result<Vec<u8>, AllocError>
    ensures { IfOk result (λ text. text.items ≡ text_of image.now) }
{
    let mut text = Vec::new(alloc);
    write_front(&mut text, image)?;
    write_roots_line(&mut text, image)?;
    write_lines(&mut text, image)?;
    Ok(text)
}

/// Appends the lines before the words, except the line of the roots.
pub(crate) fn write_front(text: &mut Vec<u8>, image: &Image) -> Result<(), AllocError>
    ensures { OnOk result (text.new.items ≡ text.old.items ++ front_text image.now) }
{
    write_line(text, b"heap version", u64::from(image.version().number()))?;
    write_line(text, b"region-log", u64::from(image.region_log()))?;
    write_line(text, b"words", image.len())?;
    write_line(text, b"allowance", image.allowance())?;
    Ok(())
}

/// Appends a line of a name and a number.
fn write_line(text: &mut Vec<u8>, name: &[u8], number: u64) -> Result<(), AllocError>
    ensures { OnOk result (text.new.items ≡ text.old.items ++ number_line name.now number) }
{
    text.extend_from_slice(name)?;
    text.extend_from_slice(b" ")?;
    write_number(text, number)?;
    text.extend_from_slice(b"\n")
}

/// Appends the line of the roots, where the version has them.
pub(crate) fn write_roots_line(text: &mut Vec<u8>, image: &Image) -> Result<(), AllocError>
    ensures { OnOk result (text.new.items ≡ text.old.items ++ roots_line image.now) }
{
    if image.version().has_roots() {
        write_roots(text, image.roots())
    } else {
        Ok(())
    }
}

/// Appends a line of these roots.
fn write_roots(text: &mut Vec<u8>, roots: &[u64]) -> Result<(), AllocError>
    ensures { OnOk result (text.new.items ≡ text.old.items ++ roots_text roots.now) }
{
    text.extend_from_slice(b"roots")?;
    for root in roots {
        write_reference(text, *root)?;
    }
    text.extend_from_slice(b"\n")
}

/// Appends a line for each object and each dead run.
fn write_lines(text: &mut Vec<u8>, image: &Image) -> Result<(), AllocError>
    ensures { OnOk result (text.new.items ≡ text.old.items ++ lines_from image.now 0 image.now.live) }
{
    let mut from = 0;
    for place in image.live() {
        write_dead(text, image, from, *place)?;
        from = write_object(text, image, *place)?;
    }
    write_dead(text, image, from, image.len())
}

/// Appends the line of an object, and returns the end of the object.
pub(crate) fn write_object(text: &mut Vec<u8>, image: &Image, place: u64) -> Result<u64, AllocError>
    requires { HasSoundHeader image.now place }
    ensures text { OnOk result (text.new.items ≡ text.old.items ++ object_text image.now place) }
    ensures end { IfOk result (λ end. end ≡ end_of image.now place) }
{
    image_is_valid(image);
    let behind = place + 1 + image.references_at(place);
    let size = image.size_at(place);
    let end = place + size;
    write_beginning(text, place, b" object ", size)?;
    write_references(text, image, place + 1, behind)?;
    write_numbers(text, image, b" data", behind, end)?;
    text.extend_from_slice(b"\n")?;
    Ok(end)
}

/// Appends the line of the dead words from `from` up to `to`, if there are any.
pub(crate) fn write_dead(
    text: &mut Vec<u8>,
    image: &Image,
    from: u64,
    to: u64,
) -> Result<(), AllocError>
    requires { to ≤ heap_words image.now }
    ensures { OnOk result (text.new.items ≡ text.old.items ++ dead_text image.now from to) }
{
    if to <= from {
        return Ok(());
    }
    write_beginning(text, from, b" dead ", to - from)?;
    if are_equal(image, from, to) {
        text.extend_from_slice(b" of ")?;
        write_number(text, image.word(from))?;
    } else {
        write_numbers(text, image, b" words", from, to)?;
    }
    text.extend_from_slice(b"\n")
}

/// Appends an address, a kind and a number of words, with which a line begins.
fn write_beginning(
    text: &mut Vec<u8>,
    place: u64,
    kind: &[u8],
    count: u64,
) -> Result<(), AllocError>
    ensures { OnOk result (text.new.items ≡ text.old.items
        ++ (codes "@" ++ (decimal place ++ (kind.now ++ decimal count)))) }
{
    text.extend_from_slice(b"@")?;
    write_number(text, place)?;
    text.extend_from_slice(kind)?;
    write_number(text, count)
}

/// Whether the words from `from` up to `to` are all equal.
fn are_equal(image: &Image, from: u64, to: u64) -> bool
    requires some { from < to }
    requires inside { to ≤ heap_words image.now }
    ensures { result ≡ are_equal image.now from to }
{
    let first = image.word(from);
    for place in from..to {
        if image.word(place) != first {
            return false;
        }
    }
    true
}

/// Appends the words from `from` up to `to` as references, if there are any.
fn write_references(text: &mut Vec<u8>, image: &Image, from: u64, to: u64) -> Result<(), AllocError>
    requires { to ≤ heap_words image.now }
    ensures { OnOk result (text.new.items ≡ text.old.items ++ references_text image.now from to) }
{
    if to <= from {
        return Ok(());
    }
    text.extend_from_slice(b" refs")?;
    let mut place = from;
    while place < to {
        let end = place + ROW.min(to - place);
        write_reference_row(text, image, place, end)?;
        place = end;
    }
    Ok(())
}

/// Appends a name and the words from `from` up to `to` as numbers, if there are any.
fn write_numbers(
    text: &mut Vec<u8>,
    image: &Image,
    name: &[u8],
    from: u64,
    to: u64,
) -> Result<(), AllocError>
    requires { to ≤ heap_words image.now }
    ensures { OnOk result (text.new.items ≡ text.old.items ++ numbers_text image.now name.now from to) }
{
    if to <= from {
        return Ok(());
    }
    text.extend_from_slice(name)?;
    let mut place = from;
    while place < to {
        let end = place + ROW.min(to - place);
        write_number_row(text, image, place, end)?;
        place = end;
    }
    Ok(())
}
