//! Writes a row of words from its last one to its first, as the digits of a number come from the last one.
ghost use Rattle.std.specs.Prelude.{◌≡◌, ◌++◌, ◌+◌, ◌≤◌, OnOk, length, drop, flat_map, decimal};
ghost use Rattle.object_heap.specs.HeapImage.{heap_words, word_at};
ghost use Rattle.heap_text.specs.Text.{addresses_between, number_text, reference_text};

use heap_image::Image;
use itoa::write_digits;
use std::alloc::AllocError;

/// The most words of a row.
pub(crate) const ROW: u64 = 16;

/// The most bytes of a row: for each word a space, an at sign and 20 digits.
const ROW_BYTES: usize = 352;

/// Appends the words from `from` up to `to` as numbers.
pub(crate) fn write_number_row(
    text: &mut Vec<u8>,
    image: &Image,
    from: u64,
    to: u64,
) -> Result<(), AllocError>
    requires ordered { from ≤ to }
    requires few { to ≤ from + 16 }
    requires inside { to ≤ heap_words image.now }
    ensures { OnOk result (text.new.items ≡ text.old.items
        ++ flat_map (λ a. number_text (word_at image.now a)) (addresses_between from to)) }
{
    let mut row = [0u8; ROW_BYTES];
    let mut begin = ROW_BYTES;
    let mut place = to;
    while place > from {
        place -= 1;
        begin = put_number(&mut row, begin, image.word(place));
    }
    text.extend_from_slice(&row[begin..])
}

/// Appends the words from `from` up to `to` as references.
pub(crate) fn write_reference_row(
    text: &mut Vec<u8>,
    image: &Image,
    from: u64,
    to: u64,
) -> Result<(), AllocError>
    requires ordered { from ≤ to }
    requires few { to ≤ from + 16 }
    requires inside { to ≤ heap_words image.now }
    ensures { OnOk result (text.new.items ≡ text.old.items
        ++ flat_map (λ a. reference_text (word_at image.now a)) (addresses_between from to)) }
{
    let mut row = [0u8; ROW_BYTES];
    let mut begin = ROW_BYTES;
    let mut place = to;
    while place > from {
        place -= 1;
        begin = put_reference(&mut row, begin, image.word(place));
    }
    text.extend_from_slice(&row[begin..])
}

/// Puts a space and a number before `end`, and returns where they begin.
fn put_number(row: &mut [u8], end: usize, number: u64) -> usize
    requires room { 22 ≤ end }
    requires inside { end ≤ length row.old }
    ensures before { result ≤ end }
    ensures near { end ≤ result + 22 }
    ensures text { drop result row.new ≡ number_text number ++ drop end row.old }
{
    let begin = write_digits(number, row, end) - 1;
    row[begin] = b' ';
    begin
}

/// Puts a space and a reference or a root before `end`, and returns where they begin.
fn put_reference(row: &mut [u8], end: usize, reference: u64) -> usize
    requires room { 22 ≤ end }
    requires inside { end ≤ length row.old }
    ensures before { result ≤ end }
    ensures near { end ≤ result + 22 }
    ensures text { drop result row.new ≡ reference_text reference ++ drop end row.old }
{
    if reference == 0 {
        return put_null(row, end);
    }
    let begin = write_digits(reference - 1, row, end) - 2;
    row[begin] = b' ';
    row[begin + 1] = b'@';
    begin
}

/// Puts ` null` before `end`, and returns where it begins.
fn put_null(row: &mut [u8], end: usize) -> usize
    requires room { 22 ≤ end }
    requires inside { end ≤ length row.old }
    ensures begin { result + 5 ≡ end }
    ensures text { drop result row.new ≡ reference_text 0 ++ drop end row.old }
{
    let begin = end - 5;
    row[begin..end].copy_from_slice(b" null");
    begin
}

/// Appends a number.
pub(crate) fn write_number(text: &mut Vec<u8>, number: u64) -> Result<(), AllocError>
    ensures { OnOk result (text.new.items ≡ text.old.items ++ decimal number) }
{
    let mut digits = [0u8; 20];
    let begin = write_digits(number, &mut digits, 20);
    text.extend_from_slice(&digits[begin..])
}

/// Appends a reference or a root.
pub(crate) fn write_reference(text: &mut Vec<u8>, reference: u64) -> Result<(), AllocError>
    ensures { OnOk result (text.new.items ≡ text.old.items ++ reference_text reference) }
{
    let mut row = [0u8; 22];
    let begin = put_reference(&mut row, 22, reference);
    text.extend_from_slice(&row[begin..])
}
