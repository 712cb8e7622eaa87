//! A buffer for the numbers of a body while they are read.
ghost use Rattle.std.specs.Prelude.{◌≡◌, ◌<◌, ◌≤◌, ◌+◌, ◌*◌, ◌^◌, All, IsTrue, length, take, OnOk, slice_range};
ghost use Rattle.std.specs.Io.KnownBytes.{Consumes};
ghost use Rattle.image_streams.specs.Numbers.{numbers};
ghost use Rattle.image_streams.specs.Reading.{IsOfDevice, Takes};

use crate::numbers::read_all;
use crate::{Fault, Intake, fill};

/// Reads the 64-bit numbers of a body. It requests their bytes in pieces as large as the borrowed buffer, and no byte
/// after them.
#[derive(Drop)]
pub(crate) struct Incoming<'a> {
    bytes: &'a mut [u8],
    /// The buffered numbers are those from `start` to `end` of `bytes`.
    start: usize,
    end: usize,
    /// The number of numbers that are still to be requested.
    due: usize,
}

impl<'a> Incoming<'a> {
    ghost use Rattle.image_streams.specs.Incoming.{IsEmptyFor, IsInRange, Decodes};
    ghost use Rattle.image_streams.specs.Reading.{Draws, IsDue, Reads, TopsUp};

    /// An empty buffer in `bytes` for `due` numbers.
    pub(crate) fn new(bytes: &'a mut [u8], due: usize) -> Incoming<'a>
        requires { 8 ≤ length bytes.old }
        ensures { IsEmptyFor due result }
    {
        Incoming {
            bytes,
            start: 0,
            end: 0,
            due,
        }
    }

    /// Reads the next numbers into `words`, whose contents are unspecified after a fault.
    pub(crate) fn read<R: Intake>(&mut self, reader: &mut R, words: &mut [u64]) -> Result<(), Fault>
        requires { IsDue self.old (length words.old) }
        ensures words { OnOk result (Reads R.left self.old self.new reader.old reader.new words.new) }
        ensures fit { All (λ w. w < 2 ^ 64) words.new }
        ensures device { Draws IsOfDevice R.left R.has_failed self.old reader.old reader.new result }
    {
        let mut done = 0;
        while done < words.len() {
            self.top_up(reader)?;
            done += self.decode(&mut words[done..]);
        }
        Ok(())
    }

    /// If the buffer is empty, requests as many numbers as it has room for.
    pub(crate) fn top_up<R: Intake>(&mut self, reader: &mut R) -> Result<(), Fault>
        requires { IsInRange self.old }
        ensures ready { OnOk result (TopsUp R.left self.old self.new reader.old reader.new) }
        ensures device { Draws IsOfDevice R.left R.has_failed self.old reader.old reader.new result }
    {
        if self.start < self.end {
            return Ok(());
        }
        let n = self.due.min(self.bytes.len() / 8);
        fill_first(reader, self.bytes, 8 * n)?;
        self.start = 0;
        self.end = n;
        self.due -= n;
        Ok(())
    }

    /// Whether the next `count` numbers are buffered.
    pub(crate) fn holds(&self, count: usize) -> bool
        requires { IsInRange self.now }
        ensures { IsTrue result → self.now.start + count ≤ self.now.end }
    {
        count <= self.end - self.start
    }

    /// The bytes of the next `count` numbers, which are buffered.
    pub(crate) fn next_bytes(&self, count: usize) -> &[u8]
        requires in_range { IsInRange self.now }
        requires held { self.now.start + count ≤ self.now.end }
        ensures bytes { result.now ≡ slice_range self.now.bytes.now (8 * self.now.start) (8 * (self.now.start + count)) }
        ensures length { length result.now ≡ 8 * count }
    {
        let from = 8 * self.start;
        &self.bytes[from..from + 8 * count]
    }

    /// Takes the next `count` numbers, which are buffered, out of the buffer.
    pub(crate) fn skip(&mut self, count: usize)
        requires in_range { IsInRange self.old }
        requires held { self.old.start + count ≤ self.old.end }
        ensures start { self.new.start ≡ self.old.start + count }
        ensures end { self.new.end ≡ self.old.end }
        ensures due { self.new.due ≡ self.old.due }
        ensures bytes { self.new.bytes.now ≡ self.old.bytes.now }
    {
        self.start += count;
    }

    /// Moves as many buffered numbers into `words` as fit, and returns how many.
    fn decode(&mut self, words: &mut [u64]) -> usize
        requires { IsInRange self.old }
        ensures { Decodes self.old self.new words.new result }
    {
        let n = (self.end - self.start).min(words.len());
        self.peek(&mut words[..n]);
        self.start += n;
        n
    }

    /// Decodes the first of the buffered numbers.
    fn peek(&self, words: &mut [u64])
        requires in_range { IsInRange self.now }
        requires held { self.now.start + length words.old ≤ self.now.end }
        ensures { numbers words.new ≡ slice_range self.now.bytes.now (8 * self.now.start) (8 * (self.now.start + length words.old)) }
    {
        let from = 8 * self.start;
        read_all(&self.bytes[from..from + 8 * words.len()], words);
    }
}

/// Fills the first `count` bytes of a buffer.
fn fill_first<R: Intake>(reader: &mut R, bytes: &mut [u8], count: usize) -> Result<(), Fault>
    requires { count ≤ length bytes.old }
    ensures bytes { OnOk result (Consumes (R.left reader.old) (R.left reader.new) (take count bytes.new)) }
    ensures device { Takes IsOfDevice R.left R.has_failed (R.left reader.old) count reader.old reader.new result }
{
    let came = fill(reader, &mut bytes[..count])?;
    if came < count {
        return Err(Fault::TruncatedBody);
    }
    Ok(())
}
