//! A buffer for the numbers of a body while they are written.
ghost use Rattle.std.specs.Prelude.{◌≡◌, ◌≤◌, ◌*◌, ◌++◌, ◌||◌, [], length, OnOk, OnErr, is_err};
ghost use Rattle.std.specs.Io.KnownBytes.{Appends};
ghost use Rattle.image_streams.specs.Numbers.{numbers};

use crate::numbers::write_all;
use crate::outlet::give_zeros;
use crate::{Failed, Outlet, give_all};
use raw_region::Region;

/// Writes the 64-bit numbers of a body, in pieces as large as the borrowed buffer.
#[derive(Drop)]
pub struct Outgoing<'a> {
    bytes: &'a mut [u8],
    /// The buffered numbers are the first `end` of `bytes`.
    end: usize,
}

impl<'a> Outgoing<'a> {
    ghost use Rattle.image_streams.specs.Outgoing.{HasRoom, HasRoomForMore, Buffers, unsent_bytes, Sends, TakesBeginning};

    /// An empty buffer in `bytes`.
    pub fn new(bytes: &'a mut [u8]) -> Outgoing<'a>
        requires { 8 ≤ length bytes.old }
        ensures held { unsent_bytes result ≡ [] }
        ensures room { HasRoom result }
    {
        Outgoing { bytes, end: 0 }
    }

    /// Buffers numbers, and flushes whenever the buffer is full.
    pub fn write<W: Outlet>(&mut self, writer: &mut W, words: &[u64]) -> Result<(), Failed>
        requires { HasRoom self.old }
        ensures room { OnOk result (HasRoom self.new) }
        ensures bytes { OnOk result
            (Sends (W.took writer.old) (W.took writer.new) (unsent_bytes self.old) (unsent_bytes self.new) (numbers words.now)) }
        ensures beginning { OnErr result
            (TakesBeginning (W.took writer.old) (W.took writer.new) (unsent_bytes self.old ++ numbers words.now)) }
        ensures failed { W.has_failed writer.new ≡ (is_err result || W.has_failed writer.old) }
    {
        let mut done = 0;
        while done < words.len() {
            self.make_room(writer)?;
            done += self.buffer(&words[done..]);
        }
        Ok(())
    }

    /// Writes the words of a region. Those of a cleared region are not read: the writer gets zeros instead, after a
    /// flush.
    pub fn write_region<W: Outlet>(&mut self, writer: &mut W, region: &Region) -> Result<(), Failed>
        requires { HasRoom self.old }
        ensures room { OnOk result (HasRoom self.new) }
        ensures bytes { OnOk result
            (Sends (W.took writer.old) (W.took writer.new) (unsent_bytes self.old) (unsent_bytes self.new) (numbers region.now)) }
        ensures beginning { OnErr result
            (TakesBeginning (W.took writer.old) (W.took writer.new) (unsent_bytes self.old ++ numbers region.now)) }
        ensures failed { W.has_failed writer.new ≡ (is_err result || W.has_failed writer.old) }
    {
        if !region.is_cleared() {
            return self.write(writer, region.words());
        }
        self.flush(writer)?;
        give_zeros(writer, 8 * region.len())
    }

    /// Flushes if the buffer is full.
    fn make_room<W: Outlet>(&mut self, writer: &mut W) -> Result<(), Failed>
        requires { HasRoom self.old }
        ensures room { OnOk result (HasRoomForMore self.new) }
        ensures bytes { OnOk result
            (Sends (W.took writer.old) (W.took writer.new) (unsent_bytes self.old) (unsent_bytes self.new) []) }
        ensures beginning { OnErr result (TakesBeginning (W.took writer.old) (W.took writer.new) (unsent_bytes self.old)) }
        ensures failed { W.has_failed writer.new ≡ (is_err result || W.has_failed writer.old) }
    {
        if self.end < self.bytes.len() / 8 {
            return Ok(());
        }
        self.flush(writer)
    }

    /// Gives the buffered numbers to the writer.
    pub fn flush<W: Outlet>(&mut self, writer: &mut W) -> Result<(), Failed>
        requires { HasRoom self.old }
        ensures room { OnOk result (HasRoom self.new) }
        ensures empty { OnOk result (self.new.end ≡ 0) }
        ensures bytes { OnOk result (Appends (W.took writer.old) (W.took writer.new) (unsent_bytes self.old)) }
        ensures beginning { OnErr result (TakesBeginning (W.took writer.old) (W.took writer.new) (unsent_bytes self.old)) }
        ensures failed { W.has_failed writer.new ≡ (is_err result || W.has_failed writer.old) }
    {
        let held = 8 * self.end;
        give_all(writer, &self.bytes[..held])?;
        self.end = 0;
        Ok(())
    }

    /// Buffers as many of the numbers as there is room for, and returns how many.
    fn buffer(&mut self, words: &[u64]) -> usize
        requires { HasRoom self.old }
        ensures { Buffers self.old self.new words.now result }
    {
        let n = (self.bytes.len() / 8 - self.end).min(words.len());
        let to = 8 * self.end;
        write_all(&words[..n], &mut self.bytes[to..to + 8 * n]);
        self.end += n;
        n
    }
}
