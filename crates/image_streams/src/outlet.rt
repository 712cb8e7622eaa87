//! Devices that take bytes.
ghost use Rattle.std.specs.Prelude.{◌≡◌, ◌<◌, ◌≤◌, ◌||◌, ℕ, List, Bool, Option, length, take, replicate, IsTrue, IfOk, OnOk, IsErr, is_err, false};
ghost use Rattle.std.specs.Io.KnownBytes.{Appends, WriteAppends};
ghost use Rattle.image_streams.specs.Sending.{GivesZeros};

use crate::Failed;
use std::io::Write;

/// A device that takes bytes, in any pieces.
///
/// A contract sees the bytes that the device `took`, if they are known, and whether it `has_failed`.
pub trait Outlet {
    ghost took: { Self → Option (List ℕ) };

    ghost has_failed: { Self → Bool };

    /// Offers bytes to the device and returns how many of the first it took: at least one, unless `bytes` is empty. A
    /// call that returns [`Failed`] takes no byte, and all later calls do the same.
    fn give(&mut self, bytes: &[u8]) -> Result<usize, Failed>
        ensures within { IfOk result (λ n. n ≤ length bytes.now) }
        ensures some { IfOk result (λ n. 0 < length bytes.now → 0 < n) }
        ensures bytes { WriteAppends (took self.old) (took self.new) result bytes.now }
        ensures failed { has_failed self.new ≡ is_err result }
        ensures stays_failed { IsTrue (has_failed self.old) → IsErr result };

    /// Whether a call has returned [`Failed`].
    fn failed(&self) -> bool
        ensures { result ≡ has_failed self.now };

    /// Lets the device skip `_count` zeros, as a file does by a hole. A device that can't do that takes nothing and
    /// returns false, which is the default.
    fn leave_out_zeros(&mut self, _count: usize) -> bool
        ensures zeros { IsTrue result → Appends (took self.old) (took self.new) (replicate _count 0) }
        ensures none { result ≡ false → took self.new ≡ took self.old }
        ensures failed { has_failed self.new ≡ has_failed self.old }
    {
        false
    }
}

/// The most zeros that are given at a time.
const ROOM: usize = 65_536;

static ZEROS: [u8; ROOM] = [0; ROOM];

/// Gives the device `count` zeros, or lets it skip them. After [`Failed`] it has taken some of them.
pub(crate) fn give_zeros<W: Outlet>(writer: &mut W, count: usize) -> Result<(), Failed>
    ensures { GivesZeros W.took W.has_failed writer.old writer.new count result }
{
    if writer.leave_out_zeros(count) {
        return Ok(());
    }
    give_each_zero(writer, count)
}

/// Gives the device `count` zeros. After [`Failed`] it has taken some of them.
fn give_each_zero<W: Outlet>(writer: &mut W, count: usize) -> Result<(), Failed>
    ensures { GivesZeros W.took W.has_failed writer.old writer.new count result }
{
    let mut given = 0;
    while given < count {
        given += writer.give(&ZEROS[..ROOM.min(count - given)])?;
    }
    Ok(())
}

/// Gives the device all of the bytes. After [`Failed`] it has taken a prefix of them.
pub fn give_all<W: Outlet>(writer: &mut W, bytes: &[u8]) -> Result<(), Failed>
    ensures bytes { OnOk result (Appends (W.took writer.old) (W.took writer.new) bytes.now) }
    ensures beginning { (n : ℕ) × Appends (W.took writer.old) (W.took writer.new) (take n bytes.now) }
    ensures failed { W.has_failed writer.new ≡ (is_err result || W.has_failed writer.old) }
    ensures stays_failed { IsTrue (W.has_failed writer.old) → 0 < length bytes.now → IsErr result }
{
    let mut given = 0;
    while given < bytes.len() {
        given += writer.give(&bytes[given..])?;
    }
    Ok(())
}

/// An outlet to a writer of std. If the writer returns an error, or takes none of some bytes, that is [`Failed`], and
/// the writer is not called again.
#[derive(Drop)]
pub struct ToWrite<W: Write + Drop> {
    writer: W,
    failed: bool,
}

impl<W: Write + Drop> ToWrite<W> {
    ghost use Rattle.std.specs.Prelude.{◌≡◌, false};
    ghost use Rattle.image_streams.specs.StdDevices.{writer_of, writer_has_failed};

    /// Wraps a writer, which counts as not failed.
    pub fn new(writer: W) -> ToWrite<W>
        ensures writer { writer_of result ≡ writer }
        ensures failed { writer_has_failed result ≡ false }
    {
        ToWrite {
            writer,
            failed: false,
        }
    }

    /// Returns the writer.
    pub fn into_inner(self) -> W
        ensures { result ≡ writer_of self }
    {
        let ToWrite { writer, failed: _ } = self;
        writer
    }
}

impl<W: Write + Drop> Outlet for ToWrite<W> {
    ghost use Rattle.image_streams.specs.StdDevices.{writer_of, writer_has_failed};

    ghost took = { λ outlet. W.contents (writer_of outlet) };

    ghost has_failed = { writer_has_failed };

    fn give(&mut self, bytes: &[u8]) -> Result<usize, Failed> {
        if self.failed {
            return Err(Failed);
        }
        match self.writer.write(bytes) {
            Ok(n) if n > 0 || bytes.is_empty() => Ok(n),
            _ => {
                self.failed = true;
                Err(Failed)
            }
        }
    }

    fn failed(&self) -> bool {
        self.failed
    }
}
