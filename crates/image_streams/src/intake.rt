//! Devices that give bytes.
ghost use Rattle.std.specs.Prelude.{◌≡◌, ◌<◌, ◌≤◌, ◌||◌, ◌*◌, ◌^◌, ℕ, List, Bool, Option, None, length, take, IsTrue, IfOk, IfSome, IsErr, is_err};
ghost use Rattle.std.specs.Io.KnownBytes.{Consumes, IsAtEnd, ReadConsumes};
ghost use Rattle.image_streams.specs.Body.{IsBody, body_words};

use crate::{Body, BodySize, Fault};
use std::alloc::Global;
use std::io::Read;
use thiserror::Error;

/// A device failed. It is not asked again.
#[derive(Debug, Clone, Copy, PartialEq, Eq, Error)]
#[error("the device failed")]
pub struct Failed;

impl From<Failed> for Fault {
    ghost use Rattle.std.specs.Prelude.{◌≡◌};
    ghost use Rattle.image_streams.specs.declared.fault.Fault.TheVariants.{Io};

    ghost from_gives = { λ _ fault. fault ≡ Io };

    fn from(_failed: Failed) -> Fault {
        Fault::Io
    }
}

/// A device that gives bytes, in any pieces.
///
/// A contract sees the bytes that are `left`, if they are known, and whether the device `has_failed`.
pub trait Intake {
    ghost left: { Self → Option (List ℕ) };

    ghost has_failed: { Self → Bool };

    /// Takes bytes into the start of the buffer and returns how many. It returns 0 for a buffer with room only if no
    /// byte is left. A call that returns [`Failed`] takes no byte, and all later calls do the same.
    fn take(&mut self, buffer: &mut [u8]) -> Result<usize, Failed>
        ensures within { IfOk result (λ n. n ≤ length buffer.new) }
        ensures bytes { ReadConsumes (left self.old) (left self.new) result buffer.new }
        ensures failed { has_failed self.new ≡ is_err result }
        ensures stays_failed { IsTrue (has_failed self.old) → IsErr result };

    /// Whether a call has returned [`Failed`].
    fn failed(&self) -> bool
        ensures { result ≡ has_failed self.now };

    /// Takes a whole body of this size at once, as a file does that several threads read. A device that can't do that,
    /// which is the default, or doesn't succeed, takes nothing and returns `None`.
    fn take_body(&mut self, _alloc: Global, _size: BodySize) -> Option<Body>
        requires log { _size.region_log ≤ 20 }
        requires few { body_words _size ≤ 137438953472 }
        ensures taken { IfSome result (IsBody _size (left self.old) (left self.new)) }
        ensures none { result ≡ None → left self.new ≡ left self.old }
        ensures failed { has_failed self.new ≡ has_failed self.old }
    {
        None
    }
}

/// Fills the buffer as far as the device has bytes, and returns how many arrived.
pub fn fill<R: Intake>(reader: &mut R, buffer: &mut [u8]) -> Result<usize, Failed>
    ensures within { IfOk result (λ n. n ≤ length buffer.new) }
    ensures bytes { IfOk result (λ n. Consumes (R.left reader.old) (R.left reader.new) (take n buffer.new)) }
    ensures lost { (came : List ℕ) × Consumes (R.left reader.old) (R.left reader.new) came }
    ensures end { IfOk result (λ n. n < length buffer.new → IsAtEnd (R.left reader.new)) }
    ensures failed { R.has_failed reader.new ≡ (is_err result || R.has_failed reader.old) }
    ensures stays_failed { IsTrue (R.has_failed reader.old) → 0 < length buffer.old → IsErr result }
{
    let mut filled = 0;
    while filled < buffer.len() {
        let came = reader.take(&mut buffer[filled..])?;
        if came == 0 {
            break;
        }
        filled += came;
    }
    Ok(filled)
}

/// An intake from a reader of std. An error of the reader is [`Failed`], and the reader is not called again.
#[derive(Drop)]
pub struct FromRead<R: Read + Drop> {
    reader: R,
    failed: bool,
}

impl<R: Read + Drop> FromRead<R> {
    ghost use Rattle.std.specs.Prelude.{◌≡◌, false};
    ghost use Rattle.image_streams.specs.StdDevices.{reader_of, reader_has_failed};

    /// Wraps a reader, which counts as not failed.
    pub fn new(reader: R) -> FromRead<R>
        ensures reader { reader_of result ≡ reader }
        ensures failed { reader_has_failed result ≡ false }
    {
        FromRead {
            reader,
            failed: false,
        }
    }

    /// Returns the reader.
    pub fn into_inner(self) -> R
        ensures { result ≡ reader_of self }
    {
        let FromRead { reader, failed: _ } = self;
        reader
    }
}

impl<R: Read + Drop> Intake for FromRead<R> {
    ghost use Rattle.image_streams.specs.StdDevices.{reader_of, reader_has_failed};

    ghost left = { λ intake. R.remaining (reader_of intake) };

    ghost has_failed = { reader_has_failed };

    fn take(&mut self, buffer: &mut [u8]) -> Result<usize, Failed> {
        if self.failed {
            return Err(Failed);
        }
        match self.reader.read(buffer) {
            Ok(n) => Ok(n),
            Err(_) => {
                self.failed = true;
                Err(Failed)
            }
        }
    }

    fn failed(&self) -> bool {
        self.failed
    }
}
