//! Buffers the bytes of a dump.
ghost use Rattle.std.specs.Prelude.{◌≡◌, ◌<◌, ◌≤◌, ◌+◌, ◌-◌, ◌*◌, length, true, false, IfOk, OnOk, IsTrue, ◌≢◌};
ghost use Rattle.std.specs.Io.KnownBytes.{IsAtEnd};

use crate::error::{ImportError, Problem};
use heap_image::Intake;

/// The size of the buffer, and the most bytes that are requested at a time.
const ROOM: usize = 8192;

/// The next bytes of a dump, and how many of them belong to the current record.
#[derive(Drop)]
pub struct Window {
    bytes: [u8; ROOM],
    /// The bytes from `start` to `end` are buffered and unread.
    start: usize,
    end: usize,
    /// The offset of the next unread byte in the dump.
    offset: u64,
    /// How many bytes of the record are unread.
    left: u64,
    ghost ordered: { start ≤ end },
    ghost within: { end ≤ 8192 },
}

impl Window {
    ghost use Rattle.dump_records.specs.Window.{unread};

    /// Before the first byte.
    pub fn new() -> Window {
        Window {
            bytes: [0; ROOM],
            start: 0,
            end: 0,
            offset: 0,
            left: 0,
        }
    }

    /// The offset of the next unread byte in the dump.
    pub fn offset(&self) -> u64 {
        self.offset
    }

    /// How many bytes of the record are unread.
    pub fn left(&self) -> u64 {
        self.left
    }

    /// Begins a record of `length` bytes.
    pub fn begin(&mut self, length: u64) {
        self.left = length;
    }

    /// An error at the next byte.
    pub fn problem(&self, problem: Problem) -> ImportError
        ensures { result ≢ ImportError.Input }
    {
        ImportError::Malformed {
            offset: self.offset,
            problem,
        }
    }

    /// Whether the dump ends before the next byte.
    pub fn is_at_end<R: Intake>(&mut self, source: &mut R) -> Result<bool, ImportError>
        ensures end { result ≡ Ok true → IsAtEnd (R.left source.new) }
        ensures input { result ≡ Err ImportError.Input → IsTrue (R.has_failed source.new) }
    {
        Ok(!self.buffer(source, 1)?)
    }

    /// Buffers at least `count` unread bytes, and returns whether the dump has as many.
    fn buffer<R: Intake>(&mut self, source: &mut R, count: usize) -> Result<bool, ImportError>
        requires { count ≤ 8192 }
        ensures unread { result ≡ Ok true → count ≤ unread self.new }
        ensures left { self.new.left ≡ self.old.left }
        ensures end { result ≡ Ok false → IsAtEnd (R.left source.new) }
        ensures input { result ≡ Err ImportError.Input → IsTrue (R.has_failed source.new) }
    {
        if count <= self.end - self.start {
            return Ok(true);
        }
        self.make_room();
        while self.end < count {
            let came = source.take(&mut self.bytes[self.end..])?;
            if came == 0 {
                return Ok(false);
            }
            self.end += came;
        }
        Ok(true)
    }

    /// Moves the unread bytes to the front of the buffer.
    fn make_room(&mut self)
        ensures start { self.new.start ≡ 0 }
        ensures end { self.new.end ≡ self.old.end - self.old.start }
        ensures left { self.new.left ≡ self.old.left }
    {
        self.bytes.copy_within(self.start..self.end, 0);
        self.end -= self.start;
        self.start = 0;
    }

    /// Buffers at least `count` unread bytes. It is an error if the record or the dump has fewer.
    pub fn need<R: Intake>(&mut self, source: &mut R, count: usize) -> Result<(), ImportError>
        requires { count ≤ 8192 }
        ensures unread { OnOk result (count ≤ unread self.new) }
        ensures left { OnOk result (count ≤ self.new.left) }
        ensures input { result ≡ Err ImportError.Input → IsTrue (R.has_failed source.new) }
    {
        if self.left < count as u64 {
            return Err(self.problem(Problem::PastRecord));
        }
        if self.buffer(source, count)? {
            return Ok(());
        }
        let unread = (self.end - self.start) as u64;
        Err(ImportError::Malformed {
            offset: self.offset.saturating_add(unread),
            problem: Problem::Cut,
        })
    }

    /// The first `count` unread bytes.
    pub fn front(&self, count: usize) -> &[u8]
        requires { count ≤ unread self.now }
        ensures { length result.now ≡ count }
    {
        let (buffered, _) = self.bytes.split_at(self.end);
        let (_, unread) = buffered.split_at(self.start);
        &unread[..count]
    }

    /// Consumes `count` buffered bytes.
    pub fn pass(&mut self, count: usize)
        requires { count ≤ unread self.old }
    {
        self.start += count;
        self.offset = self.offset.saturating_add(count as u64);
        self.left = self.left.saturating_sub(count as u64);
    }

    /// Buffers at least one unit of `unit` bytes, and returns the number of bytes of whole units that are buffered,
    /// `most` at most.
    pub fn piece<R: Intake>(
        &mut self,
        source: &mut R,
        most: u64,
        unit: usize,
    ) -> Result<usize, ImportError>
        requires some { 1 ≤ unit }
        requires small { unit ≤ 8192 }
        requires room { unit ≤ most }
        ensures unread { IfOk result (λ count. count ≤ unread self.new) }
        ensures some { IfOk result (λ count. 1 ≤ count) }
        ensures within { IfOk result (λ count. count ≤ most) }
        ensures input { result ≡ Err ImportError.Input → IsTrue (R.has_failed source.new) }
    {
        self.need(source, unit)?;
        let unread = (self.end - self.start) as u64;
        let bytes = unread.min(most).min(self.left) as usize;
        Ok(bytes - bytes % unit)
    }

    /// Reads a number of this many bytes.
    pub fn number<R: Intake>(&mut self, source: &mut R, bytes: u8) -> Result<u64, ImportError>
        ensures input { result ≡ Err ImportError.Input → IsTrue (R.has_failed source.new) }
    {
        let count = usize::from(bytes);
        self.need(source, count)?;
        let number = big_endian(self.front(count));
        self.pass(count);
        Ok(number)
    }

    /// Reads numbers of these many bytes, one after another.
    pub fn numbers<R: Intake, const N: usize>(
        &mut self,
        source: &mut R,
        bytes: [u8; N],
    ) -> Result<[u64; N], ImportError>
        ensures input { result ≡ Err ImportError.Input → IsTrue (R.has_failed source.new) }
    {
        let mut numbers = [0; N];
        for index in 0..N {
            numbers[index] = self.number(source, bytes[index])?;
        }
        Ok(numbers)
    }

    /// Skips `count` bytes of the record, whether buffered or not.
    pub fn skip<R: Intake>(&mut self, source: &mut R, count: u64) -> Result<(), ImportError>
        ensures input { result ≡ Err ImportError.Input → IsTrue (R.has_failed source.new) }
    {
        if self.left < count {
            return Err(self.problem(Problem::PastRecord));
        }
        let mut rest = count;
        while rest > 0 {
            let bytes = self.piece(source, rest, 1)?;
            self.pass(bytes);
            rest -= bytes as u64;
        }
        Ok(())
    }
}

/// The number with these bytes, the highest first. Of more than eight bytes it has the last ones.
fn big_endian(bytes: &[u8]) -> u64 {
    let mut number = 0u64;
    for byte in bytes {
        number = (number << 8) | u64::from(*byte);
    }
    number
}
