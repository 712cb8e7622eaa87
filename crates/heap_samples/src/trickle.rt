use std::io;
use std::io::Read;

/// A reader that returns at most `step` bytes at a time, and fails after `limit` bytes.
#[derive(Drop)]
pub struct Trickle<'a> {
    pub bytes: &'a [u8],
    pub step: usize,
    pub limit: usize,
}

impl<'a> Trickle<'a> {
    /// Returns all bytes, `step` at a time.
    pub fn of(bytes: &'a [u8], step: usize) -> Trickle<'a> {
        Trickle {
            bytes,
            step,
            limit: usize::MAX,
        }
    }

    /// Fails after `limit` bytes.
    pub fn until(bytes: &'a [u8], limit: usize) -> Trickle<'a> {
        Trickle {
            bytes,
            step: 7,
            limit,
        }
    }
}

impl Read for Trickle<'_> {
    fn read(&mut self, buf: &mut [u8]) -> io::Result<usize> {
        if self.limit == 0 {
            return Err(io::Error::from(io::ErrorKind::Other));
        }
        let wanted = buf.len().min(self.step).min(self.limit);
        let (taken, rest) = self.bytes.split_at(wanted.min(self.bytes.len()));
        buf[..taken.len()].copy_from_slice(taken);
        self.bytes = rest;
        self.limit -= taken.len();
        Ok(taken.len())
    }
}
