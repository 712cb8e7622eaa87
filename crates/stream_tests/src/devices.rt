//! A writer that compares, and fails after a number of bytes.
use std::io;
use std::io::Write;

/// A writer that compares what it receives with a text. It accepts at most `step` bytes at a time and `limit` in all;
/// then it fails, or accepts 0.
#[derive(Drop)]
pub(crate) struct Checked<'a> {
    rest: &'a [u8],
    is_right: bool,
    step: usize,
    limit: usize,
    fails: bool,
}

impl<'a> Checked<'a> {
    /// Accepts everything.
    pub(crate) fn against(text: &'a [u8]) -> Checked<'a> {
        Checked::in_steps(text, usize::MAX)
    }

    /// Accepts everything, `step` bytes at a time.
    pub(crate) fn in_steps(text: &'a [u8], step: usize) -> Checked<'a> {
        Checked {
            rest: text,
            is_right: true,
            step,
            limit: usize::MAX,
            fails: false,
        }
    }

    /// Accepts `limit` bytes, and then fails or accepts 0.
    pub(crate) fn until(text: &'a [u8], limit: usize, fails: bool) -> Checked<'a> {
        Checked {
            rest: text,
            is_right: true,
            step: 7,
            limit,
            fails,
        }
    }

    /// The number of bytes of the text that are not written, if the written ones are a prefix of it.
    pub(crate) fn unwritten(&self) -> Option<usize> {
        self.is_right.then_some(self.rest.len())
    }
}

impl Write for Checked<'_> {
    fn write(&mut self, buf: &[u8]) -> io::Result<usize> {
        if self.fails && self.limit == 0 {
            return Err(io::Error::from(io::ErrorKind::Other));
        }
        let n = buf.len().min(self.step).min(self.limit);
        let (wanted, rest) = self.rest.split_at(n.min(self.rest.len()));
        self.is_right &= wanted == &buf[..n];
        self.rest = rest;
        self.limit -= n;
        Ok(n)
    }

    fn flush(&mut self) -> io::Result<()> {
        Ok(())
    }
}
