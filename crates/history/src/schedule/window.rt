//! `Window`: the buffer for a schedule's text as it comes from a device.
ghost use Rattle.std.specs.Prelude.{◌≡◌, ◌≢◌, ◌<◌, ◌≤◌, ◌+◌, ◌⊎◌, ◌++◌, ◌||◌, ◌↔◌, true, false, List, ℕ, [], length, Ok, IsTrue, IfOk, IsErr, OnOk, is_err};
ghost use Rattle.std.specs.Io.KnownBytes.{Consumes, IsAtEnd};
ghost use Rattle.history.specs.Window.{HoldLine};

use super::reading::word;
use heap_image::{Failed, Intake};

/// The size of the buffer, in bytes.
const ROOM: usize = 8_192;

/// The most bytes of a schedule's line, its newline included.
const LINE_ROOM: usize = 64;

/// The next bytes of a text, which are requested in large pieces.
#[derive(Drop)]
pub(crate) struct Window {
    bytes: [u8; ROOM],
    /// The bytes from `start` to `end` have come and are unread.
    start: usize,
    end: usize,
}

impl Window {
    ghost use Rattle.history.specs.Window.{IsInRange, rest_of, unread};

    pub(crate) fn new() -> Window
        ensures in_range { IsInRange result }
        ensures none { unread result ≡ [] }
    {
        Window {
            bytes: [0; ROOM],
            start: 0,
            end: 0,
        }
    }

    /// The bytes that have come and are unread.
    pub(crate) fn unread(&self) -> &[u8]
        requires { IsInRange self.now }
        ensures { result.now ≡ unread self.now }
    {
        &self.bytes[self.start..self.end]
    }

    /// Whether there are no unread bytes.
    fn is_empty(&self) -> bool
        requires { IsInRange self.now }
        ensures { IsTrue result ↔ (unread self.now ≡ []) }
    {
        self.unread().is_empty()
    }

    /// Skips `count` unread bytes.
    pub(crate) fn pass(&mut self, count: usize)
        requires in_range { IsInRange self.old }
        requires held { count ≤ length (unread self.old) }
        ensures in_range { IsInRange self.new }
        ensures passed { (front rest : List ℕ) → unread self.old ≡ front ++ rest → length front ≡ count → unread self.new ≡ rest }
    {
        self.start += count;
    }

    /// Requests bytes until there is a whole line, or more than a line can have, or the device has none left. Returns
    /// whether there are unread bytes.
    pub(crate) fn hold_line<R: Intake>(&mut self, source: &mut R) -> Result<bool, Failed>
        requires { IsInRange self.old }
        ensures in_range { IsInRange self.new }
        ensures same { OnOk result (Consumes (rest_of self.old (R.left source.old)) (rest_of self.new (R.left source.new)) []) }
        ensures whole { OnOk result (HoldLine (unread self.new) ⊎ IsAtEnd (R.left source.new)) }
        ensures some { result ≡ Ok true → unread self.new ≢ [] }
        ensures none { result ≡ Ok false → (unread self.new ≡ []) × IsAtEnd (R.left source.new) }
        ensures failed { R.has_failed source.new ≡ (is_err result || R.has_failed source.old) }
    {
        while !holds_line(self.unread()) {
            if self.take_more(source)? == 0 {
                return Ok(!self.is_empty());
            }
        }
        Ok(true)
    }

    /// Requests more bytes and returns how many came; 0 only if the device has none left.
    fn take_more<R: Intake>(&mut self, source: &mut R) -> Result<usize, Failed>
        requires in_range { IsInRange self.old }
        requires short { length (unread self.old) < 64 }
        ensures in_range { IsInRange self.new }
        ensures same { OnOk result (Consumes (rest_of self.old (R.left source.old)) (rest_of self.new (R.left source.new)) []) }
        ensures more { IfOk result (λ came. length (unread self.new) ≡ length (unread self.old) + came) }
        ensures end { result ≡ Ok 0 → IsAtEnd (R.left source.new) }
        ensures failed { R.has_failed source.new ≡ is_err result }
        ensures stays_failed { IsTrue (R.has_failed source.old) → IsErr result }
    {
        self.make_room();
        let came = source.take(&mut self.bytes[self.end..])?;
        self.end += came;
        Ok(came)
    }

    /// Moves the unread bytes to the front of the buffer.
    fn make_room(&mut self)
        requires { IsInRange self.old }
        ensures in_range { IsInRange self.new }
        ensures front { self.new.start ≡ 0 }
        ensures same { unread self.new ≡ unread self.old }
    {
        self.bytes.copy_within(self.start..self.end, 0);
        self.end -= self.start;
        self.start = 0;
    }
}

/// Whether the bytes have a newline or are more than a line can have.
fn holds_line(bytes: &[u8]) -> bool
    ensures yes { IsTrue result → HoldLine bytes.now }
    ensures no { result ≡ false → length bytes.now < 64 }
{
    bytes.len() >= LINE_ROOM || word(bytes, b'\n').is_some()
}
