//! The text of a fault.
ghost use Rattle.std.specs.Prelude.{◌≡◌, ◌<◌, ◌+◌, ℕ, length, slice_index};

use crate::fault::PcompactFault;
use std::fmt::{self, Write};

/// The room for a text. The longest has 52 bytes.
const ROOM: usize = 63;

/// Writes the text of a fault and a zero byte. A text without room for all of it is cut. The other bytes stay.
///
/// Returns the number of bytes of the whole text, without the zero byte, which is 0 if there is no such fault.
#[unsafe(no_mangle)]
pub extern "C" fn pcompact_fault_text(fault: PcompactFault, text: &mut [u8]) -> usize
    ensures short { result < 64 }
    ensures end { result < length text.old → slice_index text.new result ≡ 0 }
    ensures rest { (i : ℕ) → result < i → i < length text.old → slice_index text.new i ≡ slice_index text.old i }
    ensures same_room { length text.new ≡ length text.old }
{
    let line = Line::of(fault);
    let count = line.len.min(ROOM);
    if text.is_empty() {
        return count;
    }
    let fit = count.min(text.len() - 1);
    text[..fit].copy_from_slice(&line.bytes[..fit]);
    text[fit] = 0;
    count
}

/// A text of at most [`ROOM`] bytes.
#[derive(Drop)]
struct Line {
    bytes: [u8; ROOM],
    len: usize,
}

impl Line {
    /// The text of a fault, or an empty one if there is no such fault.
    fn of(fault: PcompactFault) -> Line {
        let mut line = Line {
            bytes: [0; ROOM],
            len: 0,
        };
        if let Some(fault) = fault.fault() {
            let _ = fmt::Write::write(&mut line, fault);
        } else if let Some(rule) = fault.layout_rule() {
            let _ = write!(line, "18 layout rule {rule}");
        }
        line
    }
}

impl fmt::Write for Line {
    fn write_str(&mut self, text: &str) -> fmt::Result {
        let from = self.len.min(ROOM);
        let count = text.len().min(ROOM - from);
        self.bytes[from..from + count].copy_from_slice(&text.as_bytes()[..count]);
        self.len = from + count;
        Ok(())
    }
}
