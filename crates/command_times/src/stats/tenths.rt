//! Numbers with one digit after the point.
use std::fmt;
use std::time::Duration;

const BYTES_IN_A_MIB: u64 = 1 << 20;

const BYTES_IN_A_WORD: u64 = 8;

/// A number of tenths.
#[derive(Clone, Copy)]
pub struct Tenths {
    count: u64,
}

impl Tenths {
    /// A time in milliseconds, rounded.
    pub fn of_milliseconds(time: Duration) -> Tenths {
        let tenths = time.as_micros().saturating_add(50) / 100;
        Tenths {
            count: u64::try_from(tenths).unwrap_or(u64::MAX),
        }
    }

    /// A number of bytes in MiB, rounded.
    pub fn of_mib(bytes: u64) -> Tenths {
        let tenths = bytes.saturating_mul(10).saturating_add(BYTES_IN_A_MIB / 2);
        Tenths {
            count: tenths / BYTES_IN_A_MIB,
        }
    }

    /// A number of words in MiB, rounded.
    pub fn mib_of_words(words: u64) -> Tenths {
        Tenths::of_mib(words.saturating_mul(BYTES_IN_A_WORD))
    }

    /// A part of a whole in per cent, rounded. Of nothing there is nothing.
    pub fn of_per_cent(part: u64, whole: u64) -> Tenths {
        if whole == 0 {
            return Tenths { count: 0 };
        }
        let tenths = part.saturating_mul(1000).saturating_add(whole / 2);
        Tenths {
            count: tenths / whole,
        }
    }
}

impl fmt::Display for Tenths {
    fn fmt<W: fmt::Write>(&self, f: &mut fmt::Formatter<W>) -> fmt::Result {
        write!(f, "{}.{}", self.count / 10, self.count % 10)
    }
}
