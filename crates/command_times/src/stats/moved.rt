//! The amount of data that a collection keeps and moves.
use super::tenths::Tenths;
use std::io;
use std::io::Write;
use std::time::Duration;

const BYTES_IN_A_WORD: u64 = 8;

/// The numbers of words that a collection kept and moved.
#[derive(Clone, Copy)]
pub struct Moved {
    /// The words of the heap, if they are known.
    pub heap: Option<u64>,
    /// The words below the new top.
    pub kept: u64,
    /// The live words after the dense prefix.
    pub words: u64,
}

impl Moved {
    /// Writes the lines of `--stats`, with the rate if the time that it took in memory is known.
    pub fn print<B: Write>(&self, took: Option<Duration>, err: &mut B) -> io::Result<()> {
        if let Some(heap) = self.heap {
            let size = Tenths::mib_of_words(heap);
            let share = Tenths::of_per_cent(self.kept, heap);
            writeln!(err, "pcompact: heap {size} MiB, {share} per cent kept")?;
        }
        let bytes = self.words.saturating_mul(BYTES_IN_A_WORD);
        let moved = Tenths::of_mib(bytes);
        match took {
            Some(took) if took > Duration::ZERO => {
                let rate = u128::from(bytes).saturating_mul(1_000_000_000) / took.as_nanos() >> 20;
                writeln!(err, "pcompact: live {moved} MiB moved, {rate} MiB a second")
            }
            _ => writeln!(err, "pcompact: live {moved} MiB moved"),
        }
    }
}
