//! How much of an image is live.
use super::tenths::Tenths;
use std::io;
use std::io::Write;

/// The words of an image, and those of its live objects.
#[derive(Clone, Copy)]
pub struct LiveShare {
    pub words: u64,
    pub live_words: u64,
}

impl LiveShare {
    /// Writes its line of `--stats`.
    pub fn print<B: Write>(&self, err: &mut B) -> io::Result<()> {
        let size = Tenths::mib_of_words(self.words);
        let share = Tenths::of_per_cent(self.live_words, self.words);
        writeln!(err, "pcompact: heap {size} MiB, {share} per cent live")
    }
}
