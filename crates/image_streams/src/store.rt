//! Bytes at offsets.
ghost use Rattle.std.specs.Prelude.{◌≡◌, ◌<◌, ◌≤◌, ◌+◌, ℕ, List, Option, length, take, IfOk};
ghost use Rattle.std.specs.Io.KnownBytes.{Consumes, IsAtEnd};
ghost use Rattle.image_streams.specs.Extents.{from_place};

use crate::Failed;
use std::os::unix::fs::FileExt;

/// Bytes at offsets from 0 on, which several threads may read at a time.
///
/// A contract sees the `bytes`, if they are known.
pub trait Store: Sync {
    ghost bytes: { Self → Option (List ℕ) };

    /// Copies bytes at offset `at` to the start of the buffer and returns how many. It returns 0 for a buffer with room
    /// only if there is no byte at that offset.
    fn take_at(&self, at: u64, buffer: &mut [u8]) -> Result<usize, Failed>
        ensures within { IfOk result (λ n. n ≤ length buffer.new) }
        ensures bytes { IfOk result
            (λ n. Consumes (from_place (bytes self.now) at) (from_place (bytes self.now) (at + n)) (take n buffer.new)) }
        ensures end { IfOk result (λ n. n ≡ 0 → 0 < length buffer.old → IsAtEnd (from_place (bytes self.now) at)) };
}

/// The bytes of a file with offsets, for example a regular one. No contract knows them.
#[derive(Drop)]
pub struct FileStore<'a, F: FileExt + Sync>(&'a F);

impl<'a, F: FileExt + Sync> FileStore<'a, F> {
    pub fn new(file: &'a F) -> FileStore<'a, F> {
        FileStore(file)
    }
}

impl<F: FileExt + Sync> Store for FileStore<'_, F> {
    ghost use Rattle.std.specs.Prelude.{None};

    ghost bytes = { λ _. None };

    fn take_at(&self, at: u64, buffer: &mut [u8]) -> Result<usize, Failed> {
        match self.0.read_at(buffer, at) {
            Ok(n) => Ok(n),
            Err(_) => Err(Failed),
        }
    }
}
