//! The words of a heap in chunks, so that they can be freed one chunk after the other.
ghost use Rattle.std.specs.Prelude.{◌≡◌, ◌+◌, ◌-◌, ◌^◌, ◌<◌, ◌++◌, ◌∷◌, [], OnOk, IfOk, length, flat_map, reverse};
ghost use Rattle.heap_text.specs.Words.{words_of};

use std::alloc::{AllocError, Global};
use std::mem;

/// The number of words of each chunk but the last.
const CHUNK: usize = 65_536;

/// A list of words in chunks.
#[derive(Drop)]
pub(crate) struct WordList {
    /// The chunks before the last one.
    full: Vec<Vec<u64>>,
    last: Vec<u64>,
    len: u64,
    alloc: Global,
}

impl WordList {
    pub(crate) fn new(alloc: Global) -> WordList
        ensures words { words_of result ≡ [] }
        ensures len { result.len ≡ 0 }
    {
        WordList {
            full: Vec::new(alloc),
            last: Vec::new(alloc),
            len: 0,
            alloc,
        }
    }

    pub(crate) fn len(&self) -> u64
        ensures { result ≡ self.now.len }
    {
        self.len
    }

    pub(crate) fn push(&mut self, word: u64) -> Result<(), AllocError>
        requires { self.old.len < 2 ^ 64 - 1 }
        ensures words { OnOk result (words_of self.new ≡ words_of self.old ++ (word ∷ [])) }
        ensures len { OnOk result (self.new.len ≡ self.old.len + 1) }
    {
        if self.last.len() >= CHUNK {
            let full = mem::replace(&mut self.last, Vec::new(self.alloc));
            self.full.push(full)?;
        }
        self.last.push(word)?;
        self.len += 1;
        Ok(())
    }

    /// Returns the chunks in reverse order.
    pub(crate) fn into_reversed_chunks(self) -> Result<Vec<Vec<u64>>, AllocError>
        ensures { IfOk result (λ chunks. flat_map (λ chunk. chunk.items) (reverse chunks.items) ≡ words_of self) }
    {
        let WordList { mut full, last, .. } = self;
        full.push(last)?;
        full.reverse();
        Ok(full)
    }
}
