//! Gives the bytes of the image of a parsed heap.
ghost use Rattle.std.specs.Prelude.{◌≡◌, ◌<◌, ◌≤◌, ◌++◌, ◌∷◌, [], ℕ, List, take, true, false, None, IfOk, IfSome, length};
ghost use Rattle.image_streams.specs.Numbers.{numbers};
ghost use Rattle.heap_text.specs.ImageBytes.{bytes_left, numbers_left};
ghost use Rattle.heap_text.specs.Words.{words_of};

use crate::word_list::WordList;
use heap_image::{FRONT_BYTES, Failed, Intake};
use std::alloc::{AllocError, Global};

/// Where the bytes of a number begin, as they end at the end of the array.
const NUMBER: usize = FRONT_BYTES - 8;

/// A device that gives the bytes of an image, and frees each chunk of its words once that is given. So an image takes little
/// more memory while it is made than it has words.
#[derive(Drop)]
pub(crate) struct ImageBytes<'a> {
    /// The next bytes, from index `byte` on: at first those of the front, then those of one number.
    bytes: [u8; FRONT_BYTES],
    byte: usize,
    /// The current chunk of words, and the index of its next word.
    chunk: Vec<u64>,
    index: usize,
    /// The chunks that come after it, in reverse order.
    chunks: Vec<Vec<u64>>,
    /// The live addresses or the roots, which come after the words.
    tail: &'a [u64],
}

impl<'a> ImageBytes<'a> {
    pub(crate) fn new(
        alloc: Global,
        front: [u8; FRONT_BYTES],
        words: WordList,
        tail: &'a [u64],
    ) -> Result<ImageBytes<'a>, AllocError>
        ensures { IfOk result (λ image. bytes_left image ≡ front ++ numbers (words_of words ++ tail.now)) }
    {
        Ok(ImageBytes {
            bytes: front,
            byte: 0,
            chunk: Vec::new(alloc),
            index: 0,
            chunks: words.into_reversed_chunks()?,
            tail,
        })
    }

    fn next_byte(&mut self) -> Option<u8>
        ensures some { IfSome result (λ byte. bytes_left self.old ≡ byte ∷ bytes_left self.new) }
        ensures none { result ≡ None → bytes_left self.new ≡ bytes_left self.old }
        ensures end { result ≡ None → bytes_left self.new ≡ [] }
    {
        if !self.has_byte() {
            return None;
        }
        let byte = self.bytes[self.byte];
        self.byte += 1;
        Some(byte)
    }

    /// Fetches the bytes of the next number if no other byte is next. Returns whether there is a next byte.
    fn has_byte(&mut self) -> bool
        ensures same { bytes_left self.new ≡ bytes_left self.old }
        ensures some { result ≡ true → self.new.byte < 32 }
        ensures none { result ≡ false → bytes_left self.new ≡ [] }
    {
        if self.byte < FRONT_BYTES {
            return true;
        }
        let Some(number) = self.next_number() else {
            return false;
        };
        self.bytes[NUMBER..].copy_from_slice(&number.to_le_bytes());
        self.byte = NUMBER;
        true
    }

    fn next_number(&mut self) -> Option<u64>
        ensures some { IfSome result (λ number. numbers_left self.old ≡ number ∷ numbers_left self.new) }
        ensures none { result ≡ None → numbers_left self.new ≡ numbers_left self.old }
        ensures end { result ≡ None → numbers_left self.new ≡ [] }
        ensures bytes { self.new.bytes ≡ self.old.bytes }
        ensures byte { self.new.byte ≡ self.old.byte }
    {
        self.next_chunk();
        if self.index < self.chunk.len() {
            let number = self.chunk[self.index];
            self.index += 1;
            return Some(number);
        }
        let (number, rest) = self.tail.split_first()?;
        self.tail = rest;
        Some(*number)
    }

    /// Puts the bytes of whole numbers at `from` and after it, as far as they have room, unless other bytes come first. Returns
    /// where they end.
    fn give_numbers(&mut self, buffer: &mut [u8], from: usize) -> usize
        requires { from ≤ length buffer.old }
        ensures within { result ≤ length buffer.new }
        ensures bytes { (whole : List ℕ) → whole ≡ take from buffer.old ++ bytes_left self.old
            → whole ≡ take result buffer.new ++ bytes_left self.new }
    {
        let mut count = from;
        if self.byte < FRONT_BYTES {
            return count;
        }
        while buffer.len() - count >= 8 {
            let Some(number) = self.next_number() else {
                return count;
            };
            buffer[count..count + 8].copy_from_slice(&number.to_le_bytes());
            count += 8;
        }
        count
    }

    /// Goes on to the next chunk that has a word left, if there is one.
    fn next_chunk(&mut self)
        ensures same { numbers_left self.new ≡ numbers_left self.old }
        ensures last { length self.new.chunk.items ≤ self.new.index → self.new.chunks.items ≡ [] }
        ensures tail { self.new.tail ≡ self.old.tail }
        ensures bytes { self.new.bytes ≡ self.old.bytes }
        ensures byte { self.new.byte ≡ self.old.byte }
    {
        while self.index >= self.chunk.len() {
            let Some(chunk) = self.chunks.pop() else {
                return;
            };
            self.chunk = chunk;
            self.index = 0;
        }
    }
}

impl Intake for ImageBytes<'_> {
    ghost use Rattle.std.specs.Prelude.{Some, false};
    ghost use Rattle.heap_text.specs.ImageBytes.{bytes_left};

    ghost left = { λ image. Some (bytes_left image) };

    ghost has_failed = { λ _. false };

    fn take(&mut self, buffer: &mut [u8]) -> Result<usize, Failed> {
        let given = self.give_numbers(buffer, 0);
        for count in given..buffer.len() {
            let Some(byte) = self.next_byte() else {
                return Ok(count);
            };
            buffer[count] = byte;
        }
        Ok(buffer.len())
    }

    fn failed(&self) -> bool {
        false
    }
}
