//! Fills in the words of one object.
ghost use Rattle.std.specs.Prelude.{◌<◌};

use byteorder::{ByteOrder, LittleEndian};
use dump_objects::UnsealedHeap;

/// The addresses of the next reference and the next primitive data of an object.
///
/// The bytes of an image have the data as the dump has them, padded with zeros up to the end of the last word.
#[derive(Clone, Copy)]
pub(crate) struct Slots {
    /// The address of the next reference.
    reference: u64,
    /// The end of the references.
    references_end: u64,
    /// The address of the next word of data.
    data: u64,
    /// The end of the object.
    end: u64,
    /// The bytes of the next word of data, as far as they are read.
    held: [u8; 8],
    held_count: usize,
    ghost few_held: { held_count < 8 },
}

impl Slots {
    /// The slots of an object at this address with this number of references and words.
    pub(crate) fn new(address: u64, references: u64, words: u64) -> Slots {
        let first = address.saturating_add(1);
        let data = first.saturating_add(references);
        Slots {
            reference: first,
            references_end: data,
            data,
            end: address.saturating_add(words),
            held: [0; 8],
            held_count: 0,
        }
    }

    /// The address of the reference after so many more.
    pub(crate) fn reference_after(&self, more: u64) -> u64 {
        self.reference.saturating_add(more)
    }

    /// Puts the next reference, and returns whether there was room.
    pub(crate) fn put_reference(&mut self, heap: &mut UnsealedHeap, reference: u64) -> bool {
        if self.reference >= self.references_end {
            return false;
        }
        heap.put(self.reference, reference);
        self.reference += 1;
        true
    }

    /// Puts the next bytes of data, and returns whether there was room.
    pub(crate) fn put_data(&mut self, heap: &mut UnsealedHeap, bytes: &[u8]) -> bool {
        let mut rest = bytes;
        while let Some((first, more)) = rest.split_first() {
            if self.held_count == 0 && rest.len() >= 8 {
                let (word, after) = rest.split_at(8);
                if !self.put_word(heap, LittleEndian::read_u64(word)) {
                    return false;
                }
                rest = after;
            } else {
                if !self.put_byte(heap, *first) {
                    return false;
                }
                rest = more;
            }
        }
        true
    }

    fn put_byte(&mut self, heap: &mut UnsealedHeap, byte: u8) -> bool {
        self.held[self.held_count] = byte;
        if self.held_count < 7 {
            self.held_count += 1;
            return true;
        }
        self.put_held(heap)
    }

    /// Puts the word whose bytes are held.
    fn put_held(&mut self, heap: &mut UnsealedHeap) -> bool {
        let word = LittleEndian::read_u64(&self.held);
        self.held = [0; 8];
        self.held_count = 0;
        self.put_word(heap, word)
    }

    fn put_word(&mut self, heap: &mut UnsealedHeap, word: u64) -> bool {
        if self.data >= self.end {
            return false;
        }
        heap.put(self.data, word);
        self.data += 1;
        true
    }

    /// Puts the bytes that are still held, and returns whether the object is full.
    pub(crate) fn close(mut self, heap: &mut UnsealedHeap) -> bool {
        if self.held_count > 0 && !self.put_held(heap) {
            return false;
        }
        self.reference == self.references_end && self.data == self.end
    }
}
