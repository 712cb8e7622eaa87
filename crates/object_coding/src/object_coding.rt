//! How a host codes the objects of a heap.
ghost use Rattle.std.specs.Prelude.{◌≡◌, ◌<◌, ◌≤◌, ◌+◌, ◌^◌, ◌||◌, ◌==◌, ℕ, nat_le, nat_lt, IfOk, IfErr, OnOk, Some, None};
ghost use Rattle.object_heap.specs.Layout.{Coded, IsCoding, coded_size, coded_references, coded_mode, coded_reference, coded_redirected, coded_filler};
ghost use Rattle.object_heap.specs.HeapImage.{HeapImage, heap_words, word_at, is_unsound};
ghost use Rattle.object_coding.specs.ObjectLayout.{coding_of};
ghost use Rattle.object_coding.specs.LayoutFault.{layout_fault};

use crate::layout_fault::LayoutFault;
use crate::object_layout::{ALL_REFERENCES, NO_REFERENCES, ObjectLayout};
use std::marker::Model;

/// How a host codes the objects of a heap with a certain number of words, by numbers that fit each other.
///
/// A contract sees the numbers as a `Coding`.
#[derive(Drop)]
pub struct ObjectCoding {
    layout: ObjectLayout,
    words: u64,
    size_mask: u64,
    type_mask: u64,
    first_mask: u64,
}

impl Model for ObjectCoding {
    ghost use Rattle.object_heap.specs.Layout.{Coding};
    ghost use Rattle.object_coding.specs.ObjectLayout.{coding_of};
    ghost use Rattle.object_coding.specs.ObjectCoding.{AreFit};

    ghost Value = { Coding };

    ghost view = { λ c. coding_of c.layout c.words };

    ghost invariant = { λ c. AreFit c.layout c.words c.size_mask c.type_mask c.first_mask };
}

impl ObjectCoding {
    /// The coding by these numbers for a heap of `words` words, at most 68,719,476,736.
    ///
    /// Returns what is wrong with the numbers, if anything is: of the faults the first.
    pub fn new(layout: ObjectLayout, words: u64) -> Result<ObjectCoding, LayoutFault>
        requires { words ≤ 68719476736 }
        ensures value { IfOk result (λ coding. coding ≡ coding_of layout words) }
        ensures lawful { OnOk result (IsCoding (coding_of layout words) words) }
        ensures fits { OnOk result (layout_fault layout words ≡ None) }
        ensures fault { IfErr result (λ fault. layout_fault layout words ≡ Some fault) }
    {
        if let Some(fault) = layout.fault(words) {
            return Err(fault);
        }
        Ok(ObjectCoding {
            layout,
            words,
            size_mask: (1 << layout.size_bits) - 1,
            type_mask: (1 << layout.type_bits) - 1,
            first_mask: (1 << layout.first_bits) - 1,
        })
    }

    /// The number of words of the heap.
    #[inline]
    pub fn words(&self) -> u64
        ensures value { result ≡ self.now.count }
        ensures few { result ≤ 68719476736 }
        ensures lawful { IsCoding self.now result }
    {
        self.words
    }

    /// The size in words of the object with this header, header included.
    #[inline]
    pub fn size(&self, header: u64) -> u64
        ensures { result ≡ coded_size self.now header }
    {
        let units = header >> self.layout.size_shift & self.size_mask;
        (units + self.layout.size_more) >> self.layout.size_unit
    }

    /// The number of references of the object with this header: they are the words after it. An unsound header may say more
    /// of them than of words.
    #[inline]
    pub fn references(&self, header: u64) -> u64
        ensures { result ≡ coded_references self.now header }
    {
        match self.mode(header) {
            NO_REFERENCES => 0,
            ALL_REFERENCES => self.size(header).saturating_sub(1),
            _ => header >> self.layout.first_shift & self.first_mask,
        }
    }

    /// The mode of the type in this header.
    #[inline]
    fn mode(&self, header: u64) -> u8
        ensures { result ≡ coded_mode self.now header }
    {
        self.layout.modes[(header >> self.layout.type_shift & self.type_mask) as usize]
    }

    /// 1 plus the address to which a word leads, or 0 if it leads nowhere.
    #[inline]
    pub fn reference(&self, word: u64) -> u64
        ensures { result ≡ coded_reference self.now word }
    {
        // The rotation puts what a distance has below its unit on top, so that it is beyond all addresses.
        let distance = word.wrapping_sub(self.layout.base);
        let address = distance.rotate_right(u32::from(self.layout.unit));
        if address < self.words { address + 1 } else { 0 }
    }

    /// The word in place of `word` that leads where `reference` says: 1 plus an address. A word that leads nowhere stays, and
    /// then `reference` may be 0.
    #[inline]
    pub fn redirected(&self, word: u64, reference: u64) -> u64
        requires { reference ≤ self.now.count }
        ensures { result ≡ coded_redirected self.now word reference }
    {
        if self.reference(word) == 0 {
            word
        } else {
            self.layout.base + (reference.saturating_sub(1) << self.layout.unit)
        }
    }

    /// The header of a filler of `size` words, at most 2,147,483,648.
    #[inline]
    pub fn filler(&self, size: u64) -> u64
        requires { size ≤ 2147483648 }
        ensures { result ≡ coded_filler self.now size }
    {
        let units = (size << self.layout.size_unit).saturating_sub(self.layout.filler_less);
        self.layout.filler_tag + (units << self.layout.size_shift)
    }

    /// Whether this word at address `a` is not the header of an object that fits into the heap.
    #[inline]
    pub fn is_unsound(&self, word: u64, a: u64) -> bool
        requires { a ≤ 68719476736 }
        ensures value { result ≡ ((coded_size self.now word == 0)
            || nat_le (coded_size self.now word) (coded_references self.now word) || nat_lt self.now.count (a + coded_size self.now word)) }
        ensures of_image { (image : HeapImage) → image.layout ≡ Coded self.now → heap_words image ≡ self.now.count → word_at image a ≡ word
            → result ≡ is_unsound image a }
    {
        let size = self.size(word);
        size == 0 || size <= self.references(word) || a + size > self.words
    }
}
