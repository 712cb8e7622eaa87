//! The words of a heap of objects of a host's own layout.
ghost use Rattle.std.specs.Prelude.{◌≡◌, ◌↔◌, false, ◌<◌, ◌≤◌, ◌+◌, IfSome, IsSome, length, take, drop};
ghost use Rattle.object_heap.specs.Layout.{reference_in};
ghost use Rattle.object_heap.specs.HeapImage.{heap_words, word_at, size_at, references_at, is_unsound};
ghost use Rattle.coded_marking.specs.CodedHeap.{coded_image};

use object_coding::ObjectCoding;
use object_heap::objects_without_faults;
use std::marker::Model;

/// The words of a heap, from address 0 on, and how the host codes the objects there.
///
/// A contract sees an image without live objects.
#[derive(Drop)]
pub struct CodedHeap<'a> {
    words: &'a [u64],
    coding: &'a ObjectCoding,
}

impl<'a> Model for CodedHeap<'a> {
    ghost use Rattle.object_heap.specs.HeapImage.{HeapImage};
    ghost use Rattle.coded_marking.specs.CodedHeap.{coded_image, IsCodedHeap};

    ghost Value = { HeapImage };

    ghost view = { λ h. coded_image h.coding.now h.words.now };

    ghost invariant = { λ h. IsCodedHeap h.coding.now h.words.now };
}

impl<'a> CodedHeap<'a> {
    /// The heap of these words. Returns `None` if there aren't as many as the coding is for.
    pub fn new(words: &'a [u64], coding: &'a ObjectCoding) -> Option<CodedHeap<'a>>
        ensures heap { IfSome result (λ heap. heap ≡ coded_image coding.now words.now) }
        ensures fits { IsSome result ↔ (length words.now ≡ coding.now.count) }
    {
        if words.len() as u64 != coding.words() {
            return None;
        }
        Some(CodedHeap { words, coding })
    }

    /// The number of words.
    #[inline]
    pub fn len(&self) -> u64
        ensures value { result ≡ heap_words self.now }
        ensures few { result ≤ 68719476736 }
    {
        self.words.len() as u64
    }

    /// The word at address `a`.
    #[inline]
    pub fn word(&self, a: u64) -> u64
        requires { a < heap_words self.now }
        ensures { result ≡ word_at self.now a }
    {
        let words = self.words;
        words[a as usize]
    }

    /// 1 plus the address to which a word leads, or 0 if it leads nowhere.
    #[inline]
    pub fn reference(&self, word: u64) -> u64
        ensures value { result ≡ reference_in self.now.layout word }
        ensures inside { result ≤ heap_words self.now }
    {
        self.coding.reference(word)
    }

    /// The size in words of the object at address `a`, by its header.
    #[inline]
    pub fn size_at(&self, a: u64) -> u64
        requires { a < heap_words self.now }
        ensures { result ≡ size_at self.now a }
    {
        self.coding.size(self.words[a as usize])
    }

    /// Whether this word at address `a` is not the header of an object that fits into the heap.
    #[inline]
    pub(crate) fn is_unsound(&self, header: u64, a: u64) -> bool
        requires inside { a < heap_words self.now }
        requires header { header ≡ word_at self.now a }
        ensures { result ≡ is_unsound self.now a }
    {
        self.coding.is_unsound(header, a)
    }

    /// The words that are references of the sound object at address `a`, which has this header.
    #[inline]
    pub(crate) fn referring(&self, header: u64, a: u64) -> &[u64]
        requires inside { a < heap_words self.now }
        requires header { header ≡ word_at self.now a }
        requires sound { is_unsound self.now a ≡ false }
        ensures words { result.now ≡ take (references_at self.now a) (drop (a + 1) self.now.words) }
        ensures count { length result.now ≡ references_at self.now a }
    {
        objects_without_faults();
        let words = self.words;
        let first = a as usize + 1;
        let count = self.coding.references(header) as usize;
        &words[first..first + count]
    }
}
