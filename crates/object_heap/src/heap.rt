//! The words of a heap, without live objects and roots.
ghost use Rattle.std.specs.Prelude.{◌≡◌, ◌<◌, ◌≤◌, ◌+◌, ℕ, [], length, slice_index};
ghost use Rattle.object_heap.specs.Layout.{Own};
ghost use Rattle.object_heap.specs.HeapImage.{FormHeap, image_of, heap_words, word_at, size_at, reference_at};

use crate::header;
use raw_region::Region;
use std::marker::Model;

/// The words of a heap in regions of `2 ^ region_log` words each, from address 0 on.
///
/// A contract sees an image without live objects.
#[derive(Drop)]
pub struct Heap<'a> {
    regions: &'a [Region],
    region_log: u32,
}

impl<'a> Model for Heap<'a> {
    ghost use Rattle.std.specs.Prelude.{[]};
    ghost use Rattle.object_heap.specs.HeapImage.{HeapImage, FormHeap, image_of};

    ghost Value = { HeapImage };

    ghost view = { λ h. image_of h.region_log 0 h.regions.now [] };

    ghost invariant = { λ h. FormHeap h.region_log h.regions.now };
}

impl<'a> Heap<'a> {
    /// The heap in these regions.
    #[inline]
    pub fn new(regions: &'a [Region], region_log: u32) -> Heap<'a>
        requires { FormHeap region_log regions.now }
        ensures { result ≡ image_of region_log 0 regions.now [] }
    {
        Heap {
            regions,
            region_log,
        }
    }

    /// The number of words.
    #[inline]
    pub fn len(&self) -> u64
        ensures value { result ≡ heap_words self.now }
        ensures few { heap_words self.now ≤ 68719476736 }
    {
        (self.regions.len() as u64) << self.region_log
    }

    /// The word at address `a`.
    #[inline]
    pub fn word(&self, a: u64) -> u64
        requires { a < heap_words self.now }
        ensures { result ≡ word_at self.now a }
    {
        let region = &self.regions[(a >> self.region_log) as usize];
        let place = a & ((1 << self.region_log) - 1);
        region.get(place as usize)
    }

    /// The size in words of the object at address `a`, by its header.
    #[inline]
    pub fn size_at(&self, a: u64) -> u64
        requires { a < heap_words self.now }
        ensures { result ≡ size_at self.now a }
    {
        self.own();
        u64::from(header::size(self.word(a)))
    }

    /// The reference in field `f` of the object at address `a`. Fields count from 0.
    #[inline]
    pub fn reference(&self, a: u64, f: u32) -> u64
        requires { a + 1 + f < heap_words self.now }
        ensures { result ≡ reference_at self.now a f }
    {
        is_small(self);
        self.own();
        self.word(a + 1 + u64::from(f))
    }

    /// A law: the layout is that of images in files.
    #[inline]
    pub fn own(&self)
        ensures { self.now.layout ≡ Own }
    {
        let _regions = &self.regions;
    }

    /// The words from address `from` up to `to`, or up to the end of the region of `from` if that comes first.
    #[inline]
    pub fn row(&self, from: u64, to: u64) -> &[u64]
        requires some { from < to }
        requires inside { to ≤ heap_words self.now }
        ensures words { (i : ℕ) → i < length result.now → slice_index result.now i ≡ word_at self.now (from + i) }
        ensures some { 0 < length result.now }
        ensures within { from + length result.now ≤ to }
    {
        let words = self.regions[(from >> self.region_log) as usize].words();
        let place = (from & ((1 << self.region_log) - 1)) as usize;
        let (_, behind) = words.split_at(place);
        &behind[..behind.len().min((to - from) as usize)]
    }
}

/// A heap has at most 68,719,476,736 words.
#[inline]
pub fn is_small(heap: &Heap<'_>)
    ensures { heap_words heap.now ≤ 68719476736 }
{
    heap.len();
}
