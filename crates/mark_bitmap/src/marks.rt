//! The mark bitmaps of an image, and the queries on them.
ghost use Rattle.std.specs.Prelude.{◌≡◌, ◌+◌, ◌-◌, ◌<◌, ◌≤◌, IsTrue, IfOk, MatchOption, false, length};
ghost use Rattle.std.specs.Arc.{arc_value};
ghost use Rattle.object_heap.specs.HeapImage.{IsValid, heap_words, is_live_word, is_dead_word, live_words, size_at};
ghost use Rattle.object_heap.specs.Bits.{NoneFrom, IsFirstFrom, NoneBetween, IsFirstBetween};
ghost use Rattle.mark_bitmap.specs.Marks.{AreBegins, AreBitsFrom, AreLiveBits, bit_words, continues_at, is_begin, is_end, IsObjectOver};

use crate::laws::{listed_image_is_valid, marked_image_is_valid};
use crate::listed::Listed;
use crate::mark_builder::MarkBuilder;
use crate::objects::{begin_bits, listed_begin_bits, no_bits, taken_begin_bits};
use crate::opaque_objects::OpaqueObjects;
use crate::surveyed::Surveyed;
use heap_image::{Bits, Image};
use std::alloc::{AllocError, Global};
use std::marker::Model;
use std::snapshot::Snapshot;
use std::sync::Arc;

/// Where the live objects of an image begin and end, and which words they occupy.
///
/// A contract sees the image that the marks were made of, as it was then. The image itself is not kept.
pub struct Marks {
    image: Snapshot<Surveyed>,
    begins: Bits,
    live: Arc<Bits, Global>,
}

impl Drop for Marks {
    fn drop(self) {
        let Self {
            image,
            begins,
            live,
        } = self;
    }
}

impl Model for Marks {
    ghost use Rattle.std.specs.Arc.{arc_value};
    ghost use Rattle.object_heap.specs.HeapImage.{HeapImage};
    ghost use Rattle.mark_bitmap.specs.Marks.{AreMarks};

    ghost Value = { HeapImage };

    ghost view = { λ m. m.image.value };

    ghost invariant = { λ m. AreMarks m.image.value m.begins (arc_value m.live) };
}

impl Marks {
    /// Builds the marks of an image from its live list and the headers of its objects. The builder's threads set the live
    /// bits.
    ///
    /// Allocates about 2 bits for each word of the heap.
    pub fn of<B: MarkBuilder>(
        alloc: Global,
        image: &Image,
        builder: &B,
    ) -> Result<Marks, AllocError>
        requires { B.may_start }
        ensures { IfOk result (λ marks. marks ≡ image.now) }
    {
        let begins = begin_bits(alloc, image)?;
        Marks::with_begins(alloc, &Listed::of_image(image), begins, builder)
    }

    /// Builds the marks of opaque objects, by their list. The builder's threads set the live bits.
    pub fn of_objects<B: MarkBuilder>(
        alloc: Global,
        objects: &OpaqueObjects<'_>,
        builder: &B,
    ) -> Result<Marks, AllocError>
        requires { B.may_start }
        ensures { IfOk result (λ marks. marks ≡ objects.now) }
    {
        let listed = Listed::of_objects(objects);
        let begins = listed_begin_bits(alloc, &listed)?;
        Marks::with_begins(alloc, &listed, begins, builder)
    }

    /// Like [`of`](Marks::of), but takes over the bits that reading the image has kept, if it has. The image itself
    /// doesn't change.
    pub fn taking_over<B: MarkBuilder>(
        alloc: Global,
        image: &mut Image,
        builder: &B,
    ) -> Result<Marks, AllocError>
        requires { B.may_start }
        ensures marks { IfOk result (λ marks. marks ≡ image.old) }
        ensures same { image.new ≡ image.old }
    {
        let begins = taken_begin_bits(alloc, image)?;
        Marks::with_begins(alloc, &Listed::of_image(image), begins, builder)
    }

    /// Builds the marks of an image with these begin bits.
    fn with_begins<B: MarkBuilder>(
        alloc: Global,
        image: &Listed<'_>,
        begins: Bits,
        builder: &B,
    ) -> Result<Marks, AllocError>
        requires start { B.may_start }
        requires begins { AreBegins image.now begins }
        ensures { IfOk result (λ marks. marks ≡ image.now) }
    {
        let mut live = no_bits(alloc, image)?;
        builder.set_live_bits(image, &begins, live.as_mut_slice());
        Marks::with_bits(alloc, image, begins, live)
    }

    /// The marks of an image with these bits.
    fn with_bits(
        alloc: Global,
        image: &Listed<'_>,
        begins: Bits,
        live: Vec<u64>,
    ) -> Result<Marks, AllocError>
        requires begins { AreBegins image.now begins }
        requires room { length live.items ≡ bit_words image.now }
        requires live { AreBitsFrom (is_live_word image.now) 0 live.items }
        ensures { IfOk result (λ marks. marks ≡ image.now) }
    {
        listed_image_is_valid(image);
        let live = Arc::new(alloc, Bits::from_words(live))?;
        Ok(Marks {
            image: image.surveyed(),
            begins,
            live,
        })
    }

    /// The live bits, to be kept by one more owner. Takes no memory; the only error is that the owners are too many.
    pub fn share_live(&self) -> Result<Arc<Bits, Global>, AllocError>
        ensures { IfOk result (λ live. AreLiveBits self.now (arc_value live)) }
    {
        Arc::try_clone(&self.live)
    }

    /// Whether a live object begins at address `a`. This is false for an address past the heap.
    #[inline]
    pub fn is_begin(&self, a: u64) -> bool
        ensures { result ≡ is_begin self.now a }
    {
        self.begins.contains(a)
    }

    /// Whether the word at address `a` is the last of a live object. This is false for an address past the heap.
    #[inline]
    pub fn is_end(&self, a: u64) -> bool
        ensures { result ≡ is_end self.now a }
    {
        self.live.contains(a) && !self.continues_at(a + 1)
    }

    /// The first address from `from` on at which a live object begins.
    pub fn next_begin(&self, from: u64) -> Option<u64>
        ensures { MatchOption result (NoneFrom (is_begin self.now) from) (IsFirstFrom (is_begin self.now) from) }
    {
        self.begins.next(from)
    }

    /// The address of the live object that has the word at `a`, its first or not.
    pub fn object_over(&self, a: u64) -> Option<u64>
        ensures { MatchOption result (is_live_word self.now a ≡ false) (IsObjectOver self.now a) }
    {
        if !self.live.contains(a) {
            return None;
        }
        marked_image_is_valid(self);
        self.begins.last_below(a + 1)
    }

    /// The first address from `from` on whose word belongs to a live object.
    pub fn next_live(&self, from: u64) -> Option<u64>
        ensures { MatchOption result (NoneFrom (is_live_word self.now) from) (IsFirstFrom (is_live_word self.now) from) }
    {
        self.live.next(from)
    }

    /// The first address from `from` on and below `to` at which a live object begins.
    pub fn next_begin_before(&self, from: u64, to: u64) -> Option<u64>
        ensures { MatchOption result (NoneBetween (is_begin self.now) from to) (IsFirstBetween (is_begin self.now) from to) }
    {
        self.begins.next_before(from, to)
    }

    /// The first address from `from` on and below `to` whose word belongs to a live object.
    pub fn next_live_before(&self, from: u64, to: u64) -> Option<u64>
        ensures { MatchOption result (NoneBetween (is_live_word self.now) from to) (IsFirstBetween (is_live_word self.now) from to) }
    {
        self.live.next_before(from, to)
    }

    /// The first address from `from` on and below `to` whose word belongs to no live object, as all words past the
    /// heap.
    pub fn next_dead_before(&self, from: u64, to: u64) -> Option<u64>
        ensures { MatchOption result (NoneBetween (is_dead_word self.now) from to) (IsFirstBetween (is_dead_word self.now) from to) }
    {
        self.live.next_absent_before(from, to)
    }

    /// The number of live words from address `from` up to but excluding `to`.
    #[inline]
    pub fn live_words(&self, from: u64, to: u64) -> u64
        requires ordered { from ≤ to }
        requires inside { to ≤ heap_words self.now }
        ensures { result ≡ live_words self.now from to }
    {
        self.live.count(from, to)
    }

    /// The size in words of the live object that begins at address `begin`.
    pub fn size_at(&self, begin: u64) -> u64
        requires { IsTrue (is_begin self.now begin) }
        ensures { result ≡ size_at self.now begin }
    {
        marked_image_is_valid(self);
        self.object_end(begin) - begin
    }

    /// The end of the live object that has the word at `a`: the address after its last word.
    fn object_end(&self, a: u64) -> u64
        requires { IsTrue (is_live_word self.now a) }
        ensures after { a < result }
        ensures last { IsFirstFrom (is_end self.now) a (result - 1) }
    {
        marked_image_is_valid(self);
        let next = self.next_begin(a + 1).unwrap_or(u64::MAX);
        self.next_dead_before(a + 1, next).unwrap_or(next)
    }

    /// Whether the words at `a - 1` and at `a` belong to the same live object.
    #[inline]
    fn continues_at(&self, a: u64) -> bool
        ensures { result ≡ continues_at self.now a }
    {
        self.live.contains(a) && !self.is_begin(a)
    }

    /// A law: the image of these marks is valid.
    pub(crate) fn own(&self)
        ensures { IsValid self.now }
    {
        let _image = &self.image;
    }
}
