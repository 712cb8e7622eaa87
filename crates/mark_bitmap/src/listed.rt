//! A heap whose live objects are listed.
ghost use Rattle.std.specs.Prelude.{◌≡◌, ◌<◌, ◌≤◌, ◌^◌, length, slice_index};
ghost use Rattle.object_heap.specs.HeapImage.{IsValid, heap_words, region_words, region_count, size_at};
ghost use Rattle.mark_bitmap.specs.Sizes.{AreSizesBy};

use crate::opaque_objects::OpaqueObjects;
use crate::sizes::Sizes;
use crate::surveyed::Surveyed;
use heap_image::{Image, PIECE, image_is_valid, regions_by_log};
use std::marker::Model;
use std::snapshot::Snapshot;

/// What marks and a plan are made of: the live objects of an image or of a heap of opaque objects, and the numbers of its
/// words.
///
/// Contracts view it as that image.
#[derive(Drop)]
pub struct Listed<'a> {
    subject: Subject<'a>,
}

#[derive(Drop)]
enum Subject<'a> {
    Image(&'a Image),
    Objects(&'a OpaqueObjects<'a>),
}

impl<'a> Model for Listed<'a> {
    ghost use Rattle.object_heap.specs.HeapImage.{HeapImage};
    ghost use Rattle.mark_bitmap.specs.Listed.{image_of};

    ghost Value = { HeapImage };

    ghost view = { λ l. image_of l.subject };
}

impl<'a> Listed<'a> {
    /// The live objects of an image.
    pub fn of_image(image: &'a Image) -> Listed<'a>
        ensures { result ≡ image.now }
    {
        Listed {
            subject: Subject::Image(image),
        }
    }

    /// The live objects of a heap of opaque ones.
    pub fn of_objects(objects: &'a OpaqueObjects<'a>) -> Listed<'a>
        ensures { result ≡ objects.now }
    {
        Listed {
            subject: Subject::Objects(objects),
        }
    }

    /// What marks and plans keep of it.
    pub fn surveyed(&self) -> Snapshot<Surveyed>
        ensures { result.value ≡ self.now }
    {
        Snapshot::of(&match &self.subject {
            Subject::Image(image) => Surveyed::image(image),
            Subject::Objects(objects) => Surveyed::objects(objects),
        })
    }

    /// The logarithm, to base 2, of the number of words of a region; it is 3 to 20.
    pub fn region_log(&self) -> u32
        ensures value { result ≡ self.now.region_log }
        ensures valid { IsValid self.now }
    {
        match &self.subject {
            Subject::Image(image) => image.region_log(),
            Subject::Objects(objects) => objects.region_log(),
        }
    }

    /// The number of words of a region.
    pub fn region_words(&self) -> u64
        ensures value { result ≡ region_words self.now }
        ensures some { 0 < result }
        ensures few { result ≤ 1048576 }
        ensures valid { IsValid self.now }
    {
        regions_by_log();
        1 << self.region_log()
    }

    /// The largest number of dead words that the dense prefix may keep.
    pub fn allowance(&self) -> u64
        ensures { result ≡ self.now.allowance }
    {
        match &self.subject {
            Subject::Image(image) => image.allowance(),
            Subject::Objects(objects) => objects.allowance(),
        }
    }

    /// The number of words.
    pub fn len(&self) -> u64
        ensures value { result ≡ heap_words self.now }
        ensures valid { IsValid self.now }
    {
        u64::from(self.regions()) << self.region_log()
    }

    /// The number of regions.
    pub fn regions(&self) -> u32
        ensures value { result ≡ region_count self.now }
        ensures valid { IsValid self.now }
    {
        match &self.subject {
            Subject::Image(image) => image.regions(),
            Subject::Objects(objects) => objects.regions(),
        }
    }

    /// The addresses of the live objects, ascending.
    pub fn live(&self) -> &[u64]
        ensures value { result.now ≡ self.now.live }
        ensures valid { IsValid self.now }
    {
        match &self.subject {
            Subject::Image(image) => image.live(),
            Subject::Objects(objects) => objects.live(),
        }
    }

    /// What says the sizes of the live objects.
    pub(crate) fn sizes(&self) -> Sizes<'_>
        ensures { AreSizesBy self.now result }
    {
        match &self.subject {
            Subject::Image(image) => match image.sizes() {
                Some(pieces) => Sizes::Noted(pieces),
                None => Sizes::InHeaders(image.heap()),
            },
            Subject::Objects(objects) => Sizes::Listed(objects.sizes()),
        }
    }

    /// The size of the `i`-th live object, in words.
    pub fn size_of(&self, i: usize) -> u64
        requires { i < length self.now.live }
        ensures value { result ≡ size_at self.now (slice_index self.now.live i) }
        ensures few { result < 2 ^ 32 }
    {
        match self.sizes() {
            Sizes::Noted(pieces) => u64::from(pieces[i / PIECE][i % PIECE]),
            Sizes::Listed(sizes) => u64::from(sizes[i]),
            Sizes::InHeaders(heap) => heap.size_at(self.live()[i]),
        }
    }
}
