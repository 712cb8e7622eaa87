//! The image: a heap with its live objects, valid by its type.
ghost use Rattle.std.specs.Prelude.{◌≡◌, ◌<◌, ◌≤◌, ◌^◌, All, IsTrue, Option, Some, None, is_some, length, map, option_map, IfSome};
ghost use Rattle.std.specs.List.{concat, range_with_len};
ghost use Rattle.object_heap.specs.HeapImage.{HeapImage, IsValid, AreBlocks, AreValidParts, image_of, versioned_image_of, is_null_or_live, roots_of, heap_words, region_count, region_words, word_at, size_at, references_at, words_alone, block_of};
ghost use Rattle.heap_image.specs.ImageText.{with_tail};
ghost use Rattle.object_heap.specs.Bits.{MarkBegins};
ghost use Rattle.object_heap.specs.Sizes.{AreSizes};
ghost use Rattle.object_heap.specs.Version.{has_roots};

use crate::laws::image_is_valid;
use heap_marking::PIECE;
use object_heap::{
    Bits, Heap, Version, blocks_joined, header, regions_by_log, roots_are_null_or_live,
};
use raw_region::Region;
use std::marker::Model;

/// A heap with its live objects. Every value keeps the limits of the format and has a sound live list.
///
/// The heap has [`len`](Image::len) words, at addresses from 0. Each `2 ^ region_log` consecutive words are a region,
/// in a block of their own.
pub struct Image {
    version: Version,
    region_log: u32,
    allowance: u64,
    regions: Vec<Region>,
    live: Vec<u64>,
    roots: Option<Vec<u64>>,
    begins: Option<Bits>,
    sizes: Option<Vec<[u32; PIECE]>>,
}

// Not derived: a derived drop is taken apart at each exit of each function that owns an image, and its proof grows.
impl Drop for Image {
    fn drop(self) {
        let Self {
            version,
            region_log,
            allowance,
            regions,
            live,
            roots,
            begins,
            sizes,
        } = self;
    }
}

/// The parts of an [`Image`].
#[derive(Drop)]
pub struct ImageParts {
    pub version: Version,
    /// The logarithm, to base 2, of the number of words of a region.
    pub region_log: u32,
    /// The largest number of dead words that the dense prefix may keep.
    pub allowance: u64,
    /// The regions from address 0 on, each a block of `2 ^ region_log` words.
    pub regions: Vec<Region>,
    /// The addresses of the live objects, ascending.
    pub live: Vec<u64>,
    /// The roots, in an image of version 2 or 3.
    pub roots: Option<Vec<u64>>,
}

impl Model for Image {
    ghost use Rattle.std.specs.Prelude.{option_map};
    ghost use Rattle.object_heap.specs.HeapImage.{HeapImage, versioned_image_of};
    ghost use Rattle.heap_image.specs.Kept.{AreKept};

    ghost Value = { HeapImage };

    ghost view = { λ i. versioned_image_of i.version i.region_log i.allowance i.regions.items i.live.items (option_map (λ v. v.items) i.roots) };

    ghost invariant = { λ i. AreKept i.version i.region_log i.allowance i.regions.items i.live.items (option_map (λ v. v.items) i.roots) i.begins (option_map (λ v. v.items) i.sizes) };
}

impl Image {
    /// Builds an image of version 1 from regions of `2 ^ region_log` words each, from address 0 on, and the ascending
    /// addresses of the live objects.
    pub fn of_parts(region_log: u32, allowance: u64, regions: Vec<Region>, live: Vec<u64>) -> Image
        requires regions { AreBlocks region_log regions.items }
        requires valid { IsValid (image_of region_log allowance regions.items live.items) }
        ensures { result ≡ image_of region_log allowance regions.items live.items }
    {
        let roots = None;
        let parts = ImageParts {
            version: Version::One,
            region_log,
            allowance,
            regions,
            live,
            roots,
        };
        parts.into_image()
    }

    /// The parts of this image, from which [`ImageParts::into_image`] rebuilds it.
    pub fn into_parts(self) -> ImageParts
        ensures parts { AreValidParts result.version result.region_log result.allowance result.regions.items result.live.items (option_map (λ v. v.items) result.roots) }
        ensures whole { self ≡ versioned_image_of result.version result.region_log result.allowance result.regions.items result.live.items (option_map (λ v. v.items) result.roots) }
        ensures blocks { result.regions.items ≡ map (block_of self) (range_with_len 0 (region_count self)) }
    {
        blocks_joined();
        let Image {
            version,
            region_log,
            allowance,
            regions,
            live,
            roots,
            begins: _,
            sizes: _,
        } = self;
        ImageParts {
            version,
            region_log,
            allowance,
            regions,
            live,
            roots,
        }
    }

    /// The logarithm, to base 2, of the number of words of a region; it is 3 to 20.
    pub fn region_log(&self) -> u32
        ensures value { result ≡ self.now.region_log }
        ensures valid { IsValid self.now }
    {
        self.region_log
    }

    /// The number of words of a region.
    pub fn region_words(&self) -> u64
        ensures value { result ≡ region_words self.now }
        ensures some { 0 < result }
        ensures few { result ≤ 1048576 }
        ensures valid { IsValid self.now }
    {
        regions_by_log();
        1 << self.region_log
    }

    /// The largest number of dead words that the dense prefix may keep.
    pub fn allowance(&self) -> u64
        ensures { result ≡ self.now.allowance }
    {
        self.allowance
    }

    /// The number of words.
    pub fn len(&self) -> u64
        ensures value { result ≡ heap_words self.now }
        ensures valid { IsValid self.now }
    {
        blocks_joined();
        (self.regions.len() as u64) << self.region_log
    }

    /// The number of regions.
    pub fn regions(&self) -> u32
        ensures value { result ≡ region_count self.now }
        ensures valid { IsValid self.now }
    {
        blocks_joined();
        self.regions.len() as u32
    }

    /// The block of region `r`.
    pub fn region(&self, r: u32) -> &Region
        requires { r < region_count self.now }
        ensures { result.now ≡ block_of self.now r }
    {
        blocks_joined();
        &self.regions[r as usize]
    }

    /// The words alone, without live objects and roots.
    #[inline]
    pub fn heap(&self) -> Heap<'_>
        ensures { result ≡ words_alone self.now }
    {
        Heap::new(self.regions.as_slice(), self.region_log)
    }

    /// The size of the object at address `a`, in words, with its header.
    #[inline]
    pub fn size_at(&self, a: u64) -> u64
        requires { a < heap_words self.now }
        ensures value { result ≡ size_at self.now a }
        ensures few { result < 2 ^ 32 }
    {
        image_is_valid(self);
        u64::from(header::size(self.word(a)))
    }

    /// The number of references of the object at address `a`.
    #[inline]
    pub fn references_at(&self, a: u64) -> u64
        requires { a < heap_words self.now }
        ensures value { result ≡ references_at self.now a }
        ensures few { result < 2 ^ 32 }
    {
        image_is_valid(self);
        u64::from(header::references(self.word(a)))
    }

    /// The word at address `a`.
    pub fn word(&self, a: u64) -> u64
        requires { a < heap_words self.now }
        ensures { result ≡ word_at self.now a }
    {
        self.heap().word(a)
    }

    /// The addresses of the live objects, ascending.
    pub fn live(&self) -> &[u64]
        ensures value { result.now ≡ self.now.live }
        ensures valid { IsValid self.now }
    {
        self.live.as_slice()
    }

    /// The addresses of the live objects as bits, if reading the image has kept them.
    pub fn begins(&self) -> Option<&Bits>
        ensures { IfSome result (λ bits. MarkBegins self.now.live (heap_words self.now) bits.now) }
    {
        self.begins.as_ref()
    }

    /// Takes out the bits of [`begins`](Image::begins), if reading the image has kept them. The image itself doesn't change.
    pub fn take_begins(&mut self) -> Option<Bits>
        ensures bits { IfSome result (λ bits. MarkBegins self.old.live (heap_words self.old) bits) }
        ensures same { self.new ≡ self.old }
    {
        self.begins.take()
    }

    /// The sizes in words of the live objects in their order, in pieces of [`PIECE`], if reading the image has kept
    /// them. The last piece may end with zeros.
    pub fn sizes(&self) -> Option<&[[u32; PIECE]]>
        ensures { IfSome result (λ sizes. AreSizes self.now sizes.now) }
    {
        match &self.sizes {
            Some(sizes) => Some(sizes.as_slice()),
            None => None,
        }
    }

    /// Frees what reading the image has kept about its live objects: the bits of [`begins`](Image::begins) and the
    /// [`sizes`](Image::sizes). The image itself doesn't change.
    pub fn forget_seen(&mut self)
        ensures { self.new ≡ self.old }
    {
        self.begins = None;
        self.sizes = None;
    }

    /// The roots, in any order; empty for an image of version 1. Each is 0, which is null, or 1 plus the address of a
    /// live object.
    pub fn roots(&self) -> &[u64]
        ensures value { result.now ≡ roots_of self.now }
        ensures few { length result.now < 2 ^ 32 }
        ensures live { All (λ w. IsTrue (is_null_or_live self.now w)) result.now }
        ensures valid { IsValid self.now }
    {
        roots_are_null_or_live();
        match &self.roots {
            Some(roots) => roots.as_slice(),
            None => &[],
        }
    }

    /// The numbers that follow the words in the text: the roots, or in version 1 the live list.
    pub(crate) fn tail(&self) -> &[u64]
        ensures value { result.now ≡ (with_tail self.now).live }
        ensures few { length result.now ≤ heap_words self.now }
        ensures counted { length result.now < 2 ^ 32 }
        ensures valid { IsValid self.now }
    {
        match &self.roots {
            Some(roots) => roots.as_slice(),
            None => self.live.as_slice(),
        }
    }

    /// The version.
    pub fn version(&self) -> Version
        ensures value { result ≡ self.now.version }
        ensures roots { is_some self.now.roots ≡ has_roots result }
    {
        self.version
    }
}

impl ImageParts {
    /// Builds the image of these parts.
    pub fn into_image(self) -> Image
        requires regions { AreBlocks self.region_log self.regions.items }
        requires valid { IsValid (versioned_image_of self.version self.region_log self.allowance self.regions.items self.live.items (option_map (λ v. v.items) self.roots)) }
        ensures { result ≡ versioned_image_of self.version self.region_log self.allowance self.regions.items self.live.items (option_map (λ v. v.items) self.roots) }
    {
        self.with_seen(None, None)
    }

    /// Builds the image of these parts, which keeps the addresses of its live objects as bits, and their sizes, if they
    /// are known.
    pub(crate) fn with_seen(self, begins: Option<Bits>, sizes: Option<Vec<[u32; PIECE]>>) -> Image
        requires parts { AreValidParts self.version self.region_log self.allowance self.regions.items self.live.items (option_map (λ v. v.items) self.roots) }
        requires begins { IfSome begins (MarkBegins self.live.items (length (concat self.regions.items))) }
        requires sizes { IfSome sizes
            (λ sizes. AreSizes (image_of self.region_log 0 self.regions.items self.live.items) sizes.items) }
        ensures { result ≡ versioned_image_of self.version self.region_log self.allowance self.regions.items self.live.items (option_map (λ v. v.items) self.roots) }
    {
        let ImageParts {
            version,
            region_log,
            allowance,
            regions,
            live,
            roots,
        } = self;
        Image {
            version,
            region_log,
            allowance,
            regions,
            live,
            roots,
            begins,
            sizes,
        }
    }
}
