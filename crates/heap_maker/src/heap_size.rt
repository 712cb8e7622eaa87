//! How large a heap is.
ghost use Rattle.std.specs.Prelude.{◌≡◌, ◌≤◌, IsTrue};
ghost use Rattle.object_heap.specs.HeapImage.{HasSoundHeader, last_end};
ghost use Rattle.heap_maker.specs.HeapSize.{IsBelow, IsWithin, all_references, held_references, size_of_heap};

use heap_image::{Image, image_is_valid};
use std::fmt;

/// The counts by which one heap is smaller than another.
#[derive(Debug, Clone, Copy, PartialEq, Eq)]
pub struct HeapSize {
    /// Words.
    pub words: u64,
    /// The base-2 logarithm of the number of words of a region.
    pub region_log: u32,
    /// How many dead words the dense prefix may keep.
    pub allowance: u64,
    /// Roots: none in version 1.
    pub roots: u64,
    /// Live objects.
    pub live: u64,
    /// The address after the last live object, or 0 without one.
    pub end: u64,
    /// References of live objects that aren't null.
    pub references: u64,
}

impl HeapSize {
    /// The counts of this image.
    pub fn of(image: &Image) -> HeapSize
        ensures { result ≡ size_of_heap image.now }
    {
        HeapSize {
            words: image.len(),
            region_log: image.region_log(),
            allowance: image.allowance(),
            roots: image.roots().len() as u64,
            live: image.live().len() as u64,
            end: last_end(image),
            references: references_of_all(image),
        }
    }

    /// Whether no count is above that of `other`, and one is below.
    pub fn is_below(self, other: HeapSize) -> bool
        ensures { IsTrue result → IsBelow self other }
    {
        if !self.is_within(other) {
            return false;
        }
        self.words < other.words
            || self.region_log < other.region_log
            || self.allowance < other.allowance
            || self.roots < other.roots
            || self.live < other.live
            || self.end < other.end
            || self.references < other.references
    }

    /// Whether no count is above that of `other`.
    fn is_within(self, other: HeapSize) -> bool
        ensures { IsTrue result → IsWithin self other }
    {
        self.words <= other.words
            && self.region_log <= other.region_log
            && self.allowance <= other.allowance
            && self.roots <= other.roots
            && self.live <= other.live
            && self.end <= other.end
            && self.references <= other.references
    }
}

/// The address after the last live object, or 0 without one.
fn last_end(image: &Image) -> u64
    ensures { result ≡ last_end image.now }
{
    match image.live().last() {
        Some(a) => *a + image.size_at(*a),
        None => 0,
    }
}

/// The number of references of live objects that aren't null.
fn references_of_all(image: &Image) -> u64
    ensures { result ≡ all_references image.now }
{
    let mut count = 0;
    for a in image.live() {
        count += held_references(image, *a);
    }
    count
}

/// The number of references of the live object at `a` that aren't null.
fn held_references(image: &Image, a: u64) -> u64
    requires { HasSoundHeader image.now a }
    ensures value { result ≡ held_references image.now a }
    ensures few { result ≤ 16777215 }
{
    image_is_valid(image);
    let mut held = 0;
    for f in 0..image.references_at(a) as u32 {
        if image.heap().reference(a, f) != 0 {
            held += 1;
        }
    }
    held
}

impl fmt::Display for HeapSize {
    ghost use Rattle.std.specs.Prelude.{Some};
    ghost use Rattle.heap_maker.specs.HeapSize.{size_text};

    ghost output = { λ size. Some (size_text size) };

    fn fmt<W: fmt::Write>(&self, f: &mut fmt::Formatter<W>) -> fmt::Result {
        let HeapSize {
            words,
            region_log,
            allowance,
            roots,
            live,
            end: _,
            references,
        } = *self;
        write!(
            f,
            "words {words} live {live} roots {roots} references {references} region-log {region_log} allowance {allowance}"
        )
    }
}
