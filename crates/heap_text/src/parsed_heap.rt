//! The contents of a text before it is known to describe a valid heap.
ghost use Rattle.std.specs.Prelude.{◌≡◌, ◌<◌, ◌^◌, [], length, if◌then◌else◌};
ghost use Rattle.object_heap.specs.Version.{has_roots};
ghost use Rattle.heap_image.specs.ImageText.{front};
ghost use Rattle.heap_text.specs.Words.{words_of, tail_of};

use crate::expected::Expected;
use crate::word_list::WordList;
use heap_image::{FRONT_BYTES, Front, Version};
use std::alloc::Global;

/// The contents of a text before it is known to describe a valid heap.
#[derive(Drop)]
pub(crate) struct ParsedHeap {
    /// The version of the image.
    pub(crate) version: Version,
    /// The base-2 logarithm of the number of words of a region.
    pub(crate) region_log: u32,
    /// How many dead words the dense prefix may keep.
    pub(crate) allowance: u64,
    /// The words from address 0 up.
    pub(crate) words: WordList,
    /// The addresses of the objects, ascending.
    pub(crate) live: Vec<u64>,
    /// The roots: none in version 1.
    pub(crate) roots: Vec<u64>,
}

impl ParsedHeap {
    /// Before the first line.
    pub(crate) fn new(alloc: Global) -> ParsedHeap
        ensures words { words_of result.words ≡ [] }
        ensures len { result.words.len ≡ 0 }
        ensures live { result.live.items ≡ [] }
        ensures roots { result.roots.items ≡ [] }
    {
        ParsedHeap {
            version: Version::One,
            region_log: 0,
            allowance: 0,
            words: WordList::new(alloc),
            live: Vec::new(alloc),
            roots: Vec::new(alloc),
        }
    }

    /// What the line of the region log should be.
    pub(crate) fn expected_region_log(&self) -> Expected {
        Expected::RegionLog(self.version.max_region_log())
    }

    /// What the line of the number of words should be.
    pub(crate) fn expected_words(&self) -> Expected {
        Expected::Words(self.version.max_words(), self.version.max_regions())
    }

    /// The front of the image. A count of live objects or roots over 32 bits becomes `u32::MAX`, which no image allows
    /// either.
    pub(crate) fn front(&self) -> [u8; FRONT_BYTES]
        ensures { length (tail_of self.now) < 2 ^ 32 → result
            ≡ front self.now.version self.now.region_log (length (tail_of self.now)) self.now.words.len self.now.allowance }
    {
        let tail = numbers_after_words(self.version, self.roots.as_slice(), self.live.as_slice());
        let front = Front {
            version: self.version,
            region_log: self.region_log,
            count: u32::try_from(tail.len()).unwrap_or(u32::MAX),
            words: self.words.len(),
            allowance: self.allowance,
        };
        front.to_bytes()
    }
}

/// The numbers that come after the words of an image: its roots, or the live objects if it has none.
pub(crate) fn numbers_after_words<'a>(
    version: Version,
    roots: &'a [u64],
    live: &'a [u64],
) -> &'a [u64]
    ensures { result.now ≡ (if has_roots version then roots.now else live.now) }
{
    if version.has_roots() { roots } else { live }
}
