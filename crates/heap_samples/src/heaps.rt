//! The base heap in both versions, its compaction, and builders of texts and images.
use heap_image::{Alone, Image, all_processors, decode};
use std::alloc::{AllocError, Global};
use std::test::Fail;
use std::thread::Threads;

/// A dead word.
pub const DEAD: u64 = 999;

/// The words of the base heap, in regions of 8.
pub const BASE_WORDS: [u64; 32] = [
    0x0100_0002_0000_0003,
    6,
    21,
    DEAD,
    DEAD,
    0x0100_0001_0000_0004,
    13,
    107,
    108,
    DEAD,
    DEAD,
    DEAD,
    0x0100_0001_0000_0002,
    1,
    DEAD,
    DEAD,
    DEAD,
    DEAD,
    DEAD,
    DEAD,
    0x0100_0008_0000_000A,
    21,
    0,
    6,
    13,
    1,
    0,
    21,
    6,
    129,
    DEAD,
    DEAD,
];

/// The addresses of its live objects.
pub const BASE_LIVE: [u64; 4] = [0, 5, 12, 20];

/// The words of the base heap after a compaction with allowance 0.
pub const MOVED_WORDS: [u64; 32] = [
    0x0100_0002_0000_0003,
    4,
    10,
    0x0100_0001_0000_0004,
    8,
    107,
    108,
    0x0100_0001_0000_0002,
    1,
    0x0100_0008_0000_000A,
    10,
    0,
    4,
    8,
    1,
    0,
    10,
    4,
    129,
    0,
    0,
    0,
    0,
    0,
    0,
    0,
    0,
    0,
    0,
    0,
    0,
    0,
];

/// The addresses of its live objects.
pub const MOVED_LIVE: [u64; 4] = [0, 3, 7, 9];

/// Roots from which the same objects are reachable.
pub const BASE_ROOTS: [u64; 2] = [21, 0];

/// The same roots after the compaction.
pub const MOVED_ROOTS: [u64; 2] = [10, 0];

/// The first 8 bytes of an image with a live list, as a word.
const MAGIC: u64 = 0x3130_5041_4548_4350;

/// The first 8 bytes of an image with roots, as a word.
const ROOTED_MAGIC: u64 = 0x3230_5041_4548_4350;

/// The numbers in the front of an image that don't follow from its words and live list.
#[derive(Clone, Copy)]
pub struct Settings {
    pub region_log: u64,
    pub allowance: u64,
}

impl Settings {
    /// The settings of the base heap, with this allowance.
    pub fn of_base(allowance: u64) -> Settings {
        Settings {
            region_log: 3,
            allowance,
        }
    }
}

/// An address and a size in words.
pub type Object = (u64, u64);

/// The words of a heap whose objects have no references, and only zeros after their headers.
pub fn plain_words(alloc: Global, len: u64, objects: &[Object]) -> Result<Vec<u64>, AllocError> {
    Vec::from_iter(alloc, (0..len).map(|a| plain_word(objects, a)))
}

/// The word at address `a` of such a heap.
fn plain_word(objects: &[Object], a: u64) -> u64 {
    for (begin, size) in objects {
        if a == *begin {
            return 1 << 56 | *size;
        }
        if *begin < a && a - *begin < *size {
            return 0;
        }
    }
    DEAD
}

/// The text of the image with these words and live addresses.
pub fn image_text(
    alloc: Global,
    settings: Settings,
    words: &[u64],
    live: &[u64],
) -> Result<Vec<u8>, AllocError> {
    text_of(alloc, MAGIC, settings, words, live)
}

/// The text of the image with these words and roots.
pub fn rooted_text(
    alloc: Global,
    settings: Settings,
    words: &[u64],
    roots: &[u64],
) -> Result<Vec<u8>, AllocError> {
    text_of(alloc, ROOTED_MAGIC, settings, words, roots)
}

/// The image with these words and live addresses.
pub fn image_of(
    alloc: Global,
    settings: Settings,
    words: &[u64],
    live: &[u64],
    threads: &(impl Threads + Sync),
) -> Result<Image, Fail> {
    let text = image_text(alloc, settings, words, live)?;
    Ok(decode(alloc, text.as_slice(), &all_processors(threads))?)
}

/// The image of the base heap with this allowance and these live addresses.
pub fn base_image(alloc: Global, allowance: u64, live: &[u64]) -> Result<Image, Fail> {
    let text = image_text(alloc, Settings::of_base(allowance), &BASE_WORDS, live)?;
    Ok(decode(alloc, text.as_slice(), &Alone)?)
}

/// The base heap, in either version.
#[derive(Clone, Copy)]
pub enum Base {
    /// Version 1.
    WithLiveList,
    /// Version 2.
    WithRoots,
}

impl Base {
    /// The text of the base heap with this allowance.
    pub fn text(self, alloc: Global, allowance: u64) -> Result<Vec<u8>, AllocError> {
        let settings = Settings::of_base(allowance);
        match self {
            Base::WithLiveList => image_text(alloc, settings, &BASE_WORDS, &BASE_LIVE),
            Base::WithRoots => rooted_text(alloc, settings, &BASE_WORDS, &BASE_ROOTS),
        }
    }
}

fn text_of(
    alloc: Global,
    magic: u64,
    settings: Settings,
    words: &[u64],
    numbers: &[u64],
) -> Result<Vec<u8>, AllocError> {
    let front = [
        magic,
        settings.region_log | (numbers.len() as u64) << 32,
        words.len() as u64,
        settings.allowance,
    ];
    let mut text = Vec::new(alloc);
    for part in [front.as_slice(), words, numbers] {
        put_words(&mut text, part)?;
    }
    Ok(text)
}

fn put_words(text: &mut Vec<u8>, words: &[u64]) -> Result<(), AllocError> {
    for word in words {
        text.extend_from_slice(&word.to_le_bytes())?;
    }
    Ok(())
}
