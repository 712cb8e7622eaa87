//! Texts of the base heap and of its compactions.
use collector::Figures;
use heap_image::{Fault, Image, all_processors, decode, encode};
use heap_samples::{
    BASE_WORDS, Base, MOVED_LIVE, MOVED_ROOTS, MOVED_WORDS, Settings, image_text, rooted_text,
};
use plain_compaction::compact_plainly;
use std::alloc::{AllocError, Global};
use std::thread::Threads;

/// The text of an image, and that of its compaction.
#[derive(Drop)]
pub(crate) struct Texts {
    pub(crate) before: Vec<u8>,
    pub(crate) after: Vec<u8>,
}

/// The texts of the base heap with allowance 0.
pub(crate) fn slid(alloc: Global, base: Base) -> Result<Texts, AllocError> {
    let before = base.text(alloc, 0)?;
    let after = moved(alloc, base)?;
    Ok(Texts { before, after })
}

fn moved(alloc: Global, base: Base) -> Result<Vec<u8>, AllocError> {
    let settings = Settings::of_base(0);
    match base {
        Base::WithLiveList => image_text(alloc, settings, &MOVED_WORDS, &MOVED_LIVE),
        Base::WithRoots => rooted_text(alloc, settings, &MOVED_WORDS, &MOVED_ROOTS),
    }
}

/// The texts of the base heap with allowance 2, whose first region stays.
pub(crate) fn with_prefix(
    alloc: Global,
    base: Base,
    threads: &(impl Threads + Sync),
) -> Result<Texts, Fault> {
    let before = base.text(alloc, 2)?;
    let after = compacted(alloc, &before, threads)?;
    Ok(Texts { before, after })
}

/// The text of the plain compaction of the image with this text.
fn compacted(
    alloc: Global,
    text: &[u8],
    threads: &(impl Threads + Sync),
) -> Result<Vec<u8>, Fault> {
    let image = decode(alloc, text, &all_processors(threads))?;
    text_compacted(alloc, &image)
}

fn text_compacted(alloc: Global, image: &Image) -> Result<Vec<u8>, Fault> {
    let after = compact_plainly(alloc, image)?;
    Ok(encode(alloc, &after)?)
}

/// The texts of the base heap with a root that doesn't reach the last object.
pub(crate) fn without_the_last(alloc: Global) -> Result<Texts, AllocError> {
    let (mut words, mut moved) = (BASE_WORDS, MOVED_WORDS);
    words[2] = 0;
    moved[2] = 0;
    moved[9..].fill(0);
    let before = rooted_text(alloc, Settings::of_base(0), &words, &[1])?;
    let after = rooted_text(alloc, Settings::of_base(0), &moved, &[1])?;
    Ok(Texts { before, after })
}

pub(crate) fn figures(prefix_end: u64, new_top: u64, filled: u32) -> Figures {
    Figures {
        prefix_end,
        new_top,
        filled,
    }
}
