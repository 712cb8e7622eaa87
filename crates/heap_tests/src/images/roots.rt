//! Tests of images with roots.
use super::texts::base_text;
use crate::answers::{are_right, comes_through, is_text};
use crate::checks::{equal, equal_words, holds, holds_at};
use heap_image::{
    Alone, Fault, FromRead, Version, all_processors, decode, mark_from_roots, read_image,
};
use heap_samples::{BASE_LIVE, BASE_ROOTS, BASE_WORDS, Base, Settings, rooted_text};
use std::alloc::{AllocError, Global};
use std::process::Abort;
use std::test::Fail;
use std::thread::Threads;

/// The header of an object of `size` words, header included, that begins with `references` references.
pub const fn object(size: u64, references: u64) -> u64 {
    1 << 56 | references << 32 | size
}

/// The text of a heap in regions of 8 words, with no allowance and these roots.
pub fn text_with_roots(alloc: Global, words: &[u64], roots: &[u64]) -> Result<Vec<u8>, AllocError> {
    rooted_text(alloc, Settings::of_base(0), words, roots)
}

/// Whether an image with roots is read and decoded unchanged, with these live objects.
fn is_live(
    rt: &(impl Threads + Sync),
    alloc: Global,
    words: &[u64],
    roots: &[u64],
    live: &[u64],
) -> Result<bool, Fault> {
    let text = text_with_roots(alloc, words, roots)?;
    let read = is_read(rt, alloc, text.as_slice(), roots, live)?;
    let decoded = is_decoded(rt, alloc, text.as_slice(), live)?;
    Ok(read && decoded)
}

fn is_read(
    rt: &(impl Threads + Sync),
    alloc: Global,
    text: &[u8],
    roots: &[u64],
    live: &[u64],
) -> Result<bool, Fault> {
    let read = read_image(alloc, &mut FromRead::new(text), &all_processors(rt))?;
    Ok(read.live() == live && read.roots() == roots && read.version() == Version::Two)
}

fn is_decoded(
    rt: &(impl Threads + Sync),
    alloc: Global,
    text: &[u8],
    live: &[u64],
) -> Result<bool, Fault> {
    let image = decode(alloc, text, &all_processors(rt))?;
    let is_text = is_text(alloc, &image, text)?;
    Ok(is_text && image.live() == live)
}

/// Fails if these words with these roots don't have these live objects. Each row is roots and live objects.
fn try_live(
    rt: &(impl Abort + Threads + Sync),
    alloc: Global,
    words: &[u64],
    rows: &[(&[u64], &[u64])],
) -> Result<(), Fault> {
    for (row, (roots, live)) in rows.iter().enumerate() {
        holds_at(rt, is_live(rt, alloc, words, roots, live)?, row);
    }
    Ok(())
}

#[test]
fn roots_are_read_and_written(rt: HostRuntime) -> Result<(), Fail> {
    let text = Base::WithRoots.text(rt.alloc(), 0)?;
    equal(&rt, text.len(), 304);
    holds(&rt, text.starts_with(b"PCHEAP02"));
    let rows: [(&[u64], &[u64]); 3] = [(&BASE_ROOTS, &BASE_LIVE), (&[], &[]), (&[0], &[])];
    try_live(&rt, rt.alloc(), &BASE_WORDS, &rows)?;
    let mut words = BASE_WORDS;
    words[2] = 0;
    try_live(&rt, rt.alloc(), &words, &[(&[1], &[0, 5, 12])])?;
    Ok(())
}

/// Marks the base heap from at most as many roots as it has live objects.
fn mark_base(
    alloc: Global,
    threads: &(impl Threads + Sync),
    roots: &[u64],
) -> Result<Vec<u64>, Fault> {
    let text = base_text(alloc)?;
    let parts = decode(alloc, text.as_slice(), &all_processors(threads))?.into_parts();
    if roots.len() <= parts.live.len() {
        mark_from_roots(
            alloc,
            parts.region_log,
            parts.regions.as_slice(),
            roots,
            &Alone,
        )
    } else {
        Err(Fault::Length)
    }
}

#[test]
fn mark_from_roots_finds_the_same_objects(rt: HostRuntime) -> Result<(), Fail> {
    let live = mark_base(rt.alloc(), &rt, &BASE_ROOTS)?;
    equal_words(&rt, live.as_slice(), &BASE_LIVE);
    let none = mark_base(rt.alloc(), &rt, &[0, 0, 0, 0])?;
    holds(&rt, none.is_empty());
    let rows: [(&[u64], Fault); 2] = [(&[4], Fault::Header(3)), (&[4, 33], Fault::Root(1))];
    for (roots, fault) in rows {
        let found = mark_base(rt.alloc(), &rt, roots).err();
        equal(&rt, found, Some(fault));
    }
    Ok(())
}

/// Whether the base heap with roots and allowance 2 comes unchanged through each call that allocates memory.
fn base_comes_through(alloc: Global, threads: &(impl Threads + Sync)) -> Result<bool, Fault> {
    let marked = mark_base(alloc, threads, &BASE_ROOTS)?;
    let text = Base::WithRoots.text(alloc, 2)?;
    Ok(marked.as_slice() == BASE_LIVE.as_slice() && comes_through(alloc, threads, &text)?)
}

/// A script runs this with each allocation refused in turn.
#[test]
fn refused_memory_is_reported(rt: HostRuntime) {
    let answers = [
        base_comes_through(rt.alloc(), &rt),
        base_comes_through(rt.alloc(), &rt),
    ];
    holds(&rt, are_right(&answers));
}
