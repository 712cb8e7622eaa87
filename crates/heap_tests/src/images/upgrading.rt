//! Tests of the upgrade to versions 2 and 3.
use super::devices::Full;
use super::roots::text_with_roots;
use super::texts::base_text;
use crate::answers::{are_right, is_text};
use crate::checks::{equal, equal_at, equal_bytes, equal_words, holds};
use heap_image::{
    Alone, Fault, FromRead, Image, Intake, Outlet, ToWrite, Version, all_processors, decode,
    read_image, upgrade, upgrade_to, write_image_buffered,
};
use heap_samples::{BASE_LIVE, BASE_WORDS, Base, Settings, Trickle, rooted_text};
use std::alloc::{AllocError, Global};
use std::process::Abort;
use std::test::Fail;
use std::thread::Threads;

/// The roots of the upgraded base heap.
const ROOTS: [u64; 4] = [1, 6, 13, 21];

/// Reads an image, upgrades it, writes it, and returns its number of roots.
fn upgrade_stream<R: Intake, O: Outlet>(
    alloc: Global,
    reader: &mut R,
    writer: &mut O,
) -> Result<u32, Fault> {
    let image = match upgrade(alloc, read_image(alloc, reader, &Alone)?) {
        Ok(image) => image,
        Err((_, fault)) => return Err(fault),
    };
    write_image_buffered(alloc, &image, writer)?;
    Ok(image.roots().len() as u32)
}

/// Upgrades a stream, and returns the result and the bytes that are written.
fn upgrade_bytes(alloc: Global, bytes: &[u8]) -> (Result<u32, Fault>, Vec<u8>) {
    let mut writer = ToWrite::new(Vec::new(alloc));
    let answer = upgrade_stream(alloc, &mut FromRead::new(bytes), &mut writer);
    (answer, writer.into_inner())
}

/// Fails if the upgrade of this image, which has four roots, is another one.
fn check_kept(rt: &impl Abort, alloc: Global, text: &[u8]) {
    let (count, again) = upgrade_bytes(alloc, text);
    equal(rt, count, Ok(4));
    equal_bytes(rt, again.as_slice(), text);
}

#[test]
fn the_base_heap_is_upgraded_once(rt: HostRuntime) -> Result<(), Fail> {
    let (count, mut text) = upgrade_bytes(rt.alloc(), base_text(rt.alloc())?.as_slice());
    equal(&rt, count, Ok(4));
    equal(&rt, text.len(), 320);
    let wanted = text_with_roots(rt.alloc(), &BASE_WORDS, &ROOTS)?;
    equal_bytes(&rt, text.as_slice(), wanted.as_slice());
    let image = decode(rt.alloc(), text.as_slice(), &all_processors(&rt))?;
    equal_words(&rt, image.live(), &BASE_LIVE);
    check_kept(&rt, rt.alloc(), text.as_slice());
    if let Some(digit) = text.get_mut(7) {
        *digit = b'3';
    }
    check_kept(&rt, rt.alloc(), text.as_slice());
    Ok(())
}

/// Upgrades a stream whose reader fails at byte `limit`. Returns the result, whether the reader and the writer have
/// failed, and the number of bytes that are written.
fn upgrade_broken(
    alloc: Global,
    text: &[u8],
    limit: usize,
) -> (Result<u32, Fault>, [bool; 2], usize) {
    let mut reader = FromRead::new(Trickle {
        bytes: text,
        step: 7,
        limit,
    });
    let mut writer = ToWrite::new(Vec::new(alloc));
    let answer = upgrade_stream(alloc, &mut reader, &mut writer);
    let failed = [reader.failed(), writer.failed()];
    (answer, failed, writer.into_inner().len())
}

#[test]
fn a_reader_fails_at_each_byte(rt: HostRuntime) -> Result<(), Fail> {
    let text = base_text(rt.alloc())?;
    for limit in 0..=text.len() {
        let found = upgrade_broken(rt.alloc(), text.as_slice(), limit);
        equal_at(&rt, found, (Err(Fault::Io), [true, false], 0), limit);
    }
    Ok(())
}

/// Upgrades a stream to a writer that takes `limit` bytes, and then fails or takes none. Returns these bytes.
fn upgrade_cut(rt: &impl Abort, alloc: Global, old: &[u8], limit: usize, fails: bool) -> Vec<u8> {
    let mut full = ToWrite::new(Full {
        bytes: Vec::new(alloc),
        step: 7,
        limit,
        fails,
    });
    let answer = upgrade_stream(alloc, &mut FromRead::new(old), &mut full);
    equal_at(rt, answer, Err(Fault::Io), limit);
    holds(rt, full.failed());
    full.into_inner().bytes
}

#[test]
fn a_writer_is_full_at_each_byte(rt: HostRuntime) -> Result<(), Fail> {
    let old = base_text(rt.alloc())?;
    let text = text_with_roots(rt.alloc(), &BASE_WORDS, &ROOTS)?;
    for limit in 0..text.len() {
        let taken = upgrade_cut(&rt, rt.alloc(), &old, limit, false);
        equal_bytes(&rt, taken.as_slice(), &text[..limit]);
        let taken = upgrade_cut(&rt, rt.alloc(), &old, limit, true);
        equal_bytes(&rt, taken.as_slice(), &text[..limit]);
    }
    Ok(())
}

/// The base heap with allowance 2 in version 1, and upgraded.
#[derive(Drop)]
struct Texts {
    old: Vec<u8>,
    new: Vec<u8>,
}

fn both_texts(alloc: Global) -> Result<Texts, AllocError> {
    Ok(Texts {
        old: Base::WithLiveList.text(alloc, 2)?,
        new: rooted_text(alloc, Settings::of_base(2), &BASE_WORDS, &ROOTS)?,
    })
}

/// Whether an image is upgraded to the right one. Returns false also if memory runs out and the image isn't returned
/// unchanged.
fn is_upgraded(
    alloc: Global,
    threads: &(impl Threads + Sync),
    texts: &Texts,
) -> Result<bool, Fault> {
    match upgrade(alloc, decode(alloc, &texts.old, &all_processors(threads))?) {
        Ok(new) => is_text(alloc, &new, &texts.new),
        Err((same, fault)) => is_refused(alloc, &same, &texts.old, fault),
    }
}

/// Returns this fault if the returned image has its old text, and otherwise false.
fn is_refused(alloc: Global, back: &Image, text: &[u8], fault: Fault) -> Result<bool, Fault> {
    if is_text(alloc, back, text)? {
        Err(fault)
    } else {
        Ok(false)
    }
}

/// Whether an image is upgraded to this version, which has this text. Returns false also if memory runs out and the image
/// isn't returned unchanged.
fn is_upgraded_to(
    alloc: Global,
    threads: &(impl Threads + Sync),
    version: Version,
    old: &[u8],
    new: &[u8],
) -> Result<bool, Fault> {
    match upgrade_to(
        alloc,
        decode(alloc, old, &all_processors(threads))?,
        version,
    ) {
        Ok(image) => is_text(alloc, &image, new),
        Err((same, fault)) => is_refused(alloc, &same, old, fault),
    }
}

/// Whether images of each version are upgraded to version 3, and stay in earlier ones.
fn are_upgraded_to(
    alloc: Global,
    threads: &(impl Threads + Sync),
    texts: &Texts,
) -> Result<bool, Fault> {
    let mut third = Vec::from_iter(alloc, texts.new.iter().copied())?;
    if let Some(digit) = third.get_mut(7) {
        *digit = b'3';
    }
    let (old, new, third) = (texts.old.as_slice(), texts.new.as_slice(), third.as_slice());
    for (version, from, to) in [
        (Version::One, old, old),
        (Version::One, new, new),
        (Version::Two, old, new),
        (Version::Two, third, third),
        (Version::Three, old, third),
        (Version::Three, new, third),
        (Version::Three, third, third),
    ] {
        if !is_upgraded_to(alloc, threads, version, from, to)? {
            return Ok(false);
        }
    }
    Ok(true)
}

/// Whether an image with roots is upgraded to itself, which allocates no memory.
fn stays(alloc: Global, threads: &(impl Threads + Sync), texts: &Texts) -> Result<bool, Fault> {
    match upgrade(alloc, decode(alloc, &texts.new, &all_processors(threads))?) {
        Ok(same) => is_text(alloc, &same, &texts.new),
        Err(_) => Ok(false),
    }
}

/// Whether the right text is written. Returns false also if memory runs out after something is written.
fn is_written(alloc: Global, texts: &Texts) -> Result<bool, Fault> {
    let mut writer = ToWrite::new(Full {
        bytes: Vec::with_capacity(alloc, 400)?,
        step: 100,
        limit: usize::MAX,
        fails: true,
    });
    let answer = upgrade_stream(alloc, &mut FromRead::new(texts.old.as_slice()), &mut writer);
    let written = writer.into_inner().bytes;
    match answer {
        Ok(count) => Ok(count == 4 && written == texts.new),
        Err(fault) if written.is_empty() => Err(fault),
        Err(_) => Ok(false),
    }
}

/// Whether all upgrades are right.
fn comes_through(alloc: Global, threads: &(impl Threads + Sync)) -> Result<bool, Fault> {
    let texts = both_texts(alloc)?;
    let is_right = is_upgraded(alloc, threads, &texts)? && is_written(alloc, &texts)?;
    let stays_right = is_right && are_upgraded_to(alloc, threads, &texts)?;
    Ok(stays_right && stays(alloc, threads, &texts)?)
}

/// A script runs this with each allocation refused in turn.
#[test]
fn refused_memory_is_reported(rt: HostRuntime) {
    let answers = [
        comes_through(rt.alloc(), &rt),
        comes_through(rt.alloc(), &rt),
    ];
    holds(&rt, are_right(&answers));
}
