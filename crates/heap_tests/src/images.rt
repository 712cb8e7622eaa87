//! Tests of images that are read, written, taken apart and rebuilt.

mod buffered;
mod devices;
mod failing_once;
pub(crate) mod from_regions;
mod length_causes;
mod refusals;
pub(crate) mod roots;
mod shared_checks;
mod stores;
pub(crate) mod texts;
mod upgrading;
mod versions;

use crate::answers::{are_right, comes_through};
use crate::checks::{equal, equal_bytes, equal_words, holds};
use heap_image::{
    Alone, Fault, FromRead, Image, ToWrite, all_processors, decode, encode, header, read_image,
    write_image,
};
use heap_samples::{BASE_LIVE, BASE_WORDS, Base};
use mark_bitmap::Marks;
use std::alloc::Global;
use std::process::Abort;
use std::test::Fail;
use std::thread::Threads;
use texts::{base_text, front};
use thread_row::Many;

/// The first 32 bytes of the base heap.
const BASE_FRONT: [u8; 32] = [
    0x50, 0x43, 0x48, 0x45, 0x41, 0x50, 0x30, 0x31, 3, 0, 0, 0, 4, 0, 0, 0, 0x20, 0, 0, 0, 0, 0, 0,
    0, 0, 0, 0, 0, 0, 0, 0, 0,
];

#[test]
fn the_base_is_read_and_written(rt: HostRuntime) -> Result<(), Fail> {
    let text = base_text(rt.alloc())?;
    equal(&rt, front(3, 4, 32), BASE_FRONT);
    holds(&rt, text.starts_with(&BASE_FRONT));
    let (image, left) = read_whole(rt.alloc(), text.as_slice())?;
    equal(&rt, left, 0);
    check_image(&rt, &image);
    check_heap(&rt, &image);
    let written = write(rt.alloc(), &image)?;
    equal_bytes(&rt, written.as_slice(), text.as_slice());
    Ok(())
}

/// Reads an image, and returns it with the number of unread bytes.
fn read_whole(alloc: Global, text: &[u8]) -> Result<(Image, usize), Fault> {
    let mut reader = FromRead::new(text);
    let image = read_image(alloc, &mut reader, &Alone)?;
    Ok((image, reader.into_inner().len()))
}

fn write(alloc: Global, image: &Image) -> Result<Vec<u8>, Fault> {
    let mut writer = ToWrite::new(Vec::new(alloc));
    write_image(image, &mut writer)?;
    Ok(writer.into_inner())
}

/// Fails if this is not the image of the base heap.
fn check_image(rt: &impl Abort, image: &Image) {
    let numbers = (
        image.region_log(),
        image.region_words(),
        image.allowance(),
        image.len(),
        image.regions(),
    );
    equal(rt, numbers, (3, 8, 0, 32, 4));
    equal_words(rt, image.live(), &BASE_LIVE);
    holds(rt, 20 < image.len());
    holds(rt, 2 < image.regions());
    equal(rt, image.word(20), 0x0100_0008_0000_000A);
    equal_words(rt, image.region(2).words(), &BASE_WORDS[16..24]);
    let begins = image.begins().map(|begins| begins.count(0, 32));
    equal(rt, begins, Some(4));
}

/// Fails if the words are not those of the base heap.
fn check_heap(rt: &impl Abort, image: &Image) {
    let heap = image.heap();
    holds(rt, heap.len() == 32);
    equal(rt, heap.word(20), BASE_WORDS[20]);
    let word = heap.word(20);
    let fields = (
        header::size(word),
        header::references(word),
        header::kind(word),
    );
    equal(rt, fields, (10, 8, header::OBJECT));
    equal(rt, heap.size_at(20), 10);
    equal(rt, heap.reference(20, 2), 6);
    equal_words(rt, heap.row(21, 29), &BASE_WORDS[21..24]);
}

#[test]
fn sizes_are_kept_if_threads_check(rt: HostRuntime) -> Result<(), Fail> {
    let text = base_text(rt.alloc())?;
    let mut image = decode(rt.alloc(), text.as_slice(), &all_processors(&rt))?;
    equal(&rt, image.live().get(3), Some(&20));
    equal(&rt, last_size(&image), 10);
    image.forget_seen();
    holds(&rt, image.begins().is_none() && image.sizes().is_none());
    equal_bytes(&rt, encode(rt.alloc(), &image)?.as_slice(), text.as_slice());
    Ok(())
}

#[test]
fn marks_take_over_the_kept_bits(rt: HostRuntime) -> Result<(), Fail> {
    let text = base_text(rt.alloc())?;
    let mut image = decode(rt.alloc(), text.as_slice(), &all_processors(&rt))?;
    let many = Many {
        threads: &rt,
        most: 2,
    };
    let marks = Marks::taking_over(rt.alloc(), &mut image, &many)?;
    let begins = [marks.next_begin(13), marks.next_begin(21)];
    equal(&rt, begins, [Some(20), None]);
    holds(&rt, image.begins().is_none());
    equal(&rt, last_size(&image), 10);
    Ok(())
}

/// The size of the fourth live object, or 0 if no sizes are kept.
fn last_size(image: &Image) -> u32 {
    match image.sizes() {
        Some([first, ..]) => first[3],
        _ => 0,
    }
}

/// Whether the base heap with allowance 2 comes unchanged through each call that allocates memory.
fn base_comes_through(alloc: Global, threads: &(impl Threads + Sync)) -> Result<bool, Fault> {
    comes_through(
        alloc,
        threads,
        Base::WithLiveList.text(alloc, 2)?.as_slice(),
    )
}

/// A script runs this with each allocation refused in turn.
#[test]
fn refused_memory_is_reported(rt: HostRuntime) {
    let answers = [
        base_comes_through(rt.alloc(), &rt),
        base_comes_through(rt.alloc(), &rt),
    ];
    holds(&rt, are_right(&answers));
}

#[test]
fn an_image_is_taken_apart_and_rebuilt(rt: HostRuntime) -> Result<(), Fail> {
    let text = base_text(rt.alloc())?;
    let parts = decode(rt.alloc(), text.as_slice(), &all_processors(&rt))?.into_parts();
    equal(&rt, (parts.region_log, parts.allowance), (3, 0));
    equal(&rt, (parts.regions.len(), parts.live.len()), (4, 4));
    let image = parts.into_image();
    equal_bytes(&rt, encode(rt.alloc(), &image)?.as_slice(), text.as_slice());
    Ok(())
}
