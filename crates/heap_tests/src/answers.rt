//! The results of the calls that read and write images.
use heap_image::{Alone, Fault, FromRead, Image, all_processors, decode, encode, read_image};
use std::alloc::Global;
use std::process::Abort;
use std::thread::Threads;

/// The fault of a result, which must be one.
pub fn expect_fault(rt: &impl Abort, outcome: Result<Image, Fault>) -> Fault {
    match outcome {
        Ok(_) => panic!(rt; "an image"),
        Err(fault) => fault,
    }
}

/// Whether an image has this text.
pub fn is_text(alloc: Global, image: &Image, text: &[u8]) -> Result<bool, Fault> {
    Ok(encode(alloc, image)?.as_slice() == text)
}

/// Whether an image comes unchanged through each call that allocates memory to read or to encode one.
pub fn comes_through(
    alloc: Global,
    threads: &(impl Threads + Sync),
    text: &[u8],
) -> Result<bool, Fault> {
    let decoded = is_decoded_by_threads(alloc, threads, text)?;
    let read = is_read_by_threads(alloc, threads, text)?;
    let alone = is_decoded(alloc, text)? && is_read(alloc, text)?;
    Ok(decoded && read && alone)
}

fn is_decoded_by_threads(
    alloc: Global,
    threads: &(impl Threads + Sync),
    text: &[u8],
) -> Result<bool, Fault> {
    let image = decode(alloc, text, &all_processors(threads))?;
    is_text(alloc, &image, text)
}

fn is_read_by_threads(
    alloc: Global,
    threads: &(impl Threads + Sync),
    text: &[u8],
) -> Result<bool, Fault> {
    let image = read_image(alloc, &mut FromRead::new(text), &all_processors(threads))?;
    is_text(alloc, &image, text)
}

fn is_decoded(alloc: Global, text: &[u8]) -> Result<bool, Fault> {
    let image = decode(alloc, text, &Alone)?;
    is_text(alloc, &image, text)
}

fn is_read(alloc: Global, text: &[u8]) -> Result<bool, Fault> {
    let image = read_image(alloc, &mut FromRead::new(text), &Alone)?;
    is_text(alloc, &image, text)
}

/// Whether each result is true or fault 11, and at least one is true.
pub fn are_right(results: &[Result<bool, Fault>]) -> bool {
    let mut all = results.iter();
    let is_right = |it: &Result<bool, Fault>| *it == Ok(true) || *it == Err(Fault::Memory);
    all.all(is_right) && results.contains(&Ok(true))
}
