//! Tests of bodies that several threads read from a store.
use crate::checks::{equal, holds, holds_at};
use heap_image::{Body, BodySize, Extent, Failed, Store, body_at};
use raw_region::Region;
use std::alloc::{AllocError, Global};
use std::test::Fail;
use std::thread::Threads;

/// A body that is large enough for several threads. Its numbers are more than the share of one of three threads.
const SIZE: BodySize = BodySize {
    region_log: 9,
    regions: 500,
    numbers: 150_000,
};

/// The number of words of its regions.
const REGION_WORDS: u64 = 500 * 512;

/// The number of words of the body.
const WORDS: u64 = REGION_WORDS + 150_000;

/// Bytes in memory. Reading at offset `fails_from` or above fails.
#[derive(Drop)]
struct Failing<'a> {
    bytes: &'a [u8],
    fails_from: usize,
}

impl Store for Failing<'_> {
    ghost use Rattle.std.specs.Prelude.{None};

    ghost bytes = { λ _. None };

    fn take_at(&self, at: u64, buffer: &mut [u8]) -> Result<usize, Failed> {
        let at = self.bytes.len().min(at as usize);
        if at >= self.fails_from {
            return Err(Failed);
        }
        // A device may return fewer bytes than requested.
        let n = (self.bytes.len() - at).min(buffer.len()).min(1000);
        buffer[..n].copy_from_slice(&self.bytes[at..at + n]);
        Ok(n)
    }
}

/// A word that differs for each index.
fn mixed(word: u64) -> u64 {
    word.wrapping_mul(0x9E37_79B9_7F4A_7C15)
}

/// The bytes of the first of these words.
fn bytes_of_words(alloc: Global, words: u64) -> Result<Vec<u8>, AllocError> {
    let mut bytes = Vec::new(alloc);
    for word in 0..words {
        bytes.extend_from_slice(&mixed(word).to_le_bytes())?;
    }
    Ok(bytes)
}

/// Whether these are the words from index `first` on.
fn are_from(words: &[u64], first: u64) -> bool {
    let mut word = first;
    let mut same = true;
    for read in words {
        same &= *read == mixed(word);
        word = word.wrapping_add(1);
    }
    same
}

/// Whether the regions have the words from index `first` on.
fn regions_are_from(regions: &[Region], first: u64) -> bool {
    let mut word = first;
    let mut same = true;
    for region in regions {
        same &= are_from(region.words(), word);
        word = word.wrapping_add(region.len() as u64);
    }
    same
}

/// Whether a body has all its words, from index `first` on.
fn is_whole(body: &Body, first: u64) -> bool {
    let sizes = (body.regions.len(), body.tail.len());
    sizes == (SIZE.regions, SIZE.numbers)
        && regions_are_from(body.regions.as_slice(), first)
        && are_from(body.tail.as_slice(), first.wrapping_add(REGION_WORDS))
}

/// Whether at most `most` threads read the words from index 5 on.
fn are_read(
    threads: &(impl Threads + Sync),
    alloc: Global,
    store: &Failing<'_>,
    most: usize,
) -> bool {
    match body_at(alloc, store, Extent { at: 40, size: SIZE }, most, threads) {
        Some(body) => is_whole(&body, 5),
        None => false,
    }
}

#[test]
fn each_word_is_read_by_any_number_of_threads(rt: HostRuntime) -> Result<(), Fail> {
    let bytes = bytes_of_words(rt.alloc(), 5 + WORDS)?;
    let store = Failing {
        bytes: bytes.as_slice(),
        fails_from: usize::MAX,
    };
    for most in [0, 1, 2, 3, 4, 8, 64] {
        holds_at(&rt, are_read(&rt, rt.alloc(), &store, most), most);
    }
    Ok(())
}

/// Whether at most `most` threads find no body at offset 0 of these bytes.
fn is_missing(
    threads: &(impl Threads + Sync),
    alloc: Global,
    (bytes, fails_from): (&[u8], usize),
    most: usize,
) -> bool {
    let store = Failing { bytes, fails_from };
    body_at(alloc, &store, Extent { at: 0, size: SIZE }, most, threads).is_none()
}

#[test]
fn a_missing_or_failing_byte_gives_none(rt: HostRuntime) -> Result<(), Fail> {
    let bytes = bytes_of_words(rt.alloc(), WORDS)?;
    let last = bytes.len().saturating_sub(1);
    let stores = [
        (&bytes[..last], usize::MAX),
        (bytes.as_slice(), 0),
        (bytes.as_slice(), last / 2),
        (bytes.as_slice(), last / 8 * 7),
    ];
    for store in stores {
        let is_reported = [1, 2, 4]
            .iter()
            .all(|most| is_missing(&rt, rt.alloc(), store, *most));
        holds_at(&rt, is_reported, store.1);
    }
    Ok(())
}

#[test]
fn more_words_than_a_block_may_have_give_none(rt: HostRuntime) {
    let store = Failing {
        bytes: &[],
        fails_from: usize::MAX,
    };
    let size = BodySize {
        region_log: 20,
        regions: 1 << 40,
        numbers: 0,
    };
    let body = body_at(rt.alloc(), &store, Extent { at: 0, size }, 4, &rt);
    holds(&rt, body.is_none());
}

#[test]
fn an_extent_ends_within_64_bits(rt: HostRuntime) {
    let size = BodySize {
        region_log: 3,
        regions: 1,
        numbers: 2,
    };
    for (at, end) in [(u64::MAX - 80, Some(u64::MAX)), (u64::MAX - 79, None)] {
        equal(&rt, Extent { at, size }.end(), end);
    }
}
