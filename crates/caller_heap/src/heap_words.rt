//! Reads an image from words in memory.
ghost use Rattle.std.specs.Prelude.{◌≡◌, ◌<◌, ◌≤◌, ◌*◌, ◌^◌, ◌++◌, false, All, IfOk, length, take, min};
ghost use Rattle.std.specs.List.{concat};
ghost use Rattle.object_heap.specs.HeapImage.{AreBlocks};
ghost use Rattle.heap_image.specs.ImageText.{front};
ghost use Rattle.caller_heap.specs.HeapWords.{bytes_left};

use crate::settings::HeapSettings;
use heap_image::{Body, BodySize, FRONT_BYTES, Failed, Front, Intake, Version, regions_by_log};
use raw_region::{Region, RegionPool};
use std::alloc::{AllocError, Global};

/// A device that gives the bytes of the image of a heap in memory, and its body only at once. If memory runs out, it
/// fails.
#[derive(Drop)]
pub(crate) struct HeapWords<'a> {
    /// The bytes of the front that it still has.
    pub(crate) front: &'a [u8],
    pub(crate) words: &'a [u64],
    /// The live addresses or the roots.
    pub(crate) tail: &'a [u64],
    pub(crate) has_failed: bool,
}

impl Intake for HeapWords<'_> {
    ghost use Rattle.std.specs.Prelude.{Some};
    ghost use Rattle.caller_heap.specs.HeapWords.{bytes_left};

    ghost left = { λ heap. Some (bytes_left heap) };

    ghost has_failed = { λ heap. heap.has_failed };

    fn take(&mut self, buffer: &mut [u8]) -> Result<usize, Failed> {
        if self.has_failed {
            return Err(Failed);
        }
        if !self.front.is_empty() {
            let count = self.front.len().min(buffer.len());
            let (taken, rest) = self.front.split_at(count);
            buffer[..count].copy_from_slice(taken);
            self.front = rest;
            return Ok(count);
        }
        if buffer.is_empty() || (self.words.is_empty() && self.tail.is_empty()) {
            return Ok(0);
        }
        self.has_failed = true;
        Err(Failed)
    }

    fn failed(&self) -> bool {
        self.has_failed
    }

    fn take_body(&mut self, alloc: Global, size: BodySize) -> Option<Body> {
        let words = self.words;
        let tail = self.tail;
        if !self.front.is_empty()
            || words.len() != size.regions << size.region_log
            || tail.len() != size.numbers
        {
            return None;
        }
        let body = body_of(alloc, size, words, tail).ok()?;
        self.words = &[];
        self.tail = &[];
        Some(body)
    }
}

/// The front of the image of a heap. A count of live objects or roots over 32 bits becomes the largest.
pub fn front_of(
    version: Version,
    settings: HeapSettings,
    words: usize,
    numbers: usize,
) -> [u8; FRONT_BYTES]
    ensures { result ≡ front version settings.region_log (min numbers 4294967295) words settings.allowance }
{
    let front = Front {
        version,
        region_log: settings.region_log,
        count: numbers.min(u32::MAX as usize) as u32,
        words: words as u64,
        allowance: settings.allowance,
    };
    front.to_bytes()
}

/// A body with copies of these words and numbers.
fn body_of(alloc: Global, size: BodySize, words: &[u64], tail: &[u64]) -> Result<Body, AllocError>
    requires log { size.region_log ≤ 20 }
    requires whole { length words.now ≡ size.regions * 2 ^ size.region_log }
    ensures whole { IfOk result (λ body. AreBlocks size.region_log body.regions.items) }
    ensures count { IfOk result (λ body. length body.regions.items ≡ size.regions) }
    ensures words { IfOk result (λ body. concat body.regions.items ≡ words.now) }
    ensures tail { IfOk result (λ body. body.tail.items ≡ tail.now) }
    ensures words_fit { All (λ w. w < 2 ^ 64) words.now }
    ensures tail_fit { All (λ w. w < 2 ^ 64) tail.now }
{
    let regions = regions_of(alloc, size, words)?;
    let tail = Vec::from_slice(alloc, tail)?;
    Ok(Body { regions, tail })
}

/// Copies the words into regions of one allocation.
fn regions_of(alloc: Global, size: BodySize, words: &[u64]) -> Result<Vec<Region>, AllocError>
    requires log { size.region_log ≤ 20 }
    requires whole { length words.now ≡ size.regions * 2 ^ size.region_log }
    ensures whole { IfOk result (λ regions. AreBlocks size.region_log regions.items) }
    ensures count { IfOk result (λ regions. length regions.items ≡ size.regions) }
    ensures words { IfOk result (λ regions. concat regions.items ≡ words.now) }
{
    regions_by_log();
    let mut regions = Vec::with_capacity(alloc, size.regions)?;
    if size.regions == 0 {
        return Ok(regions);
    }
    let len = 1 << size.region_log;
    let pool = RegionPool::new(alloc, size.regions, len)?;
    let mut rest = words;
    for r in 0..size.regions {
        let (first, others) = rest.split_at(len);
        regions.push(pool.take_with(r, first).ok_or(AllocError)?)?;
        rest = others;
    }
    Ok(regions)
}
