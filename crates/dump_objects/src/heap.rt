//! The words of an image under construction.
ghost use Rattle.std.specs.Prelude.{◌≡◌, ◌<◌, ◌≤◌, ◌^◌, ◌≢◌};
ghost use Rattle.object_heap.specs.HeapImage.{AreBlocks};

pub(crate) mod arrangement;
pub(crate) mod weak_reference;

use dump_records::ImportError;
use heap_image::regions_by_log;
use raw_region::Region;
use std::alloc::{AllocError, Global};

/// The most references of an object: their number has 24 bits of its header.
const MAX_REFERENCES: u64 = 0xFF_FFFF;

/// The words of a heap, in regions of `2 ^ region_log` words.
///
/// Its objects have first words in place of headers: the size in bits 0 to 31 and, once the object is filled in, the
/// number of references in bits 32 to 63. `Objects::seal` makes headers of them.
#[derive(Drop)]
pub struct UnsealedHeap {
    region_log: u32,
    regions: Vec<Region>,
    ghost low: { 3 ≤ region_log },
    ghost high: { region_log ≤ 20 },
    ghost whole: { AreBlocks region_log regions.items },
}

impl UnsealedHeap {
    /// Allocates a heap of at least `words` words and at least one region, all zero.
    pub fn new(alloc: Global, region_log: u32, words: u64) -> Result<UnsealedHeap, AllocError>
        requires low { 3 ≤ region_log }
        requires high { region_log ≤ 20 }
    {
        regions_by_log();
        let count = words.div_ceil(1 << region_log).max(1);
        let mut regions = Vec::new(alloc);
        for _r in 0..count {
            regions.push(Region::new(alloc, 1 << region_log)?)?;
        }
        Ok(UnsealedHeap {
            region_log,
            regions,
        })
    }

    /// The number of words.
    pub fn len(&self) -> u64 {
        (self.regions.len() as u64) << self.region_log
    }

    /// The word at an address, or 0 outside the heap.
    pub fn word(&self, address: u64) -> u64 {
        let index = self.region_of(address);
        if index >= self.regions.len() {
            return 0;
        }
        self.regions[index].get(self.place(address))
    }

    /// Sets the word at an address. An address outside the heap is ignored.
    pub fn put(&mut self, address: u64, word: u64) {
        let index = self.region_of(address);
        let place = self.place(address);
        if index < self.regions.len() {
            self.regions[index].set(place, word);
        }
    }

    /// Copies `count` words of another heap from address `from` on to address `to` on. Addresses outside the heaps are ignored.
    pub fn copy_from(&mut self, to: u64, other: &UnsealedHeap, from: u64, count: u64) {
        let mut done = 0u64;
        while done < count {
            let left = count - done;
            let to = to.saturating_add(done);
            let copied = self.copy_within_regions(to, other, from.saturating_add(done), left);
            if copied == 0 {
                return;
            }
            done += copied;
        }
    }

    /// Copies words as [`copy_from`](UnsealedHeap::copy_from) does, up to the end of a region of either heap. Returns their
    /// number, which is 0 outside the heaps.
    fn copy_within_regions(&mut self, to: u64, other: &UnsealedHeap, from: u64, count: u64) -> u64
        ensures { result ≤ count }
    {
        let (target, source) = (self.region_of(to), other.region_of(from));
        if target >= self.regions.len() || source >= other.regions.len() {
            return 0;
        }
        let (at, start) = (self.place(to), other.place(from));
        let rest = (self.region_words() - at).min(other.region_words() - start);
        let count = count.min(rest as u64);
        self.regions[target].copy_from(at, &other.regions[source], start, count as usize);
        count
    }

    /// The number of words of a region.
    fn region_words(&self) -> usize
        ensures { result ≡ 2 ^ self.now.region_log }
    {
        1 << self.region_log
    }

    /// The index of the region of an address.
    fn region_of(&self, address: u64) -> usize {
        (address >> self.region_log) as usize
    }

    /// The index of an address in its region.
    fn place(&self, address: u64) -> usize
        ensures { result < 2 ^ self.now.region_log }
    {
        (address & ((1 << self.region_log) - 1)) as usize
    }

    /// Returns the region log and the regions.
    pub fn into_parts(self) -> (u32, Vec<Region>)
        ensures low { 3 ≤ result.0 }
        ensures high { result.0 ≤ 20 }
        ensures whole { AreBlocks result.0 result.1.items }
    {
        let UnsealedHeap {
            region_log,
            regions,
        } = self;
        (region_log, regions)
    }
}

/// The first word of an object of this size.
pub fn first_word(size: u64, references: u64) -> u64 {
    ((references & 0xFFFF_FFFF) << 32) | (size & 0xFFFF_FFFF)
}

/// The size in a first word.
pub fn size(first: u64) -> u64 {
    first & 0xFFFF_FFFF
}

/// The number of references in a first word.
pub fn references(first: u64) -> u64 {
    first >> 32
}

/// The header for a first word. More references than a header can count are an error.
pub fn header(first: u64) -> Result<u64, ImportError>
    ensures { result ≢ Err ImportError.Input }
{
    if references(first) > MAX_REFERENCES {
        return Err(ImportError::TooManyReferences(references(first)));
    }
    Ok(first | 1 << 56)
}
