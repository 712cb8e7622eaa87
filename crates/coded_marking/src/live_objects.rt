//! The marked objects, listed.
ghost use Rattle.std.specs.Prelude.{◌≡◌, ◌<◌, ◌≤◌, All, IfOk, IfErr, map, length};
ghost use Rattle.object_heap.specs.Bits.{room};
ghost use Rattle.object_heap.specs.HeapImage.{heap_words, size_at};
ghost use Rattle.coded_marking.specs.Marking.{set_below};
ghost use Rattle.coded_marking.specs.ListError.{IsTooLarge};

use crate::coded_heap::CodedHeap;
use crate::list_error::ListError;
use object_heap::Bits;
use std::alloc::{AllocError, Global};

/// Where marked objects are, and their sizes.
#[derive(Drop)]
pub struct LiveObjects {
    /// Their addresses, in words, ascending.
    pub addresses: Vec<u64>,
    /// Their sizes, in words, in the same order.
    pub sizes: Vec<u32>,
}

/// The addresses of a set below `words`, ascending.
pub(crate) fn addresses_below(
    alloc: Global,
    bits: &Bits,
    words: u64,
) -> Result<Vec<u64>, AllocError>
    requires few { words ≤ 68719476736 }
    requires room { room bits.now ≤ 68719476800 }
    requires inside { words < room bits.now }
    ensures { IfOk result (λ addresses. addresses.items ≡ set_below words bits.now) }
{
    let mut addresses = Vec::with_capacity(alloc, bits.count(0, words) as usize)?;
    let mut from = 0;
    while let Some(a) = bits.next_before(from, words) {
        addresses.push(a)?;
        from = a + 1;
    }
    Ok(addresses)
}

/// The sizes in words of the objects at these addresses. Returns an error if memory runs out, or if one has 2^32 words or more.
pub(crate) fn sizes_of(
    alloc: Global,
    heap: &CodedHeap<'_>,
    addresses: &[u64],
) -> Result<Vec<u32>, ListError>
    requires { All (λ a. a < heap_words heap.now) addresses.now }
    ensures sizes { IfOk result (λ sizes. sizes.items ≡ map (size_at heap.now) addresses.now) }
    ensures too_large { IfErr result (IsTooLarge heap.now addresses.now) }
{
    let mut sizes = Vec::with_capacity(alloc, addresses.len())?;
    for address in addresses {
        let Ok(size) = u32::try_from(heap.size_at(*address)) else {
            return Err(ListError::TooLarge { address: *address });
        };
        sizes.push(size)?;
    }
    Ok(sizes)
}
