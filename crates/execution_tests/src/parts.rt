//! The update of deferred objects of larger heaps by several threads.
ghost use Rattle.std.specs.Prelude.{◌≡◌, []};
ghost use Rattle.claim_board.specs.Boards.{board_of, held};
ghost use Rattle.claim_board.specs.RegionBoards.{identity};

use crate::checks::{equal, holds};
use crate::heaps::{Heap, fill_below, heap_of, joined};
use claim_board::Seat;
use fill::{clear_above, update_deferred};
use heap_image::{Fault, Image};
use heap_samples::{DEAD, Settings, image_of};
use std::alloc::{AllocError, Global};
use std::test::Fail;
use std::thread::Threads;
use thread_row::Many;

/// The number of regions of 8 words in a heap: enough for several threads.
const REGIONS: u64 = 4_096;

/// The number of live words in a region if an object begins in each.
const LIVE: u64 = 6;

/// The header of an object of six words, of which three are references.
const SMALL: u64 = 0x0100_0003_0000_0006;

/// An object of six words at `address`, whose references lead to itself, to the object at `next`, and nowhere.
fn object(address: u64, next: u64, number: u64) -> [u64; 6] {
    [
        SMALL,
        address.wrapping_add(1),
        next.wrapping_add(1),
        0,
        number,
        DEAD,
    ]
}

/// One object every `stride` words, with dead words between them. The last one refers to itself twice.
fn objects_apart(alloc: Global, stride: u64) -> Result<Vec<u64>, AllocError> {
    let mut words = Vec::new(alloc);
    for i in 0..REGIONS {
        let address = i.wrapping_mul(stride);
        let next = address.wrapping_add(if i < REGIONS - 1 { stride } else { 0 });
        words.extend_from_slice(&object(address, next, i))?;
        for _ in LIVE..stride {
            words.push(DEAD)?;
        }
    }
    Ok(words)
}

/// The first address of each region.
fn region_starts(alloc: Global) -> Result<Vec<u64>, AllocError> {
    let mut starts = Vec::new(alloc);
    for i in 0..REGIONS {
        starts.push(i.wrapping_mul(8))?;
    }
    Ok(starts)
}

/// The words of the compaction, with the deferred objects updated by `workers` workers.
fn compacted_by<R: Threads + Sync>(
    rt: &R,
    alloc: Global,
    image: &Image,
    workers: usize,
) -> Result<Vec<u64>, Fault> {
    let (heap, mut seat) = heap_of(alloc, image, rt)?;
    let end = heap.survey.plan().fill_regions();
    if fill_below(&heap, &mut seat, alloc, end) {
        updated_by(rt, alloc, heap, seat, workers)
    } else {
        Err(Fault::Gate)
    }
}

/// The words of a filled heap, with its deferred objects updated by `workers` workers.
fn updated_by<R: Threads + Sync>(
    rt: &R,
    alloc: Global,
    heap: Heap,
    seat: Seat,
    workers: usize,
) -> Result<Vec<u64>, Fault>
    requires { (board_of seat.pass ≡ identity heap.board) × (held seat.pass ≡ []) }
{
    let (survey, mut regions) = heap.into_moved(alloc, seat)?;
    let many = Many {
        threads: rt,
        most: workers,
    };
    update_deferred(regions.as_mut_slice(), &survey, &many);
    clear_above(regions.as_mut_slice(), survey.plan().new_top());
    Ok(joined(alloc, regions.as_slice())?)
}

/// Whether `workers` workers compact the heap of these words and live addresses to `expected`.
fn is_compacted<R: AllocGlobal + Threads + Sync>(
    rt: &R,
    (words, live): (&[u64], &[u64]),
    workers: usize,
    expected: &[u64],
) -> Result<bool, Fail> {
    let image = image_of(rt.alloc(), Settings::of_base(0), words, live, rt)?;
    Ok(compacted_by(rt, rt.alloc(), &image, workers)?.as_slice() == expected)
}

/// Whether `workers` workers compact the heap with an object in each region to `expected`.
fn rows_are_compacted<R: AllocGlobal + Threads + Sync>(
    rt: &R,
    expected: &[u64],
    workers: usize,
) -> Result<bool, Fail> {
    let words = objects_apart(rt.alloc(), 8)?;
    let starts = region_starts(rt.alloc())?;
    is_compacted(rt, (words.as_slice(), starts.as_slice()), workers, expected)
}

/// The objects without dead words between them, and then zeros.
fn compacted_rows(alloc: Global) -> Result<Vec<u64>, AllocError> {
    let mut expected = objects_apart(alloc, LIVE)?;
    expected.resize(REGIONS as usize * 8, 0)?;
    Ok(expected)
}

#[test]
fn deferred_objects_are_updated_in_parts(rt: HostRuntime) -> Result<(), Fail> {
    let expected = compacted_rows(rt.alloc())?;
    for workers in [0, 1, 2, 3, 4, 8, 64] {
        equal(
            &rt,
            (
                workers,
                rows_are_compacted(&rt, expected.as_slice(), workers)?,
            ),
            (workers, true),
        );
    }
    Ok(())
}

/// An object from `address` to the end of the heap, whose words after the header are all references to itself.
fn one_object(alloc: Global, address: u64) -> Result<Vec<u64>, AllocError> {
    let size = REGIONS.wrapping_mul(8).wrapping_sub(1);
    let references = size.wrapping_sub(1);
    let mut words = vec![in alloc; address.wrapping_add(1); REGIONS.wrapping_mul(8) as usize]?;
    if let Some(header) = words.get_mut(address as usize) {
        *header = 1 << 56 | references << 32 | size;
    }
    Ok(words)
}

/// The compaction of that heap.
fn one_object_compacted(alloc: Global) -> Result<Vec<u64>, AllocError> {
    let mut expected = one_object(alloc, 0)?;
    expected.pop();
    expected.push(0)?;
    Ok(expected)
}

#[test]
fn one_object_over_all_regions_is_updated_in_one_part(rt: HostRuntime) -> Result<(), Fail> {
    let words = one_object(rt.alloc(), 1)?;
    let expected = one_object_compacted(rt.alloc())?;
    holds(
        &rt,
        is_compacted(&rt, (words.as_slice(), &[1]), 4, expected.as_slice())?,
    );
    Ok(())
}
