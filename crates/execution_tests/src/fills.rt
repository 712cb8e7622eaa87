//! Fills of heaps whose compactions are known.
ghost use Rattle.std.specs.Prelude.{◌≡◌, []};
ghost use Rattle.claim_board.specs.Boards.{board_of, held};
ghost use Rattle.claim_board.specs.RegionBoards.{identity};

use crate::checks::equal_items;
use crate::heaps::{Heap, fill_in_order, heap_of, joined, moved_and_compacted};
use claim_board::Seat;
use fill::clear_above;
use heap_image::{Fault, Image};
use heap_samples::{BASE_LIVE, DEAD, Settings, base_image, image_of};
use raw_region::Region;
use std::alloc::{AllocError, Global};
use std::process::Abort;
use std::test::Fail;
use std::thread::Threads;

/// The headers of the objects of the base heap.
const FIRST: u64 = 0x0100_0002_0000_0003;

const SECOND: u64 = 0x0100_0001_0000_0004;

const THIRD: u64 = 0x0100_0001_0000_0002;

const FOURTH: u64 = 0x0100_0008_0000_000a;

/// The words of the base heap's last region.
const LAST_REGION: [u64; 8] = [13, 1, 0, 21, 6, 129, DEAD, DEAD];

/// Headers of objects without references, by their number of words.
const ONE: u64 = 0x0100_0000_0000_0001;

const TWO: u64 = 0x0100_0000_0000_0002;

const THREE: u64 = 0x0100_0000_0000_0003;

const FOUR: u64 = 0x0100_0000_0000_0004;

/// The header of a filler of one word. Each further word adds 1.
const FILLER: u64 = 0x0200_0000_0000_0001;

/// The sources that the fills of a heap reported as last drained, and the words of its regions once they are filled and
/// once the heap is compacted.
struct Outcome {
    sources: Vec<u32>,
    moved: Vec<u64>,
    compacted: Vec<u64>,
}

impl Drop for Outcome {
    fn drop(self) {
        let Self {
            sources,
            moved,
            compacted,
        } = self;
    }
}

/// The outcome of fills of this heap in this order.
fn filled_heap(heap: Heap, mut seat: Seat, alloc: Global, order: &[u32]) -> Result<Outcome, Fault>
    requires { (board_of seat.pass ≡ identity heap.board) × (held seat.pass ≡ []) }
{
    let sources = fill_in_order(&heap, &mut seat, alloc, order)?;
    let (moved, compacted) = moved_and_compacted(alloc, heap, seat)?;
    Ok(Outcome {
        sources,
        moved,
        compacted,
    })
}

/// The outcome of fills of this image in this order.
fn filled_image<T: Threads + Sync>(
    alloc: Global,
    image: &Image,
    order: &[u32],
    threads: &T,
) -> Result<Outcome, Fault> {
    let (heap, seat) = heap_of(alloc, image, threads)?;
    filled_heap(heap, seat, alloc, order)
}

/// The outcome of fills in this order of the heap with these words, live addresses and allowance, in regions of 8
/// words.
fn filled<T: Threads + Sync>(
    alloc: Global,
    allowance: u64,
    (words, live): (&[[u64; 8]], &[u64]),
    order: &[u32],
    threads: &T,
) -> Result<Outcome, Fail> {
    let settings = Settings::of_base(allowance);
    let image = image_of(alloc, settings, words.as_flattened(), live, threads)?;
    Ok(filled_image(alloc, &image, order, threads)?)
}

/// The outcome of fills of the base heap in this order.
fn filled_base<T: Threads + Sync>(
    alloc: Global,
    allowance: u64,
    order: &[u32],
    threads: &T,
) -> Result<Outcome, Fail> {
    let image = base_image(alloc, allowance, &BASE_LIVE)?;
    Ok(filled_image(alloc, &image, order, threads)?)
}

/// Fails the test unless these are the words once the regions are filled, and once the heap is compacted.
fn equal_words(rt: &impl Abort, found: &Outcome, moved: &[[u64; 8]], compacted: &[[u64; 8]]) {
    equal_items(rt, found.moved.as_slice(), moved.as_flattened());
    equal_items(rt, found.compacted.as_slice(), compacted.as_flattened());
}

/// A region of 8 words that are all 5.
fn fives(alloc: Global) -> Result<Region, AllocError> {
    let mut region = Region::new(alloc, 8)?;
    region.fill(0, 8, 5);
    Ok(region)
}

/// The words of two such regions, cleared from `new_top` up.
fn cleared_fives(alloc: Global, new_top: u64) -> Result<Vec<u64>, AllocError> {
    let mut regions = [fives(alloc)?, fives(alloc)?];
    clear_above(&mut regions, new_top);
    joined(alloc, regions.as_slice())
}

#[test]
fn words_from_the_new_top_up_are_cleared(rt: HostRuntime) -> Result<(), Fail> {
    let rows = [
        (16, [[5; 8], [5; 8]]),
        (7, [[5, 5, 5, 5, 5, 5, 5, 0], [0; 8]]),
        (0, [[0; 8], [0; 8]]),
    ];
    for (new_top, words) in rows {
        let cleared = cleared_fives(rt.alloc(), new_top)?;
        equal_items(&rt, cleared.as_slice(), words.as_flattened());
    }
    Ok(())
}

#[test]
fn the_base_heap_is_filled(rt: HostRuntime) -> Result<(), Fail> {
    let found = filled_base(rt.alloc(), 0, &[1, 2, 0, 1, 2], &rt)?;
    equal_items(&rt, found.sources.as_slice(), [1, 2, 3].as_slice());
    let moved = [
        [FIRST, 4, 10, SECOND, 8, 107, 108, THIRD],
        [1, FOURTH, 21, 0, 6, 13, 1, 0],
        [21, 6, 129, DEAD, FOURTH, 21, 0, 6],
        LAST_REGION,
    ];
    let compacted = [
        [FIRST, 4, 10, SECOND, 8, 107, 108, THIRD],
        [1, FOURTH, 10, 0, 4, 8, 1, 0],
        [10, 4, 129, 0, 0, 0, 0, 0],
        [0; 8],
    ];
    equal_words(&rt, &found, &moved, &compacted);
    Ok(())
}

#[test]
fn the_base_heap_is_filled_after_a_prefix(rt: HostRuntime) -> Result<(), Fail> {
    let found = filled_base(rt.alloc(), 2, &[1, 2, 0], &rt)?;
    equal_items(&rt, found.sources.as_slice(), [2, 3].as_slice());
    let moved = [
        [FIRST, 6, 12, FILLER + 1, 0, SECOND, 13, 107],
        [108, THIRD, 1, FOURTH, 21, 0, 6, 13],
        [1, 0, 21, 6, 129, 21, 0, 6],
        LAST_REGION,
    ];
    let compacted = [
        [FIRST, 6, 12, FILLER + 1, 0, SECOND, 10, 107],
        [108, THIRD, 1, FOURTH, 12, 0, 6, 10],
        [1, 0, 12, 6, 129, 0, 0, 0],
        [0; 8],
    ];
    equal_words(&rt, &found, &moved, &compacted);
    Ok(())
}

/// The heap of objects of one word at 0 and 2, and one of 5 words at 3 that refers to the one at 2 and to itself.
const SMALL: [[u64; 8]; 1] = [[ONE, DEAD, ONE, FIRST + 2, 3, 4, 106, 107]];

#[test]
fn the_small_heap_is_filled(rt: HostRuntime) -> Result<(), Fail> {
    let found = filled(rt.alloc(), 0, (&SMALL, &[0, 2, 3]), &[0], &rt)?;
    let moved = [ONE, ONE, FIRST + 2, 2, 3, 106, 107, 107];
    let compacted = [ONE, ONE, FIRST + 2, 2, 3, 106, 107, 0];
    equal_words(&rt, &found, &[moved], &[compacted]);
    Ok(())
}

#[test]
fn the_small_heap_stays_with_a_filler(rt: HostRuntime) -> Result<(), Fail> {
    let found = filled(rt.alloc(), 1, (&SMALL, &[0, 2, 3]), &[0], &rt)?;
    let stayed = [[ONE, FILLER, ONE, FIRST + 2, 3, 4, 106, 107]];
    equal_words(&rt, &found, &stayed, &stayed);
    Ok(())
}

#[test]
fn a_filler_ends_at_the_prefix_end(rt: HostRuntime) -> Result<(), Fail> {
    let words = [
        [FOUR, 0, 0, 0, DEAD, DEAD, DEAD, DEAD],
        [DEAD, DEAD, TWO, 0, DEAD, DEAD, DEAD, DEAD],
    ];
    let found = filled(rt.alloc(), 8, (&words, &[0, 10]), &[1, 0], &rt)?;
    let moved = [
        [FOUR, 0, 0, 0, FILLER + 3, 0, 0, 0],
        [TWO, 0, TWO, 0, DEAD, DEAD, DEAD, DEAD],
    ];
    let compacted = [
        [FOUR, 0, 0, 0, FILLER + 3, 0, 0, 0],
        [TWO, 0, 0, 0, 0, 0, 0, 0],
    ];
    equal_words(&rt, &found, &moved, &compacted);
    Ok(())
}

/// The heap of an object of 2 words at 2 and one of 3 words at 20.
const SPARSE: [[u64; 8]; 3] = [
    [DEAD, DEAD, TWO, 0, DEAD, DEAD, DEAD, DEAD],
    [DEAD; 8],
    [DEAD, DEAD, DEAD, DEAD, THREE, 0, 0, DEAD],
];

#[test]
fn a_filler_crosses_a_region_end(rt: HostRuntime) -> Result<(), Fail> {
    let found = filled(rt.alloc(), 14, (&SPARSE, &[2, 20]), &[2, 1, 0], &rt)?;
    let moved = [
        [FILLER + 1, 0, TWO, 0, FILLER + 11, 0, 0, 0],
        [0; 8],
        [THREE, 0, 0, DEAD, THREE, 0, 0, DEAD],
    ];
    let compacted = [
        [FILLER + 1, 0, TWO, 0, FILLER + 11, 0, 0, 0],
        [0; 8],
        [THREE, 0, 0, 0, 0, 0, 0, 0],
    ];
    equal_words(&rt, &found, &moved, &compacted);
    Ok(())
}

#[test]
fn a_region_after_the_prefix_reads_the_next(rt: HostRuntime) -> Result<(), Fail> {
    let found = filled(rt.alloc(), 13, (&SPARSE, &[2, 20]), &[0, 1, 2], &rt)?;
    equal_items(&rt, found.sources.as_slice(), [2].as_slice());
    let moved = [
        [FILLER + 1, 0, TWO, 0, FILLER + 3, 0, 0, 0],
        [THREE, 0, 0, DEAD, DEAD, DEAD, DEAD, DEAD],
        SPARSE[2],
    ];
    equal_items(&rt, found.moved.as_slice(), moved.as_flattened());
    Ok(())
}

#[test]
fn an_object_of_four_regions_stays(rt: HostRuntime) -> Result<(), Fail> {
    let mut words = [[0; 8]; 4];
    words[0][0] = ONE + 31;
    let found = filled(rt.alloc(), 0, (&words, &[0]), &[3, 1, 2, 0], &rt)?;
    equal_words(&rt, &found, &words, &words);
    Ok(())
}
