//! Heaps whose regions are filled by a board's only worker.
ghost use Rattle.std.specs.Prelude.{◌≡◌, [], IfOk};
ghost use Rattle.claim_board.specs.Boards.{board_of, held};
ghost use Rattle.claim_board.specs.RegionBoards.{identity};
ghost use Rattle.fill.specs.KeptImages.{KeepsImage};
ghost use Rattle.fill.specs.MovedHeap.{moved_regions};

use crate::kept::{keep, moved};
use claim_board::{Desk, RegionBoard, Seat};
use fill::{Filler, clear_above, update_deferred};
use heap_image::{Fault, Image};
use raw_region::Region;
use scheduler::moves_of_images;
use std::alloc::{AllocError, Global};
use std::thread::Threads;
use summary::Survey;
use summary::laws::region_data::regions_to_fill;
use thread_row::{Alone, Many};

/// A heap to fill, with a board that keeps its regions.
pub struct Heap {
    pub survey: Survey,
    pub board: RegionBoard,
    ghost keeps: { KeepsImage survey board },
}

impl Drop for Heap {
    fn drop(self) {
        let Self { survey, board } = self;
    }
}

impl Heap {
    /// The survey, and the regions, which must all be filled. The seat is that of the only worker.
    pub fn into_moved(self, alloc: Global, seat: Seat) -> Result<(Survey, Vec<Region>), Fault>
        requires { (board_of seat.pass ≡ identity self.board) × (held seat.pass ≡ []) }
        ensures survey { IfOk result (λ made. made.0 ≡ self.survey) }
        ensures moved { IfOk result (λ made. made.1.items ≡ moved_regions made.0) }
    {
        let Heap { survey, board } = self;
        let regions = moved(alloc, board, seat, survey.plan())?;
        Ok((survey, regions))
    }
}

/// The heap of an image, with copies of its regions, and the seat of its only worker.
pub fn heap_of<T: Threads + Sync>(
    alloc: Global,
    image: &Image,
    threads: &T,
) -> Result<(Heap, Seat), Fault>
    ensures seat { IfOk result (λ made. (board_of made.1.pass ≡ identity made.0.board) × (held made.1.pass ≡ [])) }
    ensures image { IfOk result (λ made. made.0.survey ≡ image.now) }
{
    let survey = Survey::of(alloc, image, &Many { threads, most: 2 })?;
    let (board, seat) = keep(alloc, image, survey.plan())?;
    Ok((Heap { survey, board }, seat))
}

/// Claims, fills and settles a region, and appends the sources that it reports as last drained. Returns false if the
/// region is not to be filled, or cannot be claimed.
pub fn fill<D: Desk<W>, W>(
    filler: &Filler<'_, D, W>,
    seat: &mut Seat,
    sources: &mut Vec<u32>,
    region: u32,
) -> bool
    requires board { board_of seat.old.pass ≡ identity (D.keeps filler.now.desk.now) }
    requires bare { held seat.old.pass ≡ [] }
    ensures board { board_of seat.new.pass ≡ identity (D.keeps filler.now.desk.now) }
    ensures bare { held seat.new.pass ≡ [] }
{
    moves_of_images();
    regions_to_fill();
    let _regions = filler.survey.plan().regions();
    if region >= filler.survey.plan().fill_regions() {
        return false;
    }
    let Some(claimed) = filler.desk.claim(seat, region, filler.wait) else {
        return false;
    };
    let mut on_last = |source: u32| {
        let _ = sources.push(source);
    };
    let done = filler.fill_region(seat, claimed, &mut on_last);
    let is_it = done.region() == region;
    filler.desk.settle(seat, done, filler.wait);
    is_it
}

/// The filler of a heap.
fn filler_of(heap: &Heap) -> Filler<'_, RegionBoard, ()>
    ensures { (result.desk.now ≡ heap.now.board) × (result.survey.now ≡ heap.now.survey) }
{
    Filler {
        desk: &heap.board,
        survey: &heap.survey,
        wait: &(),
        redirects: true,
    }
}

/// Tries to fill the regions in this order. Returns the sources that the fills report as last drained.
pub fn fill_in_order(
    heap: &Heap,
    seat: &mut Seat,
    alloc: Global,
    order: &[u32],
) -> Result<Vec<u32>, AllocError>
    requires board { board_of seat.old.pass ≡ identity heap.now.board }
    requires bare { held seat.old.pass ≡ [] }
    ensures board { board_of seat.new.pass ≡ identity heap.now.board }
    ensures bare { held seat.new.pass ≡ [] }
{
    let filler = filler_of(heap);
    let mut sources = Vec::with_capacity(alloc, heap.survey.plan().regions() as usize)?;
    for region in order {
        fill(&filler, seat, &mut sources, *region);
    }
    Ok(sources)
}

/// Fills the regions below `end` in ascending order. Returns whether each can be filled.
pub fn fill_below(heap: &Heap, seat: &mut Seat, alloc: Global, end: u32) -> bool
    requires board { board_of seat.old.pass ≡ identity heap.now.board }
    requires bare { held seat.old.pass ≡ [] }
    ensures board { board_of seat.new.pass ≡ identity heap.now.board }
    ensures bare { held seat.new.pass ≡ [] }
{
    let filler = filler_of(heap);
    let mut sources = Vec::new(alloc);
    let mut are_filled = true;
    for region in 0..end {
        are_filled &= fill(&filler, seat, &mut sources, region);
    }
    are_filled
}

/// The words of a heap whose regions are filled, and its words once it is compacted.
pub fn moved_and_compacted(
    alloc: Global,
    heap: Heap,
    seat: Seat,
) -> Result<(Vec<u64>, Vec<u64>), Fault>
    requires { (board_of seat.pass ≡ identity heap.board) × (held seat.pass ≡ []) }
{
    let (survey, mut regions) = heap.into_moved(alloc, seat)?;
    let moved = joined(alloc, regions.as_slice())?;
    update_deferred(regions.as_mut_slice(), &survey, &Alone);
    clear_above(regions.as_mut_slice(), survey.plan().new_top());
    Ok((moved, joined(alloc, regions.as_slice())?))
}

/// The words of these regions, concatenated.
pub fn joined(alloc: Global, regions: &[Region]) -> Result<Vec<u64>, AllocError> {
    let mut words = Vec::new(alloc);
    for region in regions {
        words.extend_from_slice(region.words())?;
    }
    Ok(words)
}
