//! The cells of a heap of four regions, and openings and rights to read and write them without a fill. Each comes from
//! a board of its own.
ghost use Rattle.std.specs.Prelude.{◌≡◌, ◌<◌, IfOk};
ghost use Rattle.object_heap.specs.HeapImage.{region_count};
ghost use Rattle.scheduler.specs.MoveTable.{region_count as table_regions};
ghost use Rattle.claim_board.specs.Boards.{moves as moves_of, identity, board_of};

use claim_board::{Board, Opening, Pass, Right};
use heap_image::{Fault, Image};
use heap_samples::base_image;
use mark_bitmap::Marks;
use region_cells::Cells;
use scheduler::{GivenMoves, Moves};
use std::alloc::Global;
use std::sync::Wait;
use std::test::Fail;
use std::thread::Threads;
use summary::Plan;
use thread_row::Many;

/// The base heap with this allowance and these live objects, which has four regions of 8 words.
pub fn base_of_four(alloc: Global, allowance: u64, live: &[u64]) -> Result<Image, Fail>
    ensures regions { IfOk result (λ image. region_count image ≡ 4) }
    ensures region_log { IfOk result (λ image. image.region_log ≡ 3) }
{
    let image = base_image(alloc, allowance, live)?;
    let is_right = image.regions() == 4 && image.region_log() == 3;
    if is_right {
        Ok(image)
    } else {
        Err(Fail::from("not four regions of 8 words"))
    }
}

pub fn plan_of<T: Threads + Sync>(alloc: Global, image: &Image, threads: &T) -> Result<Plan, Fault>
    ensures { IfOk result (λ plan. plan ≡ image.now) }
{
    let many = Many { threads, most: 2 };
    let marks = Marks::of(alloc, image, &many)?;
    Plan::of(alloc, image, &marks, &many)
}

/// The cells of an image. `plan` is its plan.
pub fn cells_of(alloc: Global, image: Image, plan: &Plan) -> Result<Cells, Fault>
    requires { plan.now ≡ image }
    ensures { IfOk result (λ cells. cells ≡ image) }
{
    match Cells::of(alloc, image, plan) {
        Ok(cells) => Ok(cells),
        Err(_) => Err(Fault::Memory),
    }
}

pub fn cells_and_plan<T: Threads + Sync>(
    alloc: Global,
    image: Image,
    threads: &T,
) -> Result<(Cells, Plan), Fault>
    ensures plan { IfOk result (λ made. made.1 ≡ made.0) }
    ensures image { IfOk result (λ made. made.0 ≡ image) }
{
    let plan = plan_of(alloc, &image, threads)?;
    let cells = cells_of(alloc, image, &plan)?;
    Ok((cells, plan))
}

/// A board for four regions, all to be filled, with these pairs of destination and source, and the pass of its only
/// worker.
pub fn board_of_four(alloc: Global, pairs: &[(u32, u32)]) -> Result<(GivenMoves, Board, Pass), Fail>
    ensures moves { IfOk result (λ made. moves_of made.1 ≡ made.0) }
    ensures pass { IfOk result (λ made. board_of made.2 ≡ identity made.1) }
    ensures regions { IfOk result (λ made. table_regions made.0 ≡ 4) }
{
    let moves = moves_of_four(alloc, pairs)?;
    let (board, pass) = board_for_one(alloc, &moves)?;
    Ok((moves, board, pass))
}

/// The moves of four regions, all to be filled, with these pairs.
fn moves_of_four(alloc: Global, pairs: &[(u32, u32)]) -> Result<GivenMoves, Fail>
    ensures { IfOk result (λ moves. table_regions moves ≡ 4) }
{
    let fill = Vec::from_slice(alloc, [true; 4].as_slice())?;
    let pairs = Vec::from_slice(alloc, pairs)?;
    let moves = GivenMoves::new(fill, pairs).ok_or("no table of moves")?;
    if moves.regions() == 4 {
        Ok(moves)
    } else {
        Err(Fail::from("not four regions"))
    }
}

/// A board for these moves, and the pass of its only worker.
fn board_for_one(alloc: Global, moves: &GivenMoves) -> Result<(Board, Pass), Fail>
    ensures moves { IfOk result (λ made. moves_of made.0 ≡ moves.now) }
    ensures pass { IfOk result (λ made. board_of made.1 ≡ identity made.0) }
{
    let (board, mut passes) = Board::new(alloc, moves, 1)?;
    let pass = passes.pop().ok_or("no pass")?;
    Ok((board, pass))
}

/// An opening with which region 0 reads region `source`.
pub fn opening(alloc: Global, source: u32) -> Result<Opening, Fail>
    ensures { IfOk result (λ opening. opening.source < 4) }
{
    let (moves, board, mut pass) = board_of_four(alloc, [(0, source)].as_slice())?;
    let Some(mut ticket) = board.claim(&mut pass, 0) else {
        return Err(Fail::from("region 0 was not claimed"));
    };
    let opening = ticket.open(&moves);
    ticket.give_up();
    match opening {
        Some(opening) => Ok(opening),
        None => Err(Fail::from("region 0 has no source")),
    }
}

/// A right to write this region.
pub fn right(alloc: Global, region: u32) -> Result<Right, Fail>
    requires { region < 4 }
    ensures { IfOk result (λ right. right.region ≡ region) }
{
    let (_moves, board, mut pass) = board_of_four(alloc, [].as_slice())?;
    let Some(mut ticket) = board.claim(&mut pass, region) else {
        return Err(Fail::from("the region was not claimed"));
    };
    let right = ticket.right();
    ticket.give_up();
    match right {
        Some(right) => Ok(right),
        None => Err(Fail::from("the ticket has no right")),
    }
}

/// The fault of a read of the region, if it fails.
pub fn read_fault<W: Wait>(
    cells: &Cells,
    alloc: Global,
    region: u32,
    wait: &W,
) -> Result<Option<Fault>, Fail>
    requires { region_count cells.now ≡ 4 }
{
    match cells.read(opening(alloc, region)?, wait) {
        Ok(source) => {
            source.close().give_up();
            Ok(None)
        }
        Err(fault) => Ok(Some(fault)),
    }
}

/// The fault of a write of the region, if it fails. Otherwise the write is given up.
pub fn write_fault<W: Wait>(
    cells: &Cells,
    alloc: Global,
    region: u32,
    wait: &W,
) -> Result<Option<Fault>, Fail>
    requires regions { region_count cells.now ≡ 4 }
    requires inside { region < 4 }
{
    match cells.write(right(alloc, region)?, wait) {
        Ok(target) => {
            target.give_up();
            Ok(None)
        }
        Err(fault) => Ok(Some(fault)),
    }
}

/// The faults of a read and then a write of the region.
pub fn read_and_write_faults<W: Wait>(
    cells: &Cells,
    alloc: Global,
    region: u32,
    wait: &W,
) -> Result<[Option<Fault>; 2], Fail>
    requires regions { region_count cells.now ≡ 4 }
    requires inside { region < 4 }
{
    Ok([
        read_fault(cells, alloc, region, wait)?,
        write_fault(cells, alloc, region, wait)?,
    ])
}

/// The fault of `into_regions`, if it fails.
pub fn end_fault(cells: Cells) -> Option<Fault> {
    cells.into_regions().err()
}
