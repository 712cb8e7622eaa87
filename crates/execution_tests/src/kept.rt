//! Boards that keep copies of an image's regions, and the regions that come back from them.
ghost use Rattle.std.specs.Prelude.{◌≡◌, [], vec_len, IfOk};
ghost use Rattle.claim_board.specs.Boards.{board_of, held, AllOf, AllBare};
ghost use Rattle.claim_board.specs.RegionBoards.{identity};
ghost use Rattle.region_cells.specs.Blocks.{blocks_of};
ghost use Rattle.fill.specs.KeptImages.{KeepsImage};
ghost use Rattle.fill.specs.MovedHeap.{moved_regions};

use claim_board::{Pass, RegionBoard, Seat};
use heap_image::{Fault, Image};
use raw_region::Region;
use scheduler::moves_of_images;
use std::alloc::{AllocError, Global};
use std::marker::Brand;
use summary::Plan;
use summary::laws::compaction::blocks_of_regions;
use summary::laws::plans::planned_image_is_valid;
use summary::laws::region_data::regions_to_fill;

/// A copy of each region of an image.
fn copies(alloc: Global, image: &Image) -> Result<Vec<Region>, AllocError>
    ensures { IfOk result (λ regions. regions.items ≡ blocks_of image.now) }
{
    let mut regions = Vec::new(alloc);
    for region in 0..image.regions() {
        regions.push(Region::of_words(alloc, image.region(region).words())?)?;
    }
    Ok(regions)
}

/// Makes a board of a plan's moves that keeps copies of the regions of its image, and the seat of its only worker.
pub fn keep(alloc: Global, image: &Image, plan: &Plan) -> Result<(RegionBoard, Seat), Fault>
    requires { plan.now ≡ image.now }
    ensures keeps { IfOk result (λ made. KeepsImage image.now made.0) }
    ensures seat { IfOk result (λ made. (board_of made.1.pass ≡ identity made.0) × (held made.1.pass ≡ [])) }
{
    let (board, mut passes) = board_for_one(alloc, image, plan)?;
    let Some(pass) = passes.pop() else {
        return Err(Fault::Workers);
    };
    Ok((board, Seat { pass, number: 0 }))
}

/// Makes this board and the pass of its only worker.
fn board_for_one(
    alloc: Global,
    image: &Image,
    plan: &Plan,
) -> Result<(RegionBoard, Vec<Pass>), Fault>
    requires { plan.now ≡ image.now }
    ensures keeps { IfOk result (λ made. KeepsImage image.now made.0) }
    ensures passes { IfOk result (λ made. AllOf (identity made.0) made.1.items × AllBare made.1.items) }
{
    planned_image_is_valid(plan);
    moves_of_images();
    regions_to_fill();
    let regions = copies(alloc, image)?;
    match RegionBoard::new::<_, Brand>(alloc, plan, 1, regions) {
        Ok((board, passes)) => Ok((board, passes)),
        Err(_regions) => Err(Fault::Memory),
    }
}

/// The regions of a plan's image that a board kept and that are all filled. Fails with fault 16 if one isn't.
pub fn moved(
    alloc: Global,
    board: RegionBoard,
    seat: Seat,
    plan: &Plan,
) -> Result<Vec<Region>, Fault>
    requires keeps { KeepsImage plan.now board }
    requires seat { (board_of seat.pass ≡ identity board) × (held seat.pass ≡ []) }
    ensures { IfOk result (λ regions. regions.items ≡ moved_regions plan.now) }
{
    planned_image_is_valid(plan);
    moves_of_images();
    regions_to_fill();
    blocks_of_regions();
    let Seat { pass, number: _ } = seat;
    let mut passes = Vec::new(alloc);
    passes.push(pass)?;
    match board.finish(passes) {
        Some((_finished, regions)) => Ok(regions),
        None => Err(Fault::Gate),
    }
}
