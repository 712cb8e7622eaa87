//! Boards that keep regions of one word, each region's number from 1 on; a fill makes the word 0.
ghost use Rattle.std.specs.Prelude.{◌≡◌, ℕ, ◌<◌, ◌≤◌, [], length, replicate, IfOk, OnOk, IfSome, OnSome};
ghost use Rattle.scheduler.specs.MoveTable.{region_count};
ghost use Rattle.claim_board.specs.Boards.{board_of, held, AllOf, AllBare};
ghost use Rattle.claim_board.specs.RegionBoards.{moves as moves_of, worker_count, identity, original_words, moved_words};

use claim_board::{Pass, RegionBoard, Seat};
use raw_region::Region;
use scheduler::{CallFault, GivenMoves, Moves};
use std::alloc::{AllocError, Global};
use std::marker::Brand;

/// Makes this number of regions.
fn numbered_regions(alloc: Global, count: u32) -> Result<Vec<Region>, AllocError>
    ensures { IfOk result (λ regions. length regions.items ≡ count) }
{
    let mut regions = Vec::new(alloc);
    for region in 0..count {
        regions.push(Region::of_words(alloc, &[u64::from(region) + 1])?)?;
    }
    Ok(regions)
}

/// The first word of each region.
pub fn first_words(alloc: Global, regions: &[Region]) -> Result<Vec<u64>, AllocError> {
    let mut words = Vec::new(alloc);
    for region in regions {
        let _length = region.len();
        words.push(region.get(0))?;
    }
    Ok(words)
}

/// Makes a board of these moves that keeps regions, with its passes.
pub fn cleared_board_of(
    alloc: Global,
    moves: &GivenMoves,
    workers: u32,
) -> Result<(RegionBoard, Vec<Pass>), CallFault>
    requires { (1 ≤ workers) × (workers ≤ 64) }
    ensures moves { IfOk result (λ made. moves_of made.0 ≡ moves.now) }
    ensures workers { IfOk result (λ made. worker_count made.0 ≡ workers) }
    ensures passes { IfOk result (λ made. AllOf (identity made.0) made.1.items × AllBare made.1.items) }
    ensures zero { IfOk result (λ made. (r : ℕ) → r < region_count moves.now → moved_words made.0 r ≡ replicate (length (original_words made.0 r)) 0) }
{
    let regions = numbered_regions(alloc, moves.regions())?;
    match RegionBoard::new::<_, Brand>(alloc, moves, workers, regions) {
        Ok((board, passes)) => Ok((board, passes)),
        Err(_regions) => Err(CallFault::Memory),
    }
}

/// Takes the last pass, for the worker of this number.
pub fn take_seat(board: &RegionBoard, passes: &mut Vec<Pass>, number: u32) -> Option<Seat>
    requires { AllOf (identity board.now) passes.old.items × AllBare passes.old.items }
    ensures seat { IfSome result (λ seat. (board_of seat.pass ≡ identity board.now) × (held seat.pass ≡ [])) }
    ensures rest { OnSome result (AllOf (identity board.now) passes.new.items × AllBare passes.new.items) }
{
    let Some(pass) = passes.pop() else {
        return None;
    };
    let _board = board;
    Some(Seat { pass, number })
}

/// Puts the pass of a seat back.
pub fn put_seat(board: &RegionBoard, passes: &mut Vec<Pass>, seat: Seat) -> Result<(), AllocError>
    requires passes { AllOf (identity board.now) passes.old.items × AllBare passes.old.items }
    requires seat { (board_of seat.pass ≡ identity board.now) × (held seat.pass ≡ []) }
    ensures { OnOk result (AllOf (identity board.now) passes.new.items × AllBare passes.new.items) }
{
    let _board = board;
    let Seat { pass, number: _ } = seat;
    passes.push(pass)?;
    Ok(())
}
