//! A board that keeps regions: each region is filled from the next, or all come back unclaimed.
ghost use Rattle.std.specs.Prelude.{◌≡◌, ℕ, ◌+◌, ◌<◌, [], length, slice_index_or, IfOk};
ghost use Rattle.scheduler.specs.MoveTable.{region_count};
ghost use Rattle.claim_board.specs.Boards.{board_of, held};
ghost use Rattle.claim_board.specs.RegionBoards.{moves as moves_of, identity, original_words, moved_words};

use crate::checks::{equal, expect_memory_fault, holds};
use crate::tables::try_table;
use claim_board::{Pass, RegionBoard};
use raw_region::Region;
use scheduler::{CallFault, GivenMoves, Moves};
use std::alloc::{AllocError, Global};
use std::marker::Brand;
use std::process::Abort;
use std::test::Fail;

/// The word of each region at first.
const BEFORE: [u64; 3] = [10, 11, 12];

/// And once regions 0 and 1 are filled, each from the next.
const AFTER: [u64; 3] = [11, 12, 12];

/// The table of these moves.
fn three_moves(alloc: Global) -> Result<GivenMoves, CallFault> {
    let moves = try_table(alloc, &[true, true, false], &[(0, 1), (1, 2)])?;
    Ok(moves.ok_or(CallFault::Illegal)?)
}

/// Regions of one word each.
fn regions_of(alloc: Global, words: &[u64]) -> Result<Vec<Region>, AllocError> {
    let mut regions = Vec::new(alloc);
    for word in words {
        regions.push(Region::of_words(alloc, &[*word])?)?;
    }
    Ok(regions)
}

/// Whether the regions have these first words.
fn have_words(regions: &[Region], words: &[u64]) -> bool {
    if regions.len() != words.len() {
        return false;
    }
    for (region, word) in regions.iter().zip(words) {
        if region.words()[0] != *word {
            return false;
        }
    }
    true
}

/// Fills a region from the next, of one word each.
fn fill<R: Abort>(rt: &R, board: &RegionBoard, moves: &GivenMoves, pass: &mut Pass, region: u32)
    requires pass { (board_of pass.old ≡ identity board.now) × (held pass.old ≡ []) }
    requires moves { moves.now ≡ moves_of board.now }
    requires region { region + 1 < region_count (moves_of board.now) }
    requires moved { moved_words board.now region ≡ original_words board.now (region + 1) }
    ensures { (board_of pass.new ≡ identity board.now) × (held pass.new ≡ []) }
{
    let (mut ticket, mut whole) = board.claim(pass, region).expect(rt, "the region is free");
    let right = ticket.right().expect(rt, "the ticket has its right");
    let (opening, share) = board
        .open(pass, &mut ticket, moves)
        .expect(rt, "the region reads the next");
    holds(rt, opening.source() == region + 1);
    holds(rt, whole.len() == 1);
    holds(rt, share.get().len() == 1);
    whole.set(0, share.get().get(0));
    let _last = board.drain(pass, &mut ticket, opening.close(), share);
    holds(rt, ticket.left() == 0);
    let done = board.complete(pass, ticket, right.written(), whole);
    let _all = board.settle(pass, done);
}

/// A board, and the passes of its two workers.
fn board_with<R: Abort>(
    rt: &R,
    alloc: Global,
    moves: &GivenMoves,
    regions: Vec<Region>,
) -> Result<(RegionBoard, Pass, Pass), Vec<Region>>
    requires { length regions.items ≡ region_count moves.now }
    ensures moves { IfOk result (λ made. moves_of made.0 ≡ moves.now) }
    ensures zero { IfOk result (λ made. (board_of made.1 ≡ identity made.0) × (held made.1 ≡ [])) }
    ensures one { IfOk result (λ made. (board_of made.2 ≡ identity made.0) × (held made.2 ≡ [])) }
    ensures original { IfOk result (λ made. (r : ℕ) → r < region_count moves.now → original_words made.0 r ≡ slice_index_or regions.items r []) }
    ensures moved { IfOk result (λ made. (r : ℕ) → r + 1 < region_count moves.now → moved_words made.0 r ≡ original_words made.0 (r + 1)) }
{
    let (board, mut passes) = RegionBoard::new::<GivenMoves, Brand>(alloc, moves, 2, regions)?;
    let one = passes.pop().expect(rt, "there is a pass for worker 1");
    let zero = passes.pop().expect(rt, "there is one for worker 0");
    Ok((board, zero, one))
}

/// The regions at the end, after both workers have filled one each. Their passes meet in between.
fn fill_all<R: Abort>(
    rt: &R,
    alloc: Global,
    moves: &GivenMoves,
    made: (RegionBoard, Pass, Pass),
) -> Result<Vec<Region>, AllocError>
    requires moves { (moves.now ≡ moves_of made.0) × (region_count moves.now ≡ 3) }
    requires zero { (board_of made.1 ≡ identity made.0) × (held made.1 ≡ []) }
    requires one { (board_of made.2 ≡ identity made.0) × (held made.2 ≡ []) }
    requires moved { (r : ℕ) → r < 2 → moved_words made.0 r ≡ original_words made.0 (r + 1) }
{
    let (board, mut zero, mut one) = made;
    let mut passes = Vec::with_capacity(alloc, 2)?;
    fill(rt, &board, moves, &mut zero, 0);
    board.meet(&mut zero, &mut one);
    fill(rt, &board, moves, &mut one, 1);
    passes.push_reserved(zero);
    passes.push_reserved(one);
    let (_history, regions) = board.finish(passes).expect(rt, "both regions are settled");
    Ok(regions)
}

/// Whether the regions have moved at the end. If memory runs out for the board, they come back as they were.
fn moves_regions<R: Abort>(rt: &R, alloc: Global) -> Result<bool, CallFault> {
    let moves = three_moves(alloc)?;
    let regions = regions_of(alloc, &BEFORE)?;
    holds(rt, moves.regions() == 3 && regions.len() == 3);
    match board_with(rt, alloc, &moves, regions) {
        Ok(made) => Ok(have_words(&fill_all(rt, alloc, &moves, made)?, &AFTER)),
        Err(back) => {
            holds(rt, have_words(&back, &BEFORE));
            Err(CallFault::Memory)
        }
    }
}

/// The script tests/build/test_crate_allocations.sh runs this with each allocation refused in turn.
#[test]
fn refused_memory_is_reported(rt: HostRuntime) {
    let first = moves_regions(&rt, rt.alloc());
    let second = moves_regions(&rt, rt.alloc());
    expect_memory_fault(&rt, [first, second], CallFault::Memory);
}

/// Whether a board gives its regions back: all of them, or `None` once one is claimed.
fn gives_back<R: Abort>(rt: &R, alloc: Global, claims: bool) -> Result<bool, CallFault> {
    let moves = three_moves(alloc)?;
    let regions = regions_of(alloc, &BEFORE)?;
    holds(rt, moves.regions() == 3 && regions.len() == 3);
    let Ok((board, mut pass, _other)) = board_with(rt, alloc, &moves, regions) else {
        return Err(CallFault::Memory);
    };
    if claims {
        let (ticket, _region) = board.claim(&mut pass, 0).expect(rt, "region 0 is free");
        ticket.give_up();
    }
    match board.take_back() {
        Some(back) => Ok(have_words(&back, &BEFORE)),
        None => Ok(false),
    }
}

#[test]
fn an_unclaimed_board_gives_all_regions_back(rt: HostRuntime) -> Result<(), Fail> {
    equal(&rt, gives_back(&rt, rt.alloc(), false)?, true);
    equal(&rt, gives_back(&rt, rt.alloc(), true)?, false);
    Ok(())
}
