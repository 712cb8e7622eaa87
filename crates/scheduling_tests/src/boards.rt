//! Boards over given tables of moves, and their passes.
ghost use Rattle.std.specs.Prelude.{◌≡◌, ◌≤◌, ◌<◌, IfOk, OnOk, IfSome, OnSome};
ghost use Rattle.scheduler.specs.MoveTable.{region_count};
ghost use Rattle.claim_board.specs.Boards.{moves as moves_of, identity, board_of, AllOf};

use crate::checks::{equal, expect_memory_fault};
use crate::cleared_boards::cleared_board_of;
use crate::schedulers::moves_with_prefix;
use crate::tables::table_of;
use claim_board::{Board, Drained, Pass, Recorder, Ticket};
use scheduler::{Book, CallFault, GivenMoves, Moves, Reply};
use std::alloc::{AllocError, Global};
use std::test::Fail;

/// For each region of the base heap, whether it is to be filled.
pub const BASE_FILLED: [bool; 4] = [true, true, true, false];

/// The pairs (destination, source) of the base heap.
pub const BASE_PAIRS: [(u32, u32); 4] = [(0, 1), (1, 2), (1, 3), (2, 3)];

/// Makes a board of these moves, with its passes.
#[tactic(auto, using(crate::proofs::Lemmas::Passes::are_all))]
pub fn board_of_moves(
    alloc: Global,
    moves: &GivenMoves,
    workers: u32,
) -> Result<(Board, Vec<Pass>), AllocError>
    requires { (1 ≤ workers) × (workers ≤ 64) }
    ensures { IfOk result (λ made. AllOf (identity made.0) made.1.items) }
{
    let (board, passes) = Board::new(alloc, moves, workers)?;
    Ok((board, passes))
}

/// Makes a board of the table with these flags and pairs, with its passes.
pub fn board_with(
    alloc: Global,
    fill: &[bool],
    pairs: &[(u32, u32)],
    workers: u32,
) -> Result<(Board, Vec<Pass>), Fail>
    requires { (1 ≤ workers) × (workers ≤ 64) }
    ensures { IfOk result (λ made. AllOf (identity made.0) made.1.items) }
{
    let moves = table_of(alloc, fill, pairs)?;
    Ok(board_of_moves(alloc, &moves, workers)?)
}

/// Takes the last pass.
pub fn take(board: &Board, passes: &mut Vec<Pass>) -> Option<Pass>
    requires { AllOf (identity board.now) passes.old.items }
    ensures pass { IfSome result (λ pass. board_of pass ≡ identity board.now) }
    ensures rest { OnSome result (AllOf (identity board.now) passes.new.items) }
{
    let Some(pass) = passes.pop() else {
        return None;
    };
    Some(pass)
}

/// Takes the last two passes.
pub fn take_two(board: &Board, passes: &mut Vec<Pass>) -> Result<(Pass, Pass), Fail>
    requires { AllOf (identity board.now) passes.old.items }
    ensures pass { IfOk result (λ two. (board_of two.0 ≡ identity board.now) × (board_of two.1 ≡ identity board.now)) }
    ensures rest { OnOk result (AllOf (identity board.now) passes.new.items) }
{
    let last = take(board, passes).ok_or("no pass is left")?;
    let before = take(board, passes).ok_or("only one pass is left")?;
    Ok((before, last))
}

/// Puts a pass back.
#[tactic(auto, using(crate::proofs::Lemmas::Passes::all_push))]
pub fn put(board: &Board, passes: &mut Vec<Pass>, pass: Pass) -> Result<(), AllocError>
    requires { AllOf (identity board.now) passes.old.items × (board_of pass ≡ identity board.now) }
    ensures { OnOk result (AllOf (identity board.now) passes.new.items) }
{
    let _board = board;
    passes.push(pass)?;
    Ok(())
}

/// Gives up the ticket, and returns whether there was one.
pub fn is_claimed(ticket: Option<Ticket>) -> bool {
    match ticket {
        Some(ticket) => {
            ticket.give_up();
            true
        }
        None => false,
    }
}

/// Takes the ticket's right and gives it up; returns whether there was one.
fn take_right(ticket: &mut Ticket) -> bool {
    match ticket.right() {
        Some(right) => {
            right.give_up();
            true
        }
        None => false,
    }
}

/// The results of two workers. Worker 0 claims region 0 and drains its source; worker 1 makes claims before and after
/// their passes meet.
#[derive(Clone, Copy, Debug, PartialEq, Eq)]
struct Met {
    /// The pair of the opening.
    pair: (u32, u32),
    drained: Drained,
    /// The ticket's number of sources left, and its region.
    left: (usize, u32),
    /// Whether worker 1 was granted region 0 before the meeting, and region 1 after it.
    granted: (bool, bool),
    /// The status of regions 0 and 1 for worker 1 between these claims.
    looks: (Reply, Reply),
    /// Whether the ticket had its right at the first request, and at the second.
    rights: (bool, bool),
}

/// Makes the calls of both workers. `None` if region 0 isn't granted or reads no other region.
fn meeting(board: &Board, zero: &mut Pass, one: &mut Pass) -> Option<Met>
    requires boards { (board_of zero.old ≡ identity board.now) × (board_of one.old ≡ identity board.now) }
    requires regions { 1 < region_count (moves_of board.now) }
    ensures { (board_of zero.new ≡ identity board.now) × (board_of one.new ≡ identity board.now) }
{
    let mut ticket = board.claim(zero, 0)?;
    let Some(opening) = ticket.open(board.moves()) else {
        ticket.give_up();
        return None;
    };
    let pair = (opening.destination(), opening.source());
    let drained = board.drain(zero, &mut ticket, opening.close());
    let early = is_claimed(board.claim(one, 0));
    board.meet(zero, one);
    let looks = (board.look(one, 0), board.look(one, 1));
    let granted = (early, is_claimed(board.claim(one, 1)));
    let left = (ticket.left(), ticket.region());
    let rights = (take_right(&mut ticket), take_right(&mut ticket));
    ticket.give_up();
    Some(Met {
        pair,
        drained,
        left,
        granted,
        looks,
        rights,
    })
}

/// The results of the two workers of a board. Puts their passes back.
fn meet_and_part(board: &Board, passes: &mut Vec<Pass>) -> Result<Met, Fail>
    requires { AllOf (identity board.now) passes.old.items }
    ensures { OnOk result (AllOf (identity board.now) passes.new.items) }
{
    if board.moves().regions() < 2 {
        return Err(Fail::new("there are four regions"));
    }
    let (mut zero, mut one) = take_two(board, passes)?;
    let found = meeting(board, &mut zero, &mut one);
    put(board, passes, zero)?;
    put(board, passes, one)?;
    Ok(found.ok_or("region 0 is free, and reads region 1")?)
}

#[test]
fn two_passes_meet(rt: HostRuntime) -> Result<(), Fail> {
    let (board, mut passes) = board_with(rt.alloc(), &BASE_FILLED, &BASE_PAIRS, 2)?;
    let found = meet_and_part(&board, &mut passes)?;
    let wanted = Met {
        pair: (0, 1),
        drained: Drained::Last,
        left: (0, 0),
        granted: (false, true),
        looks: (Reply::Claimed, Reply::Open(0)),
        rights: (true, false),
    };
    equal(&rt, found, wanted);
    equal(&rt, board.finish(passes).is_some(), false);
    Ok(())
}

/// Polls with the last pass. Puts the pass back if fewer than `kept` are left.
fn poll(board: &Board, passes: &mut Vec<Pass>, kept: usize) -> Result<bool, Fail>
    requires { AllOf (identity board.now) passes.old.items }
    ensures { OnOk result (AllOf (identity board.now) passes.new.items) }
{
    let mut pass = take(board, passes).ok_or("no pass is left")?;
    let all = board.poll(&mut pass);
    if passes.len() < kept {
        put(board, passes, pass)?;
    }
    Ok(all)
}

/// For a board of one region, to be filled or not: the reply to a poll, and whether the board finishes with `kept`
/// passes.
fn poll_and_finish(
    alloc: Global,
    fills: bool,
    workers: u32,
    kept: usize,
) -> Result<(bool, bool), Fail>
    requires { (1 ≤ workers) × (workers ≤ 64) }
{
    let (board, mut passes) = board_with(alloc, &[fills], &[], workers)?;
    let all = poll(&board, &mut passes, kept)?;
    Ok((all, board.finish(passes).is_some()))
}

#[test]
fn a_board_with_nothing_to_fill_finishes_only_with_all_passes(rt: HostRuntime) -> Result<(), Fail> {
    equal(&rt, poll_and_finish(rt.alloc(), false, 1, 1)?, (true, true));
    equal(
        &rt,
        poll_and_finish(rt.alloc(), false, 2, 1)?,
        (true, false),
    );
    equal(
        &rt,
        poll_and_finish(rt.alloc(), true, 1, 1)?,
        (false, false),
    );
    Ok(())
}

/// Whether each region has its first status, and there is a pass for each of two workers.
fn is_opened(board: &Board, passes: &mut Vec<Pass>) -> bool
    requires { AllOf (identity board.now) passes.old.items }
{
    if board.moves().regions() != 4 {
        return false;
    }
    let Some(mut pass) = take(board, passes) else {
        return false;
    };
    let front = [board.look(&mut pass, 0), board.look(&mut pass, 1)];
    let back = [board.look(&mut pass, 2), board.look(&mut pass, 3)];
    let is_front = front == [Reply::Open(0), Reply::Open(0)];
    let is_back = back == [Reply::Open(1), Reply::Outside(2)];
    is_front && is_back && !board.poll(&mut pass) && passes.len() == 1
}

/// Whether a new board of these moves is in its first state.
fn makes_board(alloc: Global, moves: &GivenMoves) -> Result<bool, AllocError> {
    let (board, mut passes) = board_of_moves(alloc, moves, 2)?;
    Ok(is_opened(&board, &mut passes))
}

/// Whether a new recorder of these moves has an empty list, which lacks no call.
fn makes_recorder(alloc: Global, moves: &GivenMoves) -> Result<bool, CallFault> {
    let (board, _passes) = cleared_board_of(alloc, moves, 2)?;
    let recorder = Recorder::new(board, Book::new(alloc, moves, 2)?);
    let (board, schedule, missing) = recorder.into_parts();
    let is_empty = schedule.workers() == 2 && schedule.is_empty() && missing.is_none();
    Ok(is_empty && board.workers() == 2)
}

/// Whether both are right for the base heap with an allowance of 2 dead words.
fn comes_through(alloc: Global) -> Result<bool, CallFault> {
    let moves = moves_with_prefix(alloc)?;
    let is_board = makes_board(alloc, &moves)?;
    Ok(makes_recorder(alloc, &moves)? && is_board)
}

/// The script tests/build/test_crate_allocations.sh runs this with each allocation refused in turn.
#[test]
fn refused_memory_is_reported(rt: HostRuntime) {
    let first = comes_through(rt.alloc());
    let second = comes_through(rt.alloc());
    expect_memory_fault(&rt, [first, second], CallFault::Memory);
}
