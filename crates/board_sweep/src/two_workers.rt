//! The sweep of two workers with one board, and its report.
ghost use Rattle.std.specs.Prelude.{◌≡◌, IfOk, string_bytes, vec_len};
ghost use Rattle.scheduler.specs.MoveTable.{region_count};
ghost use Rattle.claim_board.specs.Boards.{moves as moves_of, worker_count, identity, board_of, worker, mine, ArePasses, IsNew};
ghost use Rattle.board_sweep.specs.Report.{IsBoardText, IsReportOf, three_regions};
ghost use Rattle.board_sweep.specs.Sweeps.{IsSweptBy, IsOutcome};

use crate::report::lines;
use crate::sweeper::{Swept, sweep};
use claim_board::{Board, Pass};
use scheduler::{GivenMoves, Moves};
use std::alloc::{AllocError, Global};
use std::thread;
use std::thread::Threads;

/// Lets two workers sweep once over three regions with one board, each in its own thread if one can be
/// started. The text counts the claims and completions of both, and says whether the board finished.
pub fn sweep_with_two_workers<R: AllocGlobal + Threads>(rt: &R) -> Result<String, AllocError>
    ensures { IfOk result (λ text. IsBoardText (string_bytes text)) }
{
    let moves = three_regions(rt.alloc())?;
    let (board, passes) = Board::new(rt.alloc(), &moves, 2)?;
    let (first, second) = two(&board, passes);
    let (first, second) = sweep_both(rt, &board, &moves, first, second);
    text_of(rt.alloc(), moves.regions(), board, first?, second?)
}

/// The passes of the two workers.
fn two(board: &Board, mut passes: Vec<Pass>) -> (Pass, Pass)
    requires { (vec_len passes ≡ 2) × ArePasses (identity board.now) passes.items }
    ensures first { IsNew (identity board.now) 0 result.0 }
    ensures second { IsNew (identity board.now) 1 result.1 }
{
    // The contract alone speaks of the board.
    let _board = board;
    let second = passes.pop().unwrap();
    let first = passes.pop().unwrap();
    (first, second)
}

/// Lets both workers sweep, each in its own thread if one can be started.
fn sweep_both<R: AllocGlobal + Threads>(
    rt: &R,
    board: &Board,
    moves: &GivenMoves,
    first: Pass,
    second: Pass,
) -> (Result<Swept, AllocError>, Result<Swept, AllocError>)
    requires moves { moves.now ≡ moves_of board.now }
    requires first { IsNew (identity board.now) 0 first }
    requires second { IsNew (identity board.now) 1 second }
    ensures first { IfOk result.0 (IsSweptBy board.now 0) }
    ensures second { IfOk result.1 (IsSweptBy board.now 1) }
{
    let alloc = rt.alloc();
    thread::join(
        rt,
        move || -> Result<Swept, AllocError>
            requires { (moves.now ≡ moves_of board.now) × IsNew (identity board.now) 0 first }
            ensures { IfOk result (IsSweptBy board.entry.now 0) }
        { sweep(alloc, board, moves, first) },
        move || -> Result<Swept, AllocError>
            requires { (moves.now ≡ moves_of board.now) × IsNew (identity board.now) 1 second }
            ensures { IfOk result (IsSweptBy board.entry.now 1) }
        { sweep(alloc, board, moves, second) },
    )
}

/// The report of both workers and of whether the board finished.
fn text_of(
    alloc: Global,
    regions: u32,
    board: Board,
    first: Swept,
    second: Swept,
) -> Result<String, AllocError>
    requires regions { regions ≡ region_count (moves_of board) }
    requires workers { worker_count board ≡ 2 }
    requires first { IsSweptBy board 0 first }
    requires second { IsSweptBy board 1 second }
    ensures { IfOk result (λ text. IsReportOf (moves_of board) (string_bytes text)) }
{
    let mut text = lines(
        alloc,
        regions,
        first.tallies.as_slice(),
        second.tallies.as_slice(),
    )?;
    if is_settled(alloc, board, first.pass, second.pass)? {
        text.push_str("all settled\n")?;
    }
    Ok(text)
}

/// Finishes the board and returns whether all regions to be filled are settled.
fn is_settled(alloc: Global, board: Board, first: Pass, second: Pass) -> Result<bool, AllocError>
    requires workers { worker_count board ≡ 2 }
    requires first { (board_of first ≡ identity board) × (worker first ≡ 0) }
    requires second { (board_of second ≡ identity board) × (worker second ≡ 1) }
    ensures { IfOk result (IsOutcome (moves_of board) (mine first) (mine second)) }
{
    let mut passes = Vec::with_capacity(alloc, 2)?;
    passes.push(first)?;
    passes.push(second)?;
    Ok(board.finish(passes).is_some())
}

/// Three regions to be filled. Region 0 takes words of region 1, and region 1 of region 2.
pub(crate) fn three_regions(alloc: Global) -> Result<GivenMoves, AllocError>
    ensures { IfOk result (λ moves. moves ≡ three_regions) }
{
    let fill = Vec::from_slice(alloc, &[true, true, true])?;
    let pairs = Vec::from_slice(alloc, &[(0, 1), (1, 2)])?;
    Ok(GivenMoves::new(fill, pairs).unwrap())
}
