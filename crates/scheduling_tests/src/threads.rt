//! Workers in their own threads: two that claim one region, and many on boards over random moves.
ghost use Rattle.std.specs.Prelude.{◌≡◌, ◌<◌, ◌≤◌, All, IfOk, OnOk};
ghost use Rattle.scheduler.specs.MoveTable.{region_count};
ghost use Rattle.claim_board.specs.Boards.{moves as moves_of, identity, board_of, AllOf};

use crate::boards::{board_of_moves, board_with, is_claimed, take_two};
use crate::checks::{equal, equal_at};
use claim_board::{
    Board, Pass, appended_calls_are_gained, one_more_source_is_drained,
    swept_tickets_have_none_left,
};
use heap_samples::Seed;
use scheduler::{GivenMoves, Moves};
use std::alloc::{AllocError, Global};
use std::sync::atomic::{AtomicU64, Ordering};
use std::test::Fail;
use std::thread;
use std::thread::Threads;

/// The number of turns for which a thread waits for another.
const TURNS: u32 = 1_000_000;

/// Sets one flag and waits for the other; returns whether it was set.
fn wait_for_flag(mine: &AtomicU64, theirs: &AtomicU64) -> bool {
    mine.store(1, Ordering::SeqCst);
    for _ in 0..TURNS {
        if theirs.load(Ordering::SeqCst) == 1 {
            return true;
        }
        thread::yield_now();
    }
    false
}

/// Claims region 0 and then waits for the other flag. Returns whether the region was granted and the flag set.
fn claim_then_wait(
    board: &Board,
    mut pass: Pass,
    mine: &AtomicU64,
    theirs: &AtomicU64,
) -> (bool, bool)
    requires { (board_of pass ≡ identity board.now) × (0 < region_count (moves_of board.now)) }
{
    let claimed = is_claimed(board.claim(&mut pass, 0));
    (claimed, wait_for_flag(mine, theirs))
}

/// Waits for the other flag and then claims region 0. Returns whether the region was granted and the flag set.
fn wait_then_claim(
    board: &Board,
    mut pass: Pass,
    mine: &AtomicU64,
    theirs: &AtomicU64,
) -> (bool, bool)
    requires { (board_of pass ≡ identity board.now) × (0 < region_count (moves_of board.now)) }
{
    let met = wait_for_flag(mine, theirs);
    (is_claimed(board.claim(&mut pass, 0)), met)
}

/// Runs both, each in its own thread.
fn claim_by_both<R: Threads>(
    rt: &R,
    board: &Board,
    a: Pass,
    b: Pass,
) -> ((bool, bool), (bool, bool))
    requires { (board_of a ≡ identity board.now) × (board_of b ≡ identity board.now) × (0 < region_count (moves_of board.now)) }
{
    let first = AtomicU64::new(0);
    let second = AtomicU64::new(0);
    let one = &first;
    let other = &second;
    thread::join(
        rt,
        move || -> (bool, bool)
            requires { (board_of a ≡ identity board.now) × (0 < region_count (moves_of board.now)) }
        { claim_then_wait(board, a, one, other) },
        move || -> (bool, bool)
            requires { (board_of b ≡ identity board.now) × (0 < region_count (moves_of board.now)) }
        { wait_then_claim(board, b, other, one) },
    )
}

/// Lets two workers of a board claim its only region.
fn claim_in_threads<R: Threads>(
    rt: &R,
    board: &Board,
    passes: &mut Vec<Pass>,
) -> Result<((bool, bool), (bool, bool)), Fail>
    requires { AllOf (identity board.now) passes.old.items }
{
    let is_there = board.moves().regions() == 1;
    let (a, b) = take_two(board, passes)?;
    if is_there {
        Ok(claim_by_both(rt, board, a, b))
    } else {
        Err(Fail::new("there is one region"))
    }
}

#[test]
fn a_region_claimed_in_another_thread_is_refused(rt: HostRuntime) -> Result<(), Fail> {
    let (board, mut passes) = board_with(rt.alloc(), &[true], &[], 2)?;
    let found = claim_in_threads(&rt, &board, &mut passes)?;
    equal(&rt, found, ((true, true), (false, true)));
    Ok(())
}

const ROUNDS: u32 = 200;

const REGIONS: u32 = 150;

/// The most sweeps of a worker.
const SWEEPS: u32 = 1_000_000;

/// For each region, whether it is to be filled; most are.
fn seeded_fills(alloc: Global, seed: &mut Seed) -> Result<Vec<bool>, AllocError> {
    let mut fill = Vec::new(alloc);
    for _ in 0..REGIONS {
        fill.push(seed.below(8) != 0)?;
    }
    Ok(fill)
}

/// Pairs of each region to be filled with some of the four regions above it.
fn seeded_pairs(
    alloc: Global,
    seed: &mut Seed,
    fill: &[bool],
) -> Result<Vec<(u32, u32)>, AllocError> {
    let mut pairs = Vec::new(alloc);
    let mut readers = [0; REGIONS as usize];
    for destination in 0..REGIONS {
        if fill.get(destination as usize) == Some(&true) {
            add_sources(&mut pairs, &mut readers, seed, destination)?;
        }
    }
    Ok(pairs)
}

/// Adds pairs of the destination with sources that have fewer than two readers.
fn add_sources(
    pairs: &mut Vec<(u32, u32)>,
    readers: &mut [u32],
    seed: &mut Seed,
    destination: u32,
) -> Result<(), AllocError> {
    for source in destination.saturating_add(1)..destination.saturating_add(5) {
        let Some(count) = readers.get_mut(source as usize) else {
            return Ok(());
        };
        if *count < 2 && seed.below(2) == 0 {
            *count += 1;
            pairs.push((destination, source))?;
        }
    }
    Ok(())
}

/// Random moves, and their number of pairs.
fn seeded_moves(alloc: Global, seed: &mut Seed) -> Result<(GivenMoves, usize), Fail> {
    let fill = seeded_fills(alloc, seed)?;
    let pairs = seeded_pairs(alloc, seed, fill.as_slice())?;
    let count = pairs.len();
    Ok((GivenMoves::new(fill, pairs).ok_or("a table")?, count))
}

/// The regions that a worker filled, its number of drains, and how often a settling said that all are settled.
#[derive(Drop)]
struct Tally {
    filled: Vec<u32>,
    drains: usize,
    lasts: usize,
}

fn no_tally(alloc: Global) -> Tally {
    Tally {
        filled: Vec::new(alloc),
        drains: 0,
        lasts: 0,
    }
}

/// Claims a region, drains its sources, completes and settles it. Drops the note if memory runs out.
fn fill(board: &Board, pass: &mut Pass, region: u32, tally: &mut Tally)
    requires { (board_of pass.old ≡ identity board.now) × (region < region_count (moves_of board.now)) }
    ensures { board_of pass.new ≡ identity board.now }
{
    appended_calls_are_gained();
    swept_tickets_have_none_left();
    one_more_source_is_drained();
    let moves = board.moves();
    // Its clause is that these moves keep the laws of a table.
    let _regions = moves.regions();
    let Some(mut ticket) = board.claim(pass, region) else {
        return;
    };
    while let Some(opening) = ticket.open(moves) {
        board.drain(pass, &mut ticket, opening.close());
        tally.drains = tally.drains.wrapping_add(1);
    }
    let Some(right) = ticket.right() else {
        ticket.give_up();
        return;
    };
    let done = board.complete(pass, ticket, right.written());
    let all = board.settle(pass, done);
    tally.lasts = tally.lasts.wrapping_add(usize::from(all));
    let _ = tally.filled.push(region);
}

/// Claims each region once, and fills those that are granted.
fn sweep(board: &Board, pass: &mut Pass, tally: &mut Tally)
    requires { board_of pass.old ≡ identity board.now }
    ensures { board_of pass.new ≡ identity board.now }
{
    for region in 0..board.moves().regions() {
        fill(board, pass, region, tally);
    }
}

/// Waits until this number of workers have begun, so that they all claim at the same time.
fn begin(begun: &AtomicU64, workers: u64) {
    begun.fetch_add(1, Ordering::SeqCst);
    for _ in 0..TURNS {
        if begun.load(Ordering::SeqCst) >= workers {
            return;
        }
        thread::yield_now();
    }
}

/// A worker at the end of a round.
#[derive(Drop)]
struct Worker {
    pass: Pass,
    tally: Tally,
}

/// Sweeps until all regions are settled.
fn work(alloc: Global, board: &Board, mut pass: Pass) -> Worker
    requires { board_of pass ≡ identity board.now }
    ensures { board_of result.pass ≡ identity board.now }
{
    let mut tally = no_tally(alloc);
    for _ in 0..SWEEPS {
        if board.poll(&mut pass) {
            break;
        }
        sweep(board, &mut pass, &mut tally);
        thread::yield_now();
    }
    Worker { pass, tally }
}

/// Runs all workers, each in its own thread if one can be started.
fn work_all<R: Threads + Sync>(
    rt: &R,
    alloc: Global,
    board: &Board,
    passes: Vec<Pass>,
) -> Result<Vec<Worker>, AllocError>
    requires passes { All (λ p. board_of p ≡ identity board.now) passes.items }
    ensures { IfOk result (λ v. All (λ w. board_of w.pass ≡ identity board.now) v.items) }
{
    let workers = passes.len() as u64;
    let begun = AtomicU64::new(0);
    thread::map_vec(
        rt,
        passes,
        &|pass| {
            begin(&begun, workers);
            work(alloc, board, pass)
        },
    )
}

/// Adds one worker's tally to the sum.
fn add(sum: &mut Tally, tally: &Tally) -> Result<(), AllocError> {
    sum.filled.extend_from_slice(tally.filled.as_slice())?;
    sum.drains = sum.drains.wrapping_add(tally.drains);
    sum.lasts = sum.lasts.wrapping_add(tally.lasts);
    Ok(())
}

/// Collects the workers' passes and adds up their tallies.
fn gather(
    board: &Board,
    mut workers: Vec<Worker>,
    passes: &mut Vec<Pass>,
    sum: &mut Tally,
) -> Result<(), AllocError>
    requires workers { All (λ w. board_of w.pass ≡ identity board.now) workers.items }
    requires passes { AllOf (identity board.now) passes.old.items }
    ensures { OnOk result (AllOf (identity board.now) passes.new.items) }
{
    let _board = board;
    while let Some(worker) = workers.pop() {
        let Worker { pass, tally } = worker;
        passes.push(pass)?;
        add(sum, &tally)?;
    }
    Ok(())
}

/// Runs all workers. Returns their passes and the sum of their tallies.
fn worked<R: Threads + Sync>(
    rt: &R,
    alloc: Global,
    board: &Board,
    passes: Vec<Pass>,
) -> Result<(Vec<Pass>, Tally), AllocError>
    requires { AllOf (identity board.now) passes.items }
    ensures { IfOk result (λ found. AllOf (identity board.now) found.0.items) }
{
    let workers = work_all(rt, alloc, board, passes)?;
    let mut gathered = Vec::new(alloc);
    let mut sum = no_tally(alloc);
    gather(board, workers, &mut gathered, &mut sum)?;
    Ok((gathered, sum))
}

/// Whether each region to be filled is in the list once, and no other region is.
fn are_filled_once(moves: &GivenMoves, filled: &[u32]) -> bool {
    for region in 0..moves.regions() {
        let times = filled.iter().filter(|r| **r == region).count();
        if times != usize::from(moves.to_fill(region)) {
            return false;
        }
    }
    true
}

/// Runs this number of workers on a board of these moves. Returns the sum of their tallies, or `None` if the board
/// doesn't finish.
fn round<R: Threads + Sync>(
    rt: &R,
    alloc: Global,
    moves: &GivenMoves,
    workers: u32,
) -> Result<Option<Tally>, AllocError>
    requires { (1 ≤ workers) × (workers ≤ 64) }
{
    let (board, passes) = board_of_moves(alloc, moves, workers)?;
    let (passes, sum) = worked(rt, alloc, &board, passes)?;
    if board.finish(passes).is_some() {
        Ok(Some(sum))
    } else {
        Ok(None)
    }
}

/// Whether each region is filled once, `pairs` drains are made, and exactly one settling says that all are settled.
fn is_whole(moves: &GivenMoves, pairs: usize, sum: &Tally) -> bool {
    are_filled_once(moves, sum.filled.as_slice()) && sum.drains == pairs && sum.lasts == 1
}

#[test]
fn each_region_is_filled_once_by_many_workers(rt: HostRuntime) -> Result<(), Fail> {
    let mut seed = Seed(1);
    for number in 0..ROUNDS {
        let (moves, pairs) = seeded_moves(rt.alloc(), &mut seed)?;
        let sum = round(&rt, rt.alloc(), &moves, 2 + number % 7)?;
        let is_whole = sum.is_some_and(|sum| is_whole(&moves, pairs, &sum));
        equal_at(&rt, is_whole, true, number as usize);
    }
    Ok(())
}
