//! The one-thread scheduler, the book and the locked board: calls with expected replies.
use crate::checks::{equal_at, equal_items, expect_memory_fault, holds};
use crate::tables::{table_of, try_table};
use history::write_schedule;
use scheduler::{
    Book, CallFault, Event, GivenMoves, Illegal, IndexedMoves, LockedBoard, Moves, Reply, Scheduler,
};
use std::alloc::Global;
use std::process::Abort;
use std::sync::Wait;
use std::test::Fail;

/// A worker, its event and the expected result.
type Call = (u32, Event, Result<Reply, Illegal>);

/// Makes the calls; fails the test if a result differs or the scheduler has no such worker.
fn check_calls(rt: &impl Abort, scheduler: &mut Scheduler, calls: &[Call]) {
    for (row, (worker, event, answer)) in calls.iter().enumerate() {
        holds(rt, *worker < scheduler.workers());
        equal_at(rt, scheduler.step(*worker, *event), *answer, row);
    }
}

/// One worker on three regions, each of which reads the next.
const THREE_REGIONS: [Call; 24] = [
    (0, Event::Claim(1), Ok(Reply::No)),
    (0, Event::Claim(0), Ok(Reply::Yes)),
    (0, Event::Complete(0), Err(Illegal)),
    (0, Event::Drain(0, 2), Err(Illegal)),
    (0, Event::Drain(0, 1), Ok(Reply::Last)),
    (0, Event::Drain(0, 1), Err(Illegal)),
    (0, Event::Claim(1), Ok(Reply::Yes)),
    (0, Event::Copy(1, 0), Err(Illegal)),
    (0, Event::Copy(1, 8), Ok(Reply::Done)),
    (0, Event::Drain(1, 2), Ok(Reply::Last)),
    (0, Event::Claim(2), Ok(Reply::Yes)),
    (0, Event::Look(2), Ok(Reply::Claimed)),
    (0, Event::Settle(0), Err(Illegal)),
    (0, Event::Complete(0), Ok(Reply::Done)),
    (0, Event::Complete(1), Ok(Reply::Done)),
    (0, Event::Complete(2), Ok(Reply::Done)),
    (0, Event::Look(2), Ok(Reply::Filled)),
    (0, Event::Look(3), Err(Illegal)),
    (0, Event::Settle(0), Ok(Reply::More)),
    (0, Event::Poll, Ok(Reply::More)),
    (0, Event::Settle(1), Ok(Reply::More)),
    (0, Event::Settle(2), Ok(Reply::All)),
    (0, Event::Settle(2), Err(Illegal)),
    (0, Event::Poll, Ok(Reply::All)),
];

#[test]
fn one_worker_fills_three_regions(rt: HostRuntime) -> Result<(), Fail> {
    let moves = table_of(rt.alloc(), &[true, true, true], &[(0, 1), (1, 2)])?;
    let mut scheduler = Scheduler::new(rt.alloc(), &moves, 1)?;
    check_calls(&rt, &mut scheduler, &THREE_REGIONS);
    Ok(())
}

/// The calls of two workers on a locked board of two regions, with the expected results.
const LOCKED: [(u32, Event, Result<Reply, CallFault>); 15] = [
    (0, Event::Claim(1), Ok(Reply::No)),
    (0, Event::Claim(0), Ok(Reply::Yes)),
    (1, Event::Copy(0, 8), Err(CallFault::Illegal)),
    (0, Event::Copy(0, 8), Ok(Reply::Done)),
    (0, Event::Drain(0, 1), Ok(Reply::Last)),
    (1, Event::Look(1), Ok(Reply::Open(0))),
    (2, Event::Poll, Err(CallFault::Illegal)),
    (0, Event::Complete(0), Ok(Reply::Done)),
    (0, Event::Settle(0), Ok(Reply::More)),
    (1, Event::Poll, Ok(Reply::More)),
    (1, Event::Claim(1), Ok(Reply::Yes)),
    (1, Event::Copy(1, 8), Ok(Reply::Done)),
    (1, Event::Complete(1), Ok(Reply::Done)),
    (1, Event::Settle(1), Ok(Reply::All)),
    (0, Event::Poll, Ok(Reply::All)),
];

/// The schedule of the calls that don't fail.
const LOCKED_TEXT: &str = "schedule 1 2
0 claim 1 no
0 claim 0 yes
0 copy 0 8 ok
0 drain 0 1 last
1 look 1 open0
0 complete 0 ok
0 settle 0 more
1 poll more
1 claim 1 yes
1 copy 1 8 ok
1 complete 1 ok
1 settle 1 all
0 poll all
";

/// Makes these calls; fails the test if a result differs or the board isn't done exactly after the last.
fn check_locked_calls<R: Abort + Wait>(rt: &R, board: &LockedBoard) {
    holds(rt, !board.done(rt));
    for (row, (worker, event, answer)) in LOCKED.iter().enumerate() {
        equal_at(rt, board.call(*worker, *event, rt), *answer, row);
    }
    holds(rt, board.done(rt));
}

#[test]
fn a_locked_board_keeps_its_calls(rt: HostRuntime) -> Result<(), Fail> {
    let moves = table_of(rt.alloc(), &[true, true], &[(0, 1)])?;
    let board = LockedBoard::new(rt.alloc(), &moves, 2)?;
    check_locked_calls(&rt, &board);
    let text = write_schedule(rt.alloc(), &board.into_schedule())?;
    equal_items(&rt, text.as_slice(), LOCKED_TEXT.as_bytes());
    Ok(())
}

/// The moves of the base heap with an allowance of 2 dead words.
pub fn moves_with_prefix(alloc: Global) -> Result<GivenMoves, CallFault> {
    let fill = [true, true, true, false];
    try_table(alloc, &fill, &[(1, 2), (1, 3), (2, 3)])?.ok_or(CallFault::Illegal)
}

/// The reply of a scheduler of two workers to a look at region 3.
fn look_by_scheduler<M: Moves>(alloc: Global, moves: &M) -> Result<Reply, CallFault> {
    let mut scheduler = Scheduler::new(alloc, moves, 2)?;
    Ok(scheduler.step(1, Event::Look(3))?)
}

/// The reply of a book of two workers to a look at region 3.
fn look_by_book<M: Moves>(alloc: Global, moves: &M) -> Result<Reply, CallFault> {
    let mut book = Book::new(alloc, moves, 2)?;
    book.apply(1, Event::Look(3))
}

/// The replies of both.
fn look_by_both(alloc: Global) -> Result<(Reply, Reply), CallFault> {
    let moves = IndexedMoves::new(alloc, moves_with_prefix(alloc)?)?;
    Ok((
        look_by_scheduler(alloc, &moves)?,
        look_by_book(alloc, &moves)?,
    ))
}

/// Looks at region 3. Tries again if memory ran out.
fn look_on(board: &LockedBoard, wait: &impl Wait) -> Result<Reply, CallFault> {
    match board.call(1, Event::Look(3), wait) {
        Err(CallFault::Memory) => board.call(1, Event::Look(3), wait),
        answer => answer,
    }
}

/// Whether a locked board keeps its only call, a look at region 3.
fn keeps_a_look(alloc: Global, wait: &impl Wait) -> Result<bool, CallFault> {
    let board = LockedBoard::new(alloc, &moves_with_prefix(alloc)?, 2)?;
    look_on(&board, wait)?;
    let text = write_schedule(alloc, &board.into_schedule())?;
    Ok(text.as_slice() == b"schedule 1 2\n1 look 3 out2\n".as_slice())
}

/// Whether all three give the expected results.
fn comes_through(alloc: Global, wait: &impl Wait) -> Result<bool, CallFault> {
    let replies = look_by_both(alloc)?;
    let is_kept = keeps_a_look(alloc, wait)?;
    Ok(replies == (Reply::Outside(2), Reply::Outside(2)) && is_kept)
}

/// The script tests/build/test_crate_allocations.sh runs this with each allocation refused in turn.
#[test]
fn refused_memory_is_reported(rt: HostRuntime) {
    let first = comes_through(rt.alloc(), &rt);
    let second = comes_through(rt.alloc(), &rt);
    expect_memory_fault(&rt, [first, second], CallFault::Memory);
}
