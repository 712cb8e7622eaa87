//! Two threads that read one region of the base heap at the same time.
ghost use Rattle.std.specs.Prelude.{◌≡◌, ◌<◌, IfSome};
ghost use Rattle.object_heap.specs.HeapImage.{region_count};
ghost use Rattle.scheduler.specs.MoveTable.{region_count as table_regions};
ghost use Rattle.claim_board.specs.Boards.{moves as moves_of, identity, board_of};

use crate::cells::base_cells;
use crate::checks::equal;
use crate::setups::board_of_four;
use claim_board::{Board, Pass, Ticket, one_more_source_is_drained};
use heap_samples::BASE_LIVE;
use region_cells::Cells;
use scheduler::GivenMoves;
use std::alloc::Global;
use std::sync::Wait;
use std::sync::atomic::{AtomicBool, Ordering};
use std::test::Fail;
use std::thread;
use std::thread::Threads;

/// The moves of the base heap, as pairs of destination and source.
const PAIRS: [(u32, u32); 4] = [(0, 1), (1, 2), (1, 3), (2, 3)];

/// How often a reader polls whether the other one reads too.
const TURNS: u32 = 1_000_000;

/// Claims regions 0, 1 and 2 and drains (0, 1) and (1, 2), so that the tickets of 1 and 2 have only region 3 left to
/// read.
fn last_tickets(board: &Board, moves: &GivenMoves, pass: &mut Pass) -> Option<(Ticket, Ticket)>
    requires moves { moves_of board.now ≡ moves.now }
    requires regions { table_regions moves.now ≡ 4 }
    requires pass { board_of pass.old ≡ identity board.now }
    ensures { IfSome result (λ tickets. (tickets.0.region < 4) × (tickets.1.region < 4)) }
{
    drained_ticket(board, moves, pass, 0)?.give_up();
    let first = drained_ticket(board, moves, pass, 1)?;
    match board.claim(pass, 2) {
        Some(second) => Some((first, second)),
        None => {
            first.give_up();
            None
        }
    }
}

/// Claims a region and drains its first source.
fn drained_ticket(board: &Board, moves: &GivenMoves, pass: &mut Pass, region: u32) -> Option<Ticket>
    requires moves { moves_of board.now ≡ moves.now }
    requires inside { region < table_regions moves.now }
    requires pass { board_of pass.old ≡ identity board.now }
    ensures pass { board_of pass.new ≡ identity board.now }
    ensures region { IfSome result (λ ticket. ticket.region ≡ region) }
{
    one_more_source_is_drained();
    let mut ticket = board.claim(pass, region)?;
    match ticket.open(moves) {
        Some(opening) => {
            board.drain(pass, &mut ticket, opening.close());
            Some(ticket)
        }
        None => {
            ticket.give_up();
            None
        }
    }
}

/// A reader's flag, which it raises while its source is open, and the other reader's flag.
#[derive(Clone, Copy)]
struct Flags<'a> {
    mine: &'a AtomicBool,
    theirs: &'a AtomicBool,
}

/// Opens the ticket's next source. Returns whether the other thread's was open at the same time.
fn reads_beside<W: Wait>(
    cells: &Cells,
    moves: &GivenMoves,
    ticket: &mut Ticket,
    flags: Flags<'_>,
    wait: &W,
) -> bool
    requires cells { region_count cells.now ≡ 4 }
    requires moves { table_regions moves.now ≡ 4 }
    requires ticket { ticket.old.region < 4 }
{
    let Some(opening) = ticket.open(moves) else {
        return false;
    };
    match cells.read(opening, wait) {
        Ok(source) => {
            flags.mine.store(true, Ordering::SeqCst);
            let met = was_raised(flags.theirs);
            source.close().give_up();
            met
        }
        Err(_) => false,
    }
}

/// Whether the flag is raised within `TURNS` polls.
fn was_raised(flag: &AtomicBool) -> bool {
    for _ in 0..TURNS {
        if flag.load(Ordering::SeqCst) {
            return true;
        }
        thread::yield_now();
    }
    false
}

/// Whether two threads, each with one of these tickets, see each other's source.
fn read_by_two<R: Threads + Wait + Sync>(
    cells: &Cells,
    moves: &GivenMoves,
    mut first: Ticket,
    mut second: Ticket,
    rt: &R,
) -> (bool, bool)
    requires cells { region_count cells.now ≡ 4 }
    requires moves { table_regions moves.now ≡ 4 }
    requires tickets { (first.region < 4) × (second.region < 4) }
{
    let one = AtomicBool::new(false);
    let two = AtomicBool::new(false);
    let of_first = Flags {
        mine: &one,
        theirs: &two,
    };
    let of_second = Flags {
        mine: &two,
        theirs: &one,
    };
    let met = thread::join(
        rt,
        || reads_beside(cells, moves, &mut first, of_first, rt),
        || reads_beside(cells, moves, &mut second, of_second, rt),
    );
    first.give_up();
    second.give_up();
    met
}

/// The same with the last tickets of this board, which read region 3.
fn read_by_last_tickets<R: Threads + Wait + Sync>(
    cells: &Cells,
    moves: &GivenMoves,
    board: &Board,
    mut pass: Pass,
    rt: &R,
) -> Option<(bool, bool)>
    requires cells { region_count cells.now ≡ 4 }
    requires moves { moves_of board.now ≡ moves.now }
    requires regions { table_regions moves.now ≡ 4 }
    requires pass { board_of pass ≡ identity board.now }
{
    let (first, second) = last_tickets(board, moves, &mut pass)?;
    Some(read_by_two(cells, moves, first, second, rt))
}

/// Whether two threads see each other's source of region 3 of these cells.
fn met_in_region_3<R: Threads + Wait + Sync>(
    cells: &Cells,
    alloc: Global,
    rt: &R,
) -> Result<(bool, bool), Fail>
    requires { region_count cells.now ≡ 4 }
{
    let (moves, board, pass) = board_of_four(alloc, PAIRS.as_slice())?;
    match read_by_last_tickets(cells, &moves, &board, pass, rt) {
        Some(met) => Ok(met),
        None => Err(Fail::from("not claimed")),
    }
}

/// The same for the base heap.
fn met_in_base<R: Threads + Wait + Sync>(alloc: Global, rt: &R) -> Result<(bool, bool), Fail> {
    let (cells, _plan) = base_cells(alloc, BASE_LIVE.as_slice(), rt)?;
    met_in_region_3(&cells, alloc, rt)
}

#[test]
fn two_threads_read_one_region_at_the_same_time(rt: HostRuntime) -> Result<(), Fail> {
    let mut met = met_in_base(rt.alloc(), &rt)?;
    // If memory is short, the second thread may not have started.
    if met != (true, true) {
        met = met_in_base(rt.alloc(), &rt)?;
    }
    equal(&rt, met, (true, true));
    Ok(())
}
