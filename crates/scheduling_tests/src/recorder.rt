//! The calls that a recorder writes down: the base heap by one worker, refused claims, calls that are missing, and refused
//! memory. A call that isn't written down is made all the same.
ghost use Rattle.std.specs.Prelude.{◌≡◌, ℕ, ◌<◌, ◌≤◌, [], length, replicate, IfOk, OnOk};
ghost use Rattle.std.specs.Box.{box_allocator};
ghost use Rattle.scheduler.specs.MoveTable.{region_count};
ghost use Rattle.claim_board.specs.Boards.{board_of, caller, held, AllOf, AllBare};
ghost use Rattle.claim_board.specs.RegionBoards.{moves as moves_of, identity, original_words, moved_words, spot, Holds};
ghost use Rattle.claim_board.specs.Tickets.{IsTicketOf};

use crate::boards::{BASE_FILLED, BASE_PAIRS};
use crate::checks::{equal, equal_items, expect_memory_fault, holds};
use crate::cleared_boards::{cleared_board_of, first_words, put_seat, take_seat};
use crate::replays::RECORDED;
use crate::tables::try_table;
use box_row::InRow;
use claim_board::{Desk, Drained, HasBoard, Pass, Recorder, RegionBoard, RegionTicket, Seat};
use history::write_schedule;
use raw_region::Region;
use scheduler::{Book, CallFault, GivenMoves, Reply};
use std::alloc::{AllocError, Global};
use std::process::Abort;
use std::sync::Wait;
use std::test::Fail;

/// A recorder of a board of four regions, of which each fill makes all words 0.
#[derive(Drop)]
struct Setting {
    recorder: Recorder,
    ghost four: { region_count (moves_of recorder.board) ≡ 4 },
    ghost zero: { (r : ℕ) → r < 4 → moved_words recorder.board r ≡ replicate (length (original_words recorder.board r)) 0 },
}

/// The moves of the base heap.
fn base_moves(alloc: Global) -> Result<GivenMoves, CallFault>
    ensures { IfOk result (λ moves. region_count moves ≡ 4) }
{
    let fill = Vec::from_slice(alloc, &BASE_FILLED)?;
    let pairs = Vec::from_slice(alloc, &BASE_PAIRS)?;
    GivenMoves::new(fill, pairs).ok_or(CallFault::Illegal)
}

/// A book of those moves.
fn base_book(alloc: Global, workers: u32) -> Result<Book, CallFault>
    requires { (1 ≤ workers) × (workers ≤ 64) }
{
    Ok(Book::new(alloc, &base_moves(alloc)?, workers)?)
}

/// Makes a board of the base heap and this number of workers, and a recorder that writes its calls into the book.
fn start(alloc: Global, workers: u32, book: Book) -> Result<(Setting, Vec<Pass>), CallFault>
    requires { (1 ≤ workers) × (workers ≤ 64) }
    ensures { IfOk result (λ made. AllOf (identity made.0.recorder.board) made.1.items × AllBare made.1.items) }
{
    let moves = base_moves(alloc)?;
    let (board, passes) = cleared_board_of(alloc, &moves, workers)?;
    let recorder = Recorder::new(board, book);
    Ok((Setting { recorder }, passes))
}

/// The words that a region takes from itself, and those that it takes from each other source.
type Copies<'a> = (u32, &'a [u32]);

/// Drains the next source of a ticket, if there is one.
fn drain_next<W: Wait>(
    setting: &Setting,
    seat: &mut Seat,
    ticket: &mut RegionTicket,
    wait: &W,
) -> Option<Drained>
    requires board { board_of seat.old.pass ≡ identity setting.now.recorder.board }
    requires ticket { IsTicketOf (moves_of setting.now.recorder.board) (caller seat.old.pass) ticket.old.ticket }
    requires holds { Holds setting.now.recorder.board ticket.old seat.old.pass }
    ensures board { board_of seat.new.pass ≡ identity setting.now.recorder.board }
    ensures ticket { IsTicketOf (moves_of setting.now.recorder.board) (caller seat.new.pass) ticket.new.ticket }
    ensures region { ticket.new.ticket.region ≡ ticket.old.ticket.region }
    ensures holds { Holds setting.now.recorder.board ticket.new seat.new.pass }
{
    let board = setting.recorder.board();
    let (opening, share) = board.open(&mut seat.pass, ticket, board.moves())?;
    let read = (opening.close(), share);
    Some(setting.recorder.drain(seat, ticket, read, wait))
}

/// Notes the words of the region itself, and then for each other source notes its words and drains it. Returns whether each
/// drain was the last of its source.
fn copy_all<W: Wait>(
    setting: &Setting,
    seat: &mut Seat,
    ticket: &mut RegionTicket,
    copies: Copies<'_>,
    wait: &W,
) -> bool
    requires board { board_of seat.old.pass ≡ identity setting.now.recorder.board }
    requires ticket { IsTicketOf (moves_of setting.now.recorder.board) (caller seat.old.pass) ticket.old.ticket }
    requires holds { Holds setting.now.recorder.board ticket.old seat.old.pass }
    ensures board { board_of seat.new.pass ≡ identity setting.now.recorder.board }
    ensures ticket { IsTicketOf (moves_of setting.now.recorder.board) (caller seat.new.pass) ticket.new.ticket }
    ensures region { ticket.new.ticket.region ≡ ticket.old.ticket.region }
    ensures holds { Holds setting.now.recorder.board ticket.new seat.new.pass }
{
    let (own, others) = copies;
    let mut are_last = true;
    setting.recorder.copied(seat, ticket, own, wait);
    for &words in others {
        setting.recorder.copied(seat, ticket, words, wait);
        are_last &= drain_next(setting, seat, ticket, wait) == Some(Drained::Last);
    }
    are_last
}

/// Fills the region of a ticket that has no sources left. Returns whether all regions are settled then.
fn end<W: Wait>(
    setting: &Setting,
    seat: &mut Seat,
    granted: (RegionTicket, Box<Region, InRow>),
    wait: &W,
) -> Result<bool, CallFault>
    requires board { board_of seat.old.pass ≡ identity setting.now.recorder.board }
    requires region { granted.0.ticket.region < 4 }
    requires ticket { IsTicketOf (moves_of setting.now.recorder.board) (caller seat.old.pass) granted.0.ticket }
    requires holds { Holds setting.now.recorder.board granted.0 seat.old.pass }
    requires words { granted.1.value ≡ original_words setting.now.recorder.board granted.0.ticket.region }
    requires place { box_allocator granted.1 ≡ spot setting.now.recorder.board granted.0.ticket.region }
    ensures board { board_of seat.new.pass ≡ identity setting.now.recorder.board }
    ensures bare { OnOk result (held seat.new.pass ≡ []) }
{
    let recorder = &setting.recorder;
    let (mut ticket, mut region) = granted;
    if ticket.left() > 0 {
        ticket.give_up();
        return Err(CallFault::Illegal);
    }
    let Some(right) = ticket.right() else {
        ticket.give_up();
        return Err(CallFault::Illegal);
    };
    region.clear();
    let done = recorder.complete(seat, ticket, (right.written(), region), wait);
    Ok(recorder.settle(seat, done, wait))
}

/// Claims a region, copies its words, completes and settles it. Returns whether each drain was the last of its source, and
/// whether all regions are settled then.
fn fill<W: Wait>(
    setting: &Setting,
    seat: &mut Seat,
    region: u32,
    copies: Copies<'_>,
    wait: &W,
) -> Result<(bool, bool), CallFault>
    requires region { region < 4 }
    requires board { board_of seat.old.pass ≡ identity setting.now.recorder.board }
    requires bare { held seat.old.pass ≡ [] }
    ensures board { board_of seat.new.pass ≡ identity setting.now.recorder.board }
    ensures bare { OnOk result (held seat.new.pass ≡ []) }
{
    let Some((mut ticket, words)) = setting.recorder.claim(seat, region, wait) else {
        return Err(CallFault::Illegal);
    };
    let are_last = copy_all(setting, seat, &mut ticket, copies, wait);
    Ok((are_last, end(setting, seat, (ticket, words), wait)?))
}

/// Fills the base heap by one worker. Returns the result of each fill.
fn fill_base<W: Wait>(
    setting: &Setting,
    seat: &mut Seat,
    wait: &W,
) -> Result<[(bool, bool); 3], CallFault>
    requires board { board_of seat.old.pass ≡ identity setting.now.recorder.board }
    requires bare { held seat.old.pass ≡ [] }
    ensures board { board_of seat.new.pass ≡ identity setting.now.recorder.board }
    ensures bare { OnOk result (held seat.new.pass ≡ []) }
{
    let first = fill(setting, seat, 0, (6, &[2]), wait)?;
    let second = fill(setting, seat, 1, (1, &[4, 3]), wait)?;
    let third = fill(setting, seat, 2, (0, &[3]), wait)?;
    Ok([first, second, third])
}

/// What is left of a recorder.
#[derive(Drop)]
struct Ended {
    missing: Option<CallFault>,
    /// The text of the recorded schedule.
    text: Vec<u8>,
    /// The first word of each region, if the board finished.
    words: Option<Vec<u64>>,
}

/// The first word of each region, if the board finishes with these passes.
fn finish(
    alloc: Global,
    board: RegionBoard,
    passes: Vec<Pass>,
) -> Result<Option<Vec<u64>>, AllocError>
    requires { AllOf (identity board) passes.items × AllBare passes.items }
{
    let Some((_finished, regions)) = board.finish(passes) else {
        return Ok(None);
    };
    let words = first_words(alloc, regions.as_slice())?;
    Ok(Some(words))
}

/// The end of a recorder and of these passes.
fn end_of(alloc: Global, setting: Setting, passes: Vec<Pass>) -> Result<Ended, AllocError>
    requires { AllOf (identity setting.recorder.board) passes.items × AllBare passes.items }
{
    let Setting { recorder } = setting;
    let (board, schedule, missing) = recorder.into_parts();
    let words = finish(alloc, board, passes)?;
    let text = write_schedule(alloc, &schedule)?;
    Ok(Ended {
        missing,
        text,
        words,
    })
}

/// What a recording of the base heap by one worker replied and left.
#[derive(Drop)]
struct Recording {
    answers: [(bool, bool); 3],
    ended: Ended,
}

/// Fills the base heap by one worker, and writes the calls into this book.
fn record_base<W: Wait>(alloc: Global, book: Book, wait: &W) -> Result<Recording, CallFault> {
    let (setting, mut passes) = start(alloc, 1, book)?;
    let board = setting.recorder.board();
    let mut seat = take_seat(board, &mut passes, 0).ok_or(CallFault::Illegal)?;
    let answers = fill_base(&setting, &mut seat, wait)?;
    put_seat(board, &mut passes, seat)?;
    let ended = end_of(alloc, setting, passes)?;
    Ok(Recording { answers, ended })
}

/// Whether all regions to be filled are, by the replies to the calls and by their words.
fn is_filled(recording: &Recording) -> bool {
    let is_answered = recording.answers == [(true, false), (false, false), (true, true)];
    let words = recording.ended.words.as_ref().map(|words| words.as_slice());
    is_answered && words == Some([0, 0, 0, 4].as_slice())
}

/// Fails the test if another call is the first that is missing, or if the schedule's text differs.
fn check_record<R: Abort>(
    rt: &R,
    alloc: Global,
    setting: Setting,
    missing: Option<CallFault>,
    lines: &str,
) -> Result<(), AllocError> {
    let Setting { recorder } = setting;
    let (_board, schedule, found) = recorder.into_parts();
    let text = write_schedule(alloc, &schedule)?;
    equal(rt, found, missing);
    equal_items(rt, text.as_slice(), lines.as_bytes());
    Ok(())
}

/// Gives up what a claim granted, and returns whether it was granted.
fn is_granted(granted: Option<(RegionTicket, Box<Region, InRow>)>) -> bool {
    match granted {
        Some((ticket, _region)) => {
            ticket.give_up();
            true
        }
        None => false,
    }
}

/// Fills region 0 by worker 1, and lets worker 0 claim it. Returns the results of the fill, and whether the claim is granted.
fn fill_and_claim<W: Wait>(
    setting: &Setting,
    passes: &mut Vec<Pass>,
    wait: &W,
) -> Result<((bool, bool), bool), CallFault>
    requires { AllOf (identity setting.now.recorder.board) passes.old.items × AllBare passes.old.items }
{
    let recorder = &setting.recorder;
    let mut one = take_seat(recorder.board(), passes, 1).ok_or(CallFault::Illegal)?;
    let mut zero = take_seat(recorder.board(), passes, 0).ok_or(CallFault::Illegal)?;
    let answer = fill(setting, &mut one, 0, (6, &[2]), wait)?;
    Ok((answer, is_granted(recorder.claim(&mut zero, 0, wait))))
}

#[test]
fn each_call_is_recorded_for_the_worker_of_its_seat(rt: HostRuntime) -> Result<(), Fail> {
    let (setting, mut passes) = start(rt.alloc(), 2, base_book(rt.alloc(), 2)?)?;
    let found = fill_and_claim(&setting, &mut passes, &rt)?;
    equal(&rt, found, ((true, false), false));
    let lines = "schedule 1 2\n1 claim 0 yes\n1 copy 0 6 ok\n1 copy 0 2 ok\n1 drain 0 1 last\n\
                 1 complete 0 ok\n1 settle 0 more\n0 claim 0 no\n";
    Ok(check_record(&rt, rt.alloc(), setting, None, lines)?)
}

/// Claims regions 1 and 0 by the worker of the seat, if the first claim is refused. Returns whether each is granted.
fn claim_two<W: Wait>(setting: &Setting, seat: &mut Seat, wait: &W) -> (bool, bool)
    requires board { board_of seat.old.pass ≡ identity setting.now.recorder.board }
    requires bare { held seat.old.pass ≡ [] }
{
    let recorder = &setting.recorder;
    let Some((ticket, _region)) = recorder.claim(seat, 1, wait) else {
        return (false, is_granted(recorder.claim(seat, 0, wait)));
    };
    ticket.give_up();
    (true, false)
}

/// The status of regions 0 and 3 for the worker of the seat, and the reply to a poll.
fn look_at_two(setting: &Setting, seat: &mut Seat) -> ([Reply; 2], bool)
    requires { board_of seat.old.pass ≡ identity setting.now.recorder.board }
{
    let board = setting.recorder.board();
    let near = board.look(&mut seat.pass, 0);
    let far = board.look(&mut seat.pass, 3);
    ([near, far], board.poll(&mut seat.pass))
}

/// Makes these claims by worker 1, and then these looks by worker 0.
fn claim_and_look<W: Wait>(
    setting: &Setting,
    passes: &mut Vec<Pass>,
    wait: &W,
) -> Result<((bool, bool), ([Reply; 2], bool)), CallFault>
    requires { AllOf (identity setting.now.recorder.board) passes.old.items × AllBare passes.old.items }
{
    let board = setting.recorder.board();
    let mut one = take_seat(board, passes, 1).ok_or(CallFault::Illegal)?;
    let mut zero = take_seat(board, passes, 0).ok_or(CallFault::Illegal)?;
    let granted = claim_two(setting, &mut one, wait);
    Ok((granted, look_at_two(setting, &mut zero)))
}

#[test]
fn refused_claims_are_recorded_and_looks_and_polls_are_not(rt: HostRuntime) -> Result<(), Fail> {
    let (setting, mut passes) = start(rt.alloc(), 2, base_book(rt.alloc(), 2)?)?;
    let found = claim_and_look(&setting, &mut passes, &rt)?;
    let looks = [Reply::Claimed, Reply::Outside(2)];
    equal(&rt, found, ((false, true), (looks, false)));
    let lines = "schedule 1 2\n1 claim 1 no\n1 claim 0 yes\n";
    Ok(check_record(&rt, rt.alloc(), setting, None, lines)?)
}

/// Fills region 0 by worker 0, but first lets worker 1 note words of it. Returns the results of the fill.
fn fill_with_a_wrong_note<W: Wait>(
    setting: &Setting,
    passes: &mut Vec<Pass>,
    wait: &W,
) -> Result<(bool, bool), CallFault>
    requires { AllOf (identity setting.now.recorder.board) passes.old.items × AllBare passes.old.items }
{
    let recorder = &setting.recorder;
    let one = take_seat(recorder.board(), passes, 1).ok_or(CallFault::Illegal)?;
    let mut zero = take_seat(recorder.board(), passes, 0).ok_or(CallFault::Illegal)?;
    let Some((mut ticket, words)) = recorder.claim(&mut zero, 0, wait) else {
        return Err(CallFault::Illegal);
    };
    recorder.copied(&one, &ticket, 8, wait);
    let are_last = copy_all(setting, &mut zero, &mut ticket, (6, &[2]), wait);
    let all = end(setting, &mut zero, (ticket, words), wait)?;
    Ok((are_last, all))
}

#[test]
fn a_copy_by_another_worker_ends_the_list(rt: HostRuntime) -> Result<(), Fail> {
    let (setting, mut passes) = start(rt.alloc(), 2, base_book(rt.alloc(), 2)?)?;
    let found = fill_with_a_wrong_note(&setting, &mut passes, &rt)?;
    equal(&rt, found, (true, false));
    let lines = "schedule 1 2\n0 claim 0 yes\n";
    let missing = Some(CallFault::Illegal);
    Ok(check_record(&rt, rt.alloc(), setting, missing, lines)?)
}

#[test]
fn a_worker_that_the_book_lacks_ends_the_list(rt: HostRuntime) -> Result<(), Fail> {
    let (setting, mut passes) = start(rt.alloc(), 2, base_book(rt.alloc(), 1)?)?;
    let found = fill_and_claim(&setting, &mut passes, &rt)?;
    equal(&rt, found, ((true, false), false));
    let missing = Some(CallFault::Illegal);
    Ok(check_record(&rt, rt.alloc(), setting, missing, "schedule 1 1\n")?)
}

/// A book of one worker and of the base heap's moves without those of region 0.
fn other_book(alloc: Global) -> Result<Book, CallFault> {
    let fill = [false, true, true, false];
    let table = try_table(alloc, &fill, &[(1, 2), (1, 3), (2, 3)])?;
    Ok(Book::new(alloc, &table.ok_or(CallFault::Illegal)?, 1)?)
}

#[test]
fn a_book_of_other_moves_lacks_calls_and_the_board_finishes(rt: HostRuntime) -> Result<(), Fail> {
    let recording = record_base(rt.alloc(), other_book(rt.alloc())?, &rt)?;
    holds(&rt, is_filled(&recording));
    let Recording { answers: _, ended } = recording;
    equal(&rt, ended.missing, Some(CallFault::Illegal));
    equal_items(&rt, ended.text.as_slice(), b"schedule 1 1\n0 claim 0 no\n");
    Ok(())
}

/// Whether the board finishes and the schedule's text is right: all of it, or, if memory for a line ran out, the lines
/// before.
fn comes_through<W: Wait>(alloc: Global, wait: &W) -> Result<bool, CallFault> {
    let recording = record_base(alloc, base_book(alloc, 1)?, wait)?;
    let is_filled = is_filled(&recording);
    let text = recording.ended.text.as_slice();
    match recording.ended.missing {
        None => Ok(is_filled && text == RECORDED.as_bytes()),
        Some(CallFault::Memory) if is_filled && is_begun(text) => Err(CallFault::Memory),
        Some(_) => Ok(false),
    }
}

/// Whether these are some of the first lines of the schedule, but not all.
fn is_begun(text: &[u8]) -> bool {
    RECORDED.as_bytes().starts_with(text) && text.ends_with(b"\n") && text.len() < RECORDED.len()
}

/// The script tests/build/test_crate_allocations.sh runs this with each allocation refused in turn.
#[test]
fn refused_memory_is_reported(rt: HostRuntime) {
    let first = comes_through(rt.alloc(), &rt);
    let second = comes_through(rt.alloc(), &rt);
    expect_memory_fault(&rt, [first, second], CallFault::Memory);
}
