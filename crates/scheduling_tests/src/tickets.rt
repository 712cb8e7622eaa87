//! A worker with one ticket, and with several at once: each reply, and the state of the board after it.
ghost use Rattle.std.specs.Prelude.{◌≡◌, ℕ, ◌<◌, IfSome, OnOk};
ghost use Rattle.scheduler.specs.MoveTable.{region_count};
ghost use Rattle.claim_board.specs.Boards.{moves as moves_of, identity, board_of, caller, AllOf};
ghost use Rattle.claim_board.specs.Tickets.{IsTicketOf, IsDoneOf};
ghost use Rattle.claim_board.specs.Others.{LeavesOthers};

use crate::boards::{BASE_FILLED, BASE_PAIRS, board_with, is_claimed, put, take_two};
use crate::checks::{equal_items, holds};
use claim_board::{Board, Done, Drained, Pass, Ticket, appended_calls_leave_others};
use scheduler::Reply::{All, Claimed, Filled, Last, More, No, NotLast, Open, Outside, Yes};
use scheduler::{Moves, Reply};
use std::alloc::{AllocError, Global};
use std::process::Abort;
use std::test::Fail;

/// Each reply in turn, followed by another worker's looks at each region and its poll.
#[derive(Drop)]
struct Notes {
    watch: Pass,
    replies: Vec<Reply>,
    /// For each ticket, the number of sources left before its first drain.
    left: Vec<usize>,
}

fn no_notes(alloc: Global, watch: Pass) -> Notes
    ensures { result.watch ≡ watch }
{
    Notes {
        watch,
        replies: Vec::new(alloc),
        left: Vec::new(alloc),
    }
}

/// The result of a settling or a poll as a reply.
fn all_or_more(all: bool) -> Reply {
    if all { All } else { More }
}

/// Notes a reply and the state of the board after it. Drops notes if memory runs out.
fn note(board: &Board, notes: &mut Notes, reply: Reply)
    requires { board_of notes.old.watch ≡ identity board.now }
    ensures { board_of notes.new.watch ≡ identity board.now }
{
    let _ = notes.replies.push(reply);
    for region in 0..board.moves().regions() {
        let status = board.look(&mut notes.watch, region);
        let _ = notes.replies.push(status);
    }
    let all = board.poll(&mut notes.watch);
    let _ = notes.replies.push(all_or_more(all));
}

fn claims(board: &Board, pass: &mut Pass, region: u32, notes: &mut Notes) -> Option<Ticket>
    requires { (board_of pass.old ≡ identity board.now) × (board_of notes.old.watch ≡ identity board.now) × (region < region_count (moves_of board.now)) }
    ensures board { board_of pass.new ≡ identity board.now }
    ensures watch { board_of notes.new.watch ≡ identity board.now }
    ensures ticket { IfSome result (λ t. (t.region ≡ region) × IsTicketOf (moves_of board.now) (caller pass.new) t) }
    ensures others { LeavesOthers (moves_of board.now) region (caller pass.old) (caller pass.new) }
{
    appended_calls_leave_others();
    let ticket = board.claim(pass, region);
    let reply = if ticket.is_some() { Yes } else { No };
    note(board, notes, reply);
    ticket
}

fn looks(board: &Board, pass: &mut Pass, region: u32, notes: &mut Notes)
    requires { (board_of pass.old ≡ identity board.now) × (board_of notes.old.watch ≡ identity board.now) × (region < region_count (moves_of board.now)) }
    ensures board { board_of pass.new ≡ identity board.now }
    ensures watch { board_of notes.new.watch ≡ identity board.now }
    ensures others { (r : ℕ) → LeavesOthers (moves_of board.now) r (caller pass.old) (caller pass.new) }
{
    appended_calls_leave_others();
    let reply = board.look(pass, region);
    note(board, notes, reply);
}

/// The result of a drain as a reply.
fn reply_of(answer: Drained) -> Reply {
    match answer {
        Drained::Last => Last,
        Drained::NotLast => NotLast,
    }
}

/// Drains all sources of a ticket.
fn drains(board: &Board, pass: &mut Pass, ticket: &mut Ticket, notes: &mut Notes)
    requires { (board_of pass.old ≡ identity board.now) × (board_of notes.old.watch ≡ identity board.now) × IsTicketOf (moves_of board.now) (caller pass.old) ticket.old }
    ensures board { board_of pass.new ≡ identity board.now }
    ensures watch { board_of notes.new.watch ≡ identity board.now }
    ensures ticket { (ticket.new.region ≡ ticket.old.region) × IsTicketOf (moves_of board.now) (caller pass.new) ticket.new }
    ensures others { LeavesOthers (moves_of board.now) ticket.old.region (caller pass.old) (caller pass.new) }
{
    appended_calls_leave_others();
    let moves = board.moves();
    let _ = notes.left.push(ticket.left());
    while let Some(opening) = ticket.open(moves) {
        let answer = board.drain(pass, ticket, opening.close());
        note(board, notes, reply_of(answer));
    }
}

/// Completes the region of a ticket whose sources are all drained.
fn completes<R: Abort>(
    rt: &R,
    board: &Board,
    pass: &mut Pass,
    mut ticket: Ticket,
    notes: &mut Notes,
) -> Done
    requires { (board_of pass.old ≡ identity board.now) × (board_of notes.old.watch ≡ identity board.now) × IsTicketOf (moves_of board.now) (caller pass.old) ticket }
    ensures board { board_of pass.new ≡ identity board.now }
    ensures watch { board_of notes.new.watch ≡ identity board.now }
    ensures done { (result.region ≡ ticket.region) × IsDoneOf (caller pass.new) result }
    ensures others { LeavesOthers (moves_of board.now) ticket.region (caller pass.old) (caller pass.new) }
{
    appended_calls_leave_others();
    holds(rt, ticket.left() == 0);
    let right = ticket.right().expect(rt, "the right is given once");
    let done = board.complete(pass, ticket, right.written());
    note(board, notes, Reply::Done);
    done
}

fn settles(board: &Board, pass: &mut Pass, done: Done, notes: &mut Notes)
    requires { (board_of pass.old ≡ identity board.now) × (board_of notes.old.watch ≡ identity board.now) × IsDoneOf (caller pass.old) done }
    ensures board { board_of pass.new ≡ identity board.now }
    ensures watch { board_of notes.new.watch ≡ identity board.now }
    ensures others { LeavesOthers (moves_of board.now) done.region (caller pass.old) (caller pass.new) }
{
    appended_calls_leave_others();
    let reply = all_or_more(board.settle(pass, done));
    note(board, notes, reply);
}

fn polls(board: &Board, pass: &mut Pass, notes: &mut Notes)
    requires { (board_of pass.old ≡ identity board.now) × (board_of notes.old.watch ≡ identity board.now) }
    ensures board { board_of pass.new ≡ identity board.now }
    ensures watch { board_of notes.new.watch ≡ identity board.now }
    ensures others { (r : ℕ) → LeavesOthers (moves_of board.now) r (caller pass.old) (caller pass.new) }
{
    appended_calls_leave_others();
    let reply = all_or_more(board.poll(pass));
    note(board, notes, reply);
}

/// The tickets of regions 0, 1 and 2.
struct Held {
    zero: Ticket,
    one: Ticket,
    two: Ticket,
}

/// Claims and drains regions 0, 1 and 2 of the base heap, with looks and refused claims in between.
fn holds_base<R: Abort>(rt: &R, board: &Board, pass: &mut Pass, notes: &mut Notes) -> Held
    requires board { (board_of pass.old ≡ identity board.now) × (board_of notes.old.watch ≡ identity board.now) }
    requires regions { region_count (moves_of board.now) ≡ 4 }
    ensures board { board_of pass.new ≡ identity board.now }
    ensures watch { board_of notes.new.watch ≡ identity board.now }
    ensures regions { (result.zero.region ≡ 0) × (result.one.region ≡ 1) × (result.two.region ≡ 2) }
    ensures zero { IsTicketOf (moves_of board.now) (caller pass.new) result.zero }
    ensures one { IsTicketOf (moves_of board.now) (caller pass.new) result.one }
    ensures two { IsTicketOf (moves_of board.now) (caller pass.new) result.two }
{
    let mut zero = claims(board, pass, 0, notes).expect(rt, "region 0 is free");
    let refused = is_claimed(claims(board, pass, 1, notes));
    drains(board, pass, &mut zero, notes);
    let mut one = claims(board, pass, 1, notes).expect(rt, "region 1 is free");
    looks(board, pass, 0, notes);
    drains(board, pass, &mut one, notes);
    let mut two = claims(board, pass, 2, notes).expect(rt, "region 2 is free");
    drains(board, pass, &mut two, notes);
    looks(board, pass, 3, notes);
    let outside = is_claimed(claims(board, pass, 3, notes));
    holds(rt, !refused && !outside);
    Held { zero, one, two }
}

/// Claims and drains the regions of a board of three, after a refused claim of region 1.
fn holds_three<R: Abort>(rt: &R, board: &Board, pass: &mut Pass, notes: &mut Notes) -> Held
    requires board { (board_of pass.old ≡ identity board.now) × (board_of notes.old.watch ≡ identity board.now) }
    requires regions { region_count (moves_of board.now) ≡ 3 }
    ensures board { board_of pass.new ≡ identity board.now }
    ensures watch { board_of notes.new.watch ≡ identity board.now }
    ensures regions { (result.zero.region ≡ 0) × (result.one.region ≡ 1) × (result.two.region ≡ 2) }
    ensures zero { IsTicketOf (moves_of board.now) (caller pass.new) result.zero }
    ensures one { IsTicketOf (moves_of board.now) (caller pass.new) result.one }
    ensures two { IsTicketOf (moves_of board.now) (caller pass.new) result.two }
{
    let refused = is_claimed(claims(board, pass, 1, notes));
    let mut zero = claims(board, pass, 0, notes).expect(rt, "region 0 is free");
    drains(board, pass, &mut zero, notes);
    let mut one = claims(board, pass, 1, notes).expect(rt, "region 1 is free");
    drains(board, pass, &mut one, notes);
    let mut two = claims(board, pass, 2, notes).expect(rt, "region 2 is free");
    drains(board, pass, &mut two, notes);
    holds(rt, !refused);
    Held { zero, one, two }
}

/// Completes regions 0, 1 and 2, and settles all but region 2.
fn ends<R: Abort>(rt: &R, board: &Board, pass: &mut Pass, held: Held, notes: &mut Notes) -> Done
    requires board { (board_of pass.old ≡ identity board.now) × (board_of notes.old.watch ≡ identity board.now) }
    requires regions { (held.zero.region ≡ 0) × (held.one.region ≡ 1) × (held.two.region ≡ 2) }
    requires zero { IsTicketOf (moves_of board.now) (caller pass.old) held.zero }
    requires one { IsTicketOf (moves_of board.now) (caller pass.old) held.one }
    requires two { IsTicketOf (moves_of board.now) (caller pass.old) held.two }
    ensures board { board_of pass.new ≡ identity board.now }
    ensures watch { board_of notes.new.watch ≡ identity board.now }
    ensures done { IsDoneOf (caller pass.new) result }
{
    let Held { zero, one, two } = held;
    let zero = completes(rt, board, pass, zero, notes);
    let one = completes(rt, board, pass, one, notes);
    let two = completes(rt, board, pass, two, notes);
    settles(board, pass, zero, notes);
    settles(board, pass, one, notes);
    polls(board, pass, notes);
    two
}

/// Claims a region and, if it is granted, drains its sources, completes and settles it.
fn fills<R: Abort>(rt: &R, board: &Board, pass: &mut Pass, region: u32, notes: &mut Notes)
    requires { (board_of pass.old ≡ identity board.now) × (board_of notes.old.watch ≡ identity board.now) × (region < region_count (moves_of board.now)) }
    ensures { (board_of pass.new ≡ identity board.now) × (board_of notes.new.watch ≡ identity board.now) }
{
    if let Some(mut ticket) = claims(board, pass, region, notes) {
        drains(board, pass, &mut ticket, notes);
        let done = completes(rt, board, pass, ticket, notes);
        settles(board, pass, done, notes);
    }
}

/// The order in which a worker fills a board.
#[derive(Clone, Copy)]
enum Order {
    /// The base heap's regions one after the other, with refused claims, looks and polls in between.
    OneByOne,
    /// The base heap's regions all at once.
    AtOnce,
    /// Like `AtOnce`, but region 2 is never settled.
    AllButTheLast,
    /// The regions of a board of three all at once.
    ThreeAtOnce,
}

fn one_by_one<R: Abort>(rt: &R, board: &Board, pass: &mut Pass, notes: &mut Notes)
    requires { (board_of pass.old ≡ identity board.now) × (board_of notes.old.watch ≡ identity board.now) }
    ensures { (board_of pass.new ≡ identity board.now) × (board_of notes.new.watch ≡ identity board.now) }
{
    holds(rt, board.moves().regions() == 4);
    polls(board, pass, notes);
    fills(rt, board, pass, 1, notes);
    looks(board, pass, 1, notes);
    looks(board, pass, 3, notes);
    fills(rt, board, pass, 0, notes);
    fills(rt, board, pass, 1, notes);
    polls(board, pass, notes);
    fills(rt, board, pass, 2, notes);
    polls(board, pass, notes);
    fills(rt, board, pass, 3, notes);
    looks(board, pass, 3, notes);
    looks(board, pass, 0, notes);
}

/// Claims and drains all regions, and then completes them. Region 2 is settled last, or never.
fn at_once<R: Abort>(rt: &R, board: &Board, pass: &mut Pass, notes: &mut Notes, settles_all: bool)
    requires { (board_of pass.old ≡ identity board.now) × (board_of notes.old.watch ≡ identity board.now) }
    ensures { (board_of pass.new ≡ identity board.now) × (board_of notes.new.watch ≡ identity board.now) }
{
    holds(rt, board.moves().regions() == 4);
    let held = holds_base(rt, board, pass, notes);
    let two = ends(rt, board, pass, held, notes);
    if settles_all {
        settles(board, pass, two, notes);
        polls(board, pass, notes);
    } else {
        two.give_up();
    }
}

fn three_at_once<R: Abort>(rt: &R, board: &Board, pass: &mut Pass, notes: &mut Notes)
    requires { (board_of pass.old ≡ identity board.now) × (board_of notes.old.watch ≡ identity board.now) }
    ensures { (board_of pass.new ≡ identity board.now) × (board_of notes.new.watch ≡ identity board.now) }
{
    holds(rt, board.moves().regions() == 3);
    let held = holds_three(rt, board, pass, notes);
    let two = ends(rt, board, pass, held, notes);
    settles(board, pass, two, notes);
    polls(board, pass, notes);
}

/// All noted replies, and the number of sources left of each ticket at first.
#[derive(Drop)]
struct Noted {
    replies: Vec<Reply>,
    left: Vec<usize>,
}

/// Puts both passes back.
fn give_back(
    board: &Board,
    passes: &mut Vec<Pass>,
    pass: Pass,
    notes: Notes,
) -> Result<Noted, AllocError>
    requires passes { AllOf (identity board.now) passes.old.items }
    requires boards { (board_of pass ≡ identity board.now) × (board_of notes.watch ≡ identity board.now) }
    ensures { OnOk result (AllOf (identity board.now) passes.new.items) }
{
    let Notes {
        watch,
        replies,
        left,
    } = notes;
    put(board, passes, pass)?;
    put(board, passes, watch)?;
    Ok(Noted { replies, left })
}

/// Fills the board in this order.
fn fill_all<R: Abort>(rt: &R, board: &Board, pass: &mut Pass, notes: &mut Notes, order: Order)
    requires { (board_of pass.old ≡ identity board.now) × (board_of notes.old.watch ≡ identity board.now) }
    ensures { (board_of pass.new ≡ identity board.now) × (board_of notes.new.watch ≡ identity board.now) }
{
    match order {
        Order::OneByOne => one_by_one(rt, board, pass, notes),
        Order::AtOnce => at_once(rt, board, pass, notes, true),
        Order::AllButTheLast => at_once(rt, board, pass, notes, false),
        Order::ThreeAtOnce => three_at_once(rt, board, pass, notes),
    }
}

/// Lets worker 0 fill the board in this order, watched by worker 1.
fn fill_and_watch<R: Abort>(
    rt: &R,
    alloc: Global,
    board: &Board,
    passes: &mut Vec<Pass>,
    order: Order,
) -> Result<Noted, Fail>
    requires { AllOf (identity board.now) passes.old.items }
    ensures { OnOk result (AllOf (identity board.now) passes.new.items) }
{
    let (mut pass, watch) = take_two(board, passes)?;
    let mut notes = no_notes(alloc, watch);
    fill_all(rt, board, &mut pass, &mut notes, order);
    Ok(give_back(board, passes, pass, notes)?)
}

/// The replies of this order on its board, and whether the board finishes.
fn outcome<R: Abort>(rt: &R, alloc: Global, order: Order) -> Result<(Noted, bool), Fail> {
    let (board, mut passes) = match order {
        Order::ThreeAtOnce => board_with(alloc, &[true, true, true], &[(0, 1), (1, 2)], 2)?,
        _ => board_with(alloc, &BASE_FILLED, &BASE_PAIRS, 2)?,
    };
    let noted = fill_and_watch(rt, alloc, &board, &mut passes, order)?;
    Ok((noted, board.finish(passes).is_some()))
}

/// The replies of the base heap's board if its regions are filled one by one.
const ONE_BY_ONE: [[Reply; 6]; 22] = [
    [More, Open(0), Open(1), Open(1), Outside(2), More],
    [No, Open(0), Open(1), Open(1), Outside(2), More],
    [Open(1), Open(0), Open(1), Open(1), Outside(2), More],
    [Outside(2), Open(0), Open(1), Open(1), Outside(2), More],
    [Yes, Claimed, Open(1), Open(1), Outside(2), More],
    [Last, Claimed, Open(0), Open(1), Outside(2), More],
    [Reply::Done, Filled, Open(0), Open(1), Outside(2), More],
    [More, Filled, Open(0), Open(1), Outside(2), More],
    [Yes, Filled, Claimed, Open(1), Outside(2), More],
    [Last, Filled, Claimed, Open(0), Outside(2), More],
    [NotLast, Filled, Claimed, Open(0), Outside(1), More],
    [Reply::Done, Filled, Filled, Open(0), Outside(1), More],
    [More, Filled, Filled, Open(0), Outside(1), More],
    [More, Filled, Filled, Open(0), Outside(1), More],
    [Yes, Filled, Filled, Claimed, Outside(1), More],
    [Last, Filled, Filled, Claimed, Outside(0), More],
    [Reply::Done, Filled, Filled, Filled, Outside(0), More],
    [All, Filled, Filled, Filled, Outside(0), All],
    [All, Filled, Filled, Filled, Outside(0), All],
    [No, Filled, Filled, Filled, Outside(0), All],
    [Outside(0), Filled, Filled, Filled, Outside(0), All],
    [Filled, Filled, Filled, Filled, Outside(0), All],
];

/// The replies of the base heap's board if its regions are filled at once.
const AT_ONCE: [[Reply; 6]; 19] = [
    [Yes, Claimed, Open(1), Open(1), Outside(2), More],
    [No, Claimed, Open(1), Open(1), Outside(2), More],
    [Last, Claimed, Open(0), Open(1), Outside(2), More],
    [Yes, Claimed, Claimed, Open(1), Outside(2), More],
    [Claimed, Claimed, Claimed, Open(1), Outside(2), More],
    [Last, Claimed, Claimed, Open(0), Outside(2), More],
    [NotLast, Claimed, Claimed, Open(0), Outside(1), More],
    [Yes, Claimed, Claimed, Claimed, Outside(1), More],
    [Last, Claimed, Claimed, Claimed, Outside(0), More],
    [Outside(0), Claimed, Claimed, Claimed, Outside(0), More],
    [No, Claimed, Claimed, Claimed, Outside(0), More],
    [Reply::Done, Filled, Claimed, Claimed, Outside(0), More],
    [Reply::Done, Filled, Filled, Claimed, Outside(0), More],
    [Reply::Done, Filled, Filled, Filled, Outside(0), More],
    [More, Filled, Filled, Filled, Outside(0), More],
    [More, Filled, Filled, Filled, Outside(0), More],
    [More, Filled, Filled, Filled, Outside(0), More],
    [All, Filled, Filled, Filled, Outside(0), All],
    [All, Filled, Filled, Filled, Outside(0), All],
];

/// The replies of a board of three regions, each reading the next, if they are filled at once.
const THREE_AT_ONCE: [[Reply; 5]; 14] = [
    [No, Open(0), Open(1), Open(1), More],
    [Yes, Claimed, Open(1), Open(1), More],
    [Last, Claimed, Open(0), Open(1), More],
    [Yes, Claimed, Claimed, Open(1), More],
    [Last, Claimed, Claimed, Open(0), More],
    [Yes, Claimed, Claimed, Claimed, More],
    [Reply::Done, Filled, Claimed, Claimed, More],
    [Reply::Done, Filled, Filled, Claimed, More],
    [Reply::Done, Filled, Filled, Filled, More],
    [More, Filled, Filled, Filled, More],
    [More, Filled, Filled, Filled, More],
    [More, Filled, Filled, Filled, More],
    [All, Filled, Filled, Filled, All],
    [All, Filled, Filled, Filled, All],
];

#[test]
fn one_pass_fills_the_base_heap(rt: HostRuntime) -> Result<(), Fail> {
    let (noted, finishes) = outcome(&rt, rt.alloc(), Order::OneByOne)?;
    equal_items(&rt, noted.replies.as_slice(), ONE_BY_ONE.as_flattened());
    equal_items(&rt, noted.left.as_slice(), &[1, 2, 1]);
    holds(&rt, finishes);
    Ok(())
}

#[test]
fn three_tickets_at_once_fill_the_base_heap(rt: HostRuntime) -> Result<(), Fail> {
    let (noted, finishes) = outcome(&rt, rt.alloc(), Order::AtOnce)?;
    equal_items(&rt, noted.replies.as_slice(), AT_ONCE.as_flattened());
    equal_items(&rt, noted.left.as_slice(), &[1, 2, 1]);
    holds(&rt, finishes);
    Ok(())
}

#[test]
fn three_tickets_at_once_fill_three_regions(rt: HostRuntime) -> Result<(), Fail> {
    let (noted, finishes) = outcome(&rt, rt.alloc(), Order::ThreeAtOnce)?;
    equal_items(&rt, noted.replies.as_slice(), THREE_AT_ONCE.as_flattened());
    equal_items(&rt, noted.left.as_slice(), &[1, 1, 0]);
    holds(&rt, finishes);
    Ok(())
}

#[test]
fn a_board_with_region_2_unsettled_does_not_finish(rt: HostRuntime) -> Result<(), Fail> {
    let (_noted, finishes) = outcome(&rt, rt.alloc(), Order::AllButTheLast)?;
    holds(&rt, !finishes);
    Ok(())
}
