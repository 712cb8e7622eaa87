//! The sweep of one worker over the regions.
ghost use Rattle.std.specs.Prelude.{◌≡◌, ◌<◌, [], IfOk};
ghost use Rattle.scheduler.specs.MoveTable.{region_count};
ghost use Rattle.claim_board.specs.Boards.{moves as moves_of, identity, board_of, worker, mine, caller};
ghost use Rattle.claim_board.specs.Tickets.{IsUnused, IsTicketOf};
ghost use Rattle.board_sweep.specs.Tallies.{Adds, AreTallies};

use crate::tally::Tally;
use claim_board::{
    Board, Pass, Ticket, appended_calls_are_gained, one_more_source_is_drained,
    swept_tickets_have_none_left,
};
use scheduler::{Moves, moves_are_lawful};
use std::alloc::{AllocError, Global};

/// A worker after its sweep.
#[derive(Drop)]
pub struct Swept {
    pub pass: Pass,
    /// The worker's claims and completions of each region.
    pub tallies: Vec<Tally>,
}

/// Claims each region once, in turn, and fills those that are granted.
pub fn sweep<M: Moves>(
    alloc: Global,
    board: &Board,
    moves: &M,
    mut pass: Pass,
) -> Result<Swept, AllocError>
    requires board { board_of pass ≡ identity board.now }
    requires moves { M.table moves.now ≡ moves_of board.now }
    requires new { mine pass ≡ [] }
    ensures board { IfOk result (λ swept. board_of swept.pass ≡ identity board.now) }
    ensures worker { IfOk result (λ swept. worker swept.pass ≡ worker pass) }
    ensures tallies { IfOk result (λ swept.
        AreTallies (region_count (moves_of board.now)) (mine swept.pass) swept.tallies.items) }
{
    let mut tallies = Vec::new(alloc);
    for region in 0..moves.regions() {
        let tally = visit(board, moves, &mut pass, region);
        tallies.push(tally)?;
    }
    Ok(Swept { pass, tallies })
}

/// Claims a region, and fills it if it is granted.
fn visit<M: Moves>(board: &Board, moves: &M, pass: &mut Pass, region: u32) -> Tally
    requires board { board_of pass.old ≡ identity board.now }
    requires moves { M.table moves.now ≡ moves_of board.now }
    requires region { region < region_count (moves_of board.now) }
    ensures board { board_of pass.new ≡ board_of pass.old }
    ensures worker { worker pass.new ≡ worker pass.old }
    ensures tally { Adds region result (mine pass.old) (mine pass.new) }
{
    match board.claim(pass, region) {
        Some(ticket) => {
            fill(board, moves, pass, ticket);
            Tally {
                claims: 1,
                completions: 1,
            }
        }
        None => Tally {
            claims: 0,
            completions: 0,
        },
    }
}

/// Makes the calls of a fill after the claim: drains each source, completes the region and settles it.
fn fill<M: Moves>(board: &Board, moves: &M, pass: &mut Pass, mut ticket: Ticket)
    requires board { board_of pass.old ≡ identity board.now }
    requires moves { M.table moves.now ≡ moves_of board.now }
    requires unused { IsUnused ticket }
    requires ticket { IsTicketOf (moves_of board.now) (caller pass.old) ticket }
    ensures board { board_of pass.new ≡ board_of pass.old }
    ensures worker { worker pass.new ≡ worker pass.old }
    ensures tally { Adds ticket.region (record { claims = 0; completions = 1 }) (mine pass.old) (mine pass.new) }
{
    // These laws do nothing.
    swept_tickets_have_none_left();
    appended_calls_are_gained();
    one_more_source_is_drained();
    moves_are_lawful(moves);
    while let Some(opening) = ticket.open(moves) {
        board.drain(pass, &mut ticket, opening.close());
    }
    let right = ticket.right().unwrap();
    let done = board.complete(pass, ticket, right.written());
    board.settle(pass, done);
}
