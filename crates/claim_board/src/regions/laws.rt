//! Theorems about passes of a board that keeps regions. The functions do nothing; call one where a proof needs its contract.
ghost use Rattle.std.specs.Prelude.{◌≡◌, ℕ, ◌<◌, IsTrue, None};
ghost use Rattle.scheduler.specs.declared.event.Event.{Event};
ghost use Rattle.scheduler.specs.declared.event.Event.TheVariants.{Claim};
ghost use Rattle.scheduler.specs.declared.reply.Reply.{Reply};
ghost use Rattle.scheduler.specs.declared.reply.Reply.TheVariants.{Yes};
ghost use Rattle.scheduler.specs.MoveTable.{MoveTable, IsMoveTable, to_fill};
ghost use Rattle.claim_board.specs.declared.pass.Pass.{Pass};
ghost use Rattle.claim_board.specs.declared.regions.region_board.RegionBoard.{RegionBoard};
ghost use Rattle.claim_board.specs.declared.regions.region_ticket.RegionTicket.{RegionTicket};
ghost use Rattle.claim_board.specs.Boards.{AppendsTo, caller, held};
ghost use Rattle.claim_board.specs.Callers.{Gains, own};
ghost use Rattle.claim_board.specs.RegionBoards.{Holds};

use scheduler::lowest_claims_are_granted;

/// The caller that a pass shows gains each call that is appended to the pass, whichever the board.
pub fn calls_of_passes_are_gained()
    ensures { (m : MoveTable) (workers : ℕ) (old new : Pass) (event : Event) (reply : Reply) → AppendsTo m workers old new event reply → Gains (caller old) (caller new) event reply }
{}

/// The only worker of a board is granted the lowest region to be filled that it hasn't filled, unless it has claimed it. So one
/// that claims the regions in ascending order, and completes each before the next, is refused none.
pub fn lowest_claims_of_one_worker_are_granted()
    ensures { (m : MoveTable) (old new : Pass) (r : ℕ) (reply : Reply) → IsMoveTable m → AppendsTo m 1 old new (Claim r) reply → IsTrue (to_fill m r) → (own (caller old)).claimed r ≡ None
        → ((q : ℕ) → q < r → IsTrue (to_fill m q) → IsTrue ((own (caller old)).filled q)) → reply ≡ Yes }
{
    lowest_claims_are_granted();
}

/// What a pass holds for a ticket depends on nothing but the slots that it holds and on the ticket's region and sources. So
/// looks, polls, and the ticket's right leave it.
pub fn other_calls_leave_what_is_held()
    ensures { (b : RegionBoard) (t u : RegionTicket) (old new : Pass) → Holds b t old → held new ≡ held old → u.ticket.region ≡ t.ticket.region → u.ticket.next ≡ t.ticket.next → u.at ≡ t.at → Holds b u new }
{}
