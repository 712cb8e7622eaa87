//! Theorems about tickets and what is made of them, over several calls and of two workers. The functions do nothing;
//! call one where a proof needs its contract.
ghost use Rattle.std.specs.Prelude.{◌≡◌, ◌≢◌, ℕ, ◌+◌, ◌<◌, ◌≤◌, List, false};
ghost use Rattle.scheduler.specs.declared.event.Event.{Event};
ghost use Rattle.scheduler.specs.declared.event.Event.TheVariants.{Drain, Complete};
ghost use Rattle.scheduler.specs.declared.entry.Entry.{Entry};
ghost use Rattle.scheduler.specs.declared.reply.Reply.{Reply};
ghost use Rattle.scheduler.specs.MoveTable.{MoveTable, IsMoveTable, reads};
ghost use Rattle.scheduler.specs.State.{is_pending};
ghost use Rattle.scheduler.specs.History.{IsLegal, calls_by, state_of};
ghost use Rattle.claim_board.specs.declared.board.Board.{Board};
ghost use Rattle.claim_board.specs.declared.tokens.done.Done.{Done};
ghost use Rattle.claim_board.specs.declared.tokens.opening.Opening.{Opening};
ghost use Rattle.claim_board.specs.declared.tokens.right.Right.{Right};
ghost use Rattle.claim_board.specs.declared.pass.Pass.{Pass};
ghost use Rattle.claim_board.specs.declared.tokens.ticket.Ticket.{Ticket};
ghost use Rattle.claim_board.specs.Boards.{Appends, moves, caller};
ghost use Rattle.claim_board.specs.Callers.{Caller, Gains, own};
ghost use Rattle.claim_board.specs.Tickets.{IsTicketOf, IsRightOf, IsOpeningOf, IsDoneOf, IsSwept, Spares};
ghost use Rattle.claim_board.specs.Others.{LeavesOthers};

use scheduler::{how_counts_go_down, what_legal_histories_keep, what_own_calls_tell};

/// The caller that a pass shows gains each call that is appended to the pass.
pub fn appended_calls_are_gained()
    ensures { (board : Board) (old new : Pass) (event : Event) (reply : Reply) → Appends board old new event reply → Gains (caller old) (caller new) event reply }
{}

/// Calls for other regions, and claims, looks and polls, leave a ticket valid.
pub fn other_calls_leave_tickets()
    ensures { (m : MoveTable) (old new : Caller) (t : Ticket) (event : Event) (reply : Reply) → IsTicketOf m old t → Gains old new event reply → Spares t.region event → IsTicketOf m new t }
{}

/// Calls for other regions, and claims, looks and polls, leave a completion valid: it can still be settled.
pub fn other_calls_leave_completions()
    ensures { (old new : Caller) (d : Done) (event : Event) (reply : Reply) → IsDoneOf old d → Gains old new event reply → Spares d.region event → IsDoneOf new d }
{}

/// A right stays its caller's by each call of its pass but the completion of the region. So does an opening, by each call
/// but that completion and the drain of the pair.
pub fn other_calls_leave_openings()
    ensures rights { (board : Board) (old new : Pass) (x : Right) (event : Event) (reply : Reply) → IsRightOf (caller old) x → Appends board old new event reply
        → event ≢ Complete x.region → IsRightOf (caller new) x }
    ensures openings { (board : Board) (old new : Pass) (x : Opening) (event : Event) (reply : Reply) → IsOpeningOf (moves board) (caller old) x → Appends board old new event reply
        → event ≢ Complete x.destination → event ≢ Drain x.destination x.source → IsOpeningOf (moves board) (caller new) x }
{}

/// A call that is appended to a pass leaves the tickets and completions for all regions but one valid, if it spares each
/// region but that one.
pub fn appended_calls_leave_others()
    ensures { (board : Board) (region : ℕ) (old new : Pass) (event : Event) (reply : Reply) → Appends board old new event reply → ((q : ℕ) → q ≢ region → Spares q event)
        → LeavesOthers (moves board) region (caller old) (caller new) }
{}

/// If the calls of two workers are in one legal history, as after their passes have met, and each worker has a ticket,
/// then nothing is left to be copied from the region of one ticket to that of the other.
pub fn nothing_is_read_from_a_ticket()
    ensures { (m : MoveTable) (workers : ℕ) (log : List Entry) (one other : Caller) (t u : Ticket) → IsLegal m workers log → calls_by one.worker log ≡ one.mine → calls_by other.worker log ≡ other.mine
        → IsTicketOf m one t → IsTicketOf m other u → is_pending m (own other) u.region t.region ≡ false }
{
    what_legal_histories_keep();
    what_own_calls_tell();
}

/// No region is written while another fill may still read it: if the calls of two workers are in one legal history, no
/// opening of the one has the region of the other's right as its source.
pub fn no_region_is_read_and_written()
    ensures { (m : MoveTable) (workers : ℕ) (log : List Entry) (one other : Caller) (right : Right) (opening : Opening) → IsLegal m workers log → calls_by one.worker log ≡ one.mine → calls_by other.worker log ≡ other.mine
        → IsRightOf one right → IsOpeningOf m other opening → opening.source ≢ right.region }
{
    what_legal_histories_keep();
    what_own_calls_tell();
}

/// No region is written that another still has to read: while a worker holds the right to a region, no destination is left
/// that still reads it, whether claimed or not, in any legal history with the worker's calls.
pub fn writers_have_no_pending_readers()
    ensures { (m : MoveTable) (workers : ℕ) (log : List Entry) (one : Caller) (right : Right) (destination : ℕ) → IsLegal m workers log → calls_by one.worker log ≡ one.mine
        → IsRightOf one right → is_pending m (state_of log) destination right.region ≡ false }
{
    what_legal_histories_keep();
    what_own_calls_tell();
}

/// If all sources below the next one are drained, and that one is then opened and drained, all sources
/// below the one after it are drained.
pub fn one_more_source_is_drained()
    ensures { (m : MoveTable) (old new : Caller) (t t' : Ticket) (s : ℕ) (reply : Reply) → IsSwept m old t → t'.region ≡ t.region → t'.next ≡ s + 1
        → ((q : ℕ) → t.next ≤ q → q < s → reads m t.region q ≡ false) → Gains old new (Drain t.region s) reply → IsSwept m new t' }
{}

/// If all sources below the next one are drained and there is no next one, no source is left.
pub fn swept_tickets_have_none_left()
    ensures { (m : MoveTable) (c : Caller) (t : Ticket) → IsMoveTable m → IsTicketOf m c t → IsSwept m c t → ((s : ℕ) → t.next ≤ s → reads m t.region s ≡ false) → t.left ≡ 0 }
{
    how_counts_go_down();
}
