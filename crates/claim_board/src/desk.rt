ghost use Rattle.std.specs.Prelude.{◌≡◌, ◌==◌, ◌-◌, ◌<◌, [], count_by, IfNone, IfSome, is_some, if◌then◌else◌};
ghost use Rattle.std.specs.Box.{box_allocator};
ghost use Rattle.scheduler.specs.declared.event.Event.TheVariants.{Claim, Drain, Complete, Settle};
ghost use Rattle.scheduler.specs.declared.reply.Reply.TheVariants.{Yes, No, All, More, Done as Completed};
ghost use Rattle.scheduler.specs.MoveTable.{region_count};
ghost use Rattle.claim_board.specs.declared.regions.region_board.RegionBoard.{RegionBoard};
ghost use Rattle.claim_board.specs.Boards.{board_of, caller, seen, held, AppendsTo};
ghost use Rattle.claim_board.specs.Drains.{reply_of};
ghost use Rattle.claim_board.specs.Grants.{IsGranted};
ghost use Rattle.claim_board.specs.RegionBoards.{moves as moves_of, worker_count, identity, original_words, moved_words, spot, Holds, Reads};
ghost use Rattle.claim_board.specs.Tickets.{IsUnused, IsTicketOf, IsClosedOf, IsWrittenOf, IsDoneOf};

pub(crate) mod recorder;
mod recording;
mod unrecorded;

use crate::pass::Pass;
use crate::regions::region_board::RegionBoard;
use crate::regions::region_ticket::RegionTicket;
use crate::tokens::closed::Closed;
use crate::tokens::done::Done;
use crate::tokens::drained::Drained;
use crate::tokens::written::Written;
use box_row::InRow;
use raw_region::Region;
use read_shares::ReadShare;

/// A worker's pass, and its number, from 0 on.
#[derive(Drop)]
pub struct Seat {
    pub pass: Pass,
    pub number: u32,
}

/// What has a board that keeps regions: the board itself, or a recorder.
pub trait HasBoard {
    /// The board.
    ghost keeps: { Self → RegionBoard };

    /// The board, for the calls that change nothing.
    fn board(&self) -> &RegionBoard
        ensures { result.now ≡ Self.keeps self.now };
}

/// The calls by which a worker changes a board that keeps regions: as they are, or recorded for a schedule. No call fails.
///
/// `RegionBoard` takes anything for `wait`, and never waits; `Recorder` takes a handle by which it waits for its lock.
pub trait Desk<W>: HasBoard {
    /// As `RegionBoard::claim`.
    fn claim(
        &self,
        seat: &mut Seat,
        region: u32,
        wait: &W,
    ) -> Option<(RegionTicket, Box<Region, InRow>)>
        requires board { board_of seat.old.pass ≡ identity (Self.keeps self.now) }
        requires region { region < region_count (moves_of (Self.keeps self.now)) }
        requires bare { held seat.old.pass ≡ [] }
        ensures number { seat.new.number ≡ seat.old.number }
        ensures entry { AppendsTo (moves_of (Self.keeps self.now)) (worker_count (Self.keeps self.now)) seat.old.pass seat.new.pass (Claim region) (if is_some result then Yes else No) }
        ensures ticket { IfSome result (λ granted. (granted.0.ticket.region ≡ region) × IsUnused granted.0.ticket × IsTicketOf (moves_of (Self.keeps self.now)) (caller seat.new.pass) granted.0.ticket) }
        ensures left { IfSome result (λ granted. granted.0.ticket.left ≡ count_by (λ pair. region == pair.0) (moves_of (Self.keeps self.now)).pairs) }
        ensures granted { IfSome result (λ _. IsGranted (moves_of (Self.keeps self.now)) (worker_count (Self.keeps self.now)) region (seen seat.new.pass)) }
        ensures words { IfSome result (λ granted. granted.1.value ≡ original_words (Self.keeps self.now) region) }
        ensures place { IfSome result (λ granted. box_allocator granted.1 ≡ spot (Self.keeps self.now) region) }
        ensures holds { IfSome result (λ granted. Holds (Self.keeps self.now) granted.0 seat.new.pass) }
        ensures refused { IfNone result (held seat.new.pass ≡ []) };

    /// As `RegionBoard::drain`.
    fn drain(
        &self,
        seat: &mut Seat,
        ticket: &mut RegionTicket,
        read: (Closed, ReadShare<Region>),
        wait: &W,
    ) -> Drained
        requires board { board_of seat.old.pass ≡ identity (Self.keeps self.now) }
        requires ticket { IsTicketOf (moves_of (Self.keeps self.now)) (caller seat.old.pass) ticket.old.ticket }
        requires closed { IsClosedOf (moves_of (Self.keeps self.now)) (caller seat.old.pass) ticket.old.ticket read.0 }
        requires reads { Reads (Self.keeps self.now) ticket.old read.0.source read.1 seat.old.pass }
        ensures number { seat.new.number ≡ seat.old.number }
        ensures entry { AppendsTo (moves_of (Self.keeps self.now)) (worker_count (Self.keeps self.now)) seat.old.pass seat.new.pass (Drain read.0.destination read.0.source) (reply_of result) }
        ensures ticket { IsTicketOf (moves_of (Self.keeps self.now)) (caller seat.new.pass) ticket.new.ticket }
        ensures left { ticket.new.ticket.left ≡ ticket.old.ticket.left - 1 }
        ensures same { (ticket.new.ticket.region ≡ ticket.old.ticket.region) × (ticket.new.ticket.next ≡ ticket.old.ticket.next) × (ticket.new.ticket.right_is_out ≡ ticket.old.ticket.right_is_out) × (ticket.new.ticket.from ≡ ticket.old.ticket.from) }
        ensures holds { Holds (Self.keeps self.now) ticket.new seat.new.pass };

    /// As `RegionBoard::complete`.
    fn complete(
        &self,
        seat: &mut Seat,
        ticket: RegionTicket,
        written: (Written, Box<Region, InRow>),
        wait: &W,
    ) -> Done
        requires board { board_of seat.old.pass ≡ identity (Self.keeps self.now) }
        requires ticket { IsTicketOf (moves_of (Self.keeps self.now)) (caller seat.old.pass) ticket.ticket }
        requires none_left { ticket.ticket.left ≡ 0 }
        requires written { IsWrittenOf ticket.ticket written.0 }
        requires holds { Holds (Self.keeps self.now) ticket seat.old.pass }
        requires moved { written.1.value ≡ moved_words (Self.keeps self.now) ticket.ticket.region }
        requires place { box_allocator written.1 ≡ spot (Self.keeps self.now) ticket.ticket.region }
        ensures number { seat.new.number ≡ seat.old.number }
        ensures entry { AppendsTo (moves_of (Self.keeps self.now)) (worker_count (Self.keeps self.now)) seat.old.pass seat.new.pass (Complete ticket.ticket.region) Completed }
        ensures done { (result.region ≡ ticket.ticket.region) × IsDoneOf (caller seat.new.pass) result }
        ensures holds { held seat.new.pass ≡ [] };

    /// As `RegionBoard::settle`.
    fn settle(&self, seat: &mut Seat, done: Done, wait: &W) -> bool
        requires board { board_of seat.old.pass ≡ identity (Self.keeps self.now) }
        requires done { IsDoneOf (caller seat.old.pass) done }
        ensures number { seat.new.number ≡ seat.old.number }
        ensures entry { AppendsTo (moves_of (Self.keeps self.now)) (worker_count (Self.keeps self.now)) seat.old.pass seat.new.pass (Settle done.region) (if result then All else More) }
        ensures holds { held seat.new.pass ≡ held seat.old.pass };

    /// Notes that the worker of the seat has written this many more words of the ticket's region. Not a call of the board.
    fn copied(&self, seat: &Seat, ticket: &RegionTicket, words: u32, wait: &W);
}
