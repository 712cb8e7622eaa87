ghost use Rattle.std.specs.Prelude.{◌≡◌, ◌↔◌, true, false, IfSome, IsSome};
ghost use Rattle.scheduler.specs.MoveTable.{MoveTable};
ghost use Rattle.claim_board.specs.Callers.{Caller};
ghost use Rattle.claim_board.specs.Tickets.{IsTicketOf, IsRightOf};

use crate::tokens::right::Right;
use crate::tokens::ticket::Ticket;

/// A claimed region of a board that keeps regions. Must be spent by `RegionBoard::complete` or given up.
pub struct RegionTicket {
    pub(crate) ticket: Ticket,
    /// The index of the next source's pair.
    pub(crate) at: usize,
}

impl RegionTicket {
    /// The region to be filled.
    pub fn region(&self) -> u32
        ensures { result ≡ self.now.ticket.region }
    {
        self.ticket.region()
    }

    /// The number of other regions that the region has still to read. At 0 it may be completed.
    pub fn left(&self) -> usize
        ensures { result ≡ self.now.ticket.left }
    {
        self.ticket.left()
    }

    /// The right to write the region; `None` from the second call on.
    pub fn right(&mut self) -> Option<Right>
        ensures once { IsSome result ↔ (self.old.ticket.right_is_out ≡ false) }
        ensures out { self.new.ticket.right_is_out ≡ true }
        ensures same { (self.new.ticket.region ≡ self.old.ticket.region) × (self.new.ticket.next ≡ self.old.ticket.next) × (self.new.ticket.left ≡ self.old.ticket.left) × (self.new.ticket.from ≡ self.old.ticket.from) × (self.new.at ≡ self.old.at) }
        ensures stays { (m : MoveTable) (c : Caller) → IsTicketOf m c self.old.ticket → IsTicketOf m c self.new.ticket }
        ensures right { IfSome result (λ r. (r.region ≡ self.old.ticket.region) × (r.ticket.value ≡ self.new.ticket)) }
        ensures owner { (m : MoveTable) (c : Caller) → IsTicketOf m c self.old.ticket → IfSome result (λ r. IsRightOf c r) }
    {
        self.ticket.right()
    }

    /// Spends the value without an event. The region can then never be settled.
    pub fn give_up(self) {
        let RegionTicket { ticket, at: _ } = self;
        ticket.give_up();
    }
}
