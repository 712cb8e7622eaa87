//! The openings and the right that a ticket gives out. The methods are in a module of their own because their contracts
//! use the type `Ticket`.
ghost use Rattle.std.specs.Prelude.{◌≡◌, ℕ, ◌+◌, ◌<◌, ◌≤◌, ◌↔◌, true, false, IfSome, IfNone, IsSome, IsTrue};
ghost use Rattle.scheduler.specs.MoveTable.{MoveTable, region_count, reads};
ghost use Rattle.claim_board.specs.Callers.{Caller};
ghost use Rattle.claim_board.specs.Tickets.{IsTicketOf, IsRightOf, IsOpeningOf};

pub(crate) mod closed;
pub(crate) mod done;
pub(crate) mod drained;
pub(crate) mod opening;
pub(crate) mod right;
pub(crate) mod ticket;
pub(crate) mod written;

use opening::Opening;
use right::Right;
use scheduler::Moves;
use std::snapshot::Snapshot;
use ticket::Ticket;

impl Ticket {
    /// Opens the next other region that this one reads. Goes over them once, ascending, and returns `None`
    /// after the last. `moves` must be the board's.
    pub fn open<M: Moves>(&mut self, moves: &M) -> Option<Opening>
        requires { self.old.region < region_count (M.table moves.now) }
        ensures same { (self.new.region ≡ self.old.region) × (self.new.left ≡ self.old.left) × (self.new.right_is_out ≡ self.old.right_is_out) × (self.new.from ≡ self.old.from) }
        ensures stays { (m : MoveTable) (c : Caller) → IsTicketOf m c self.old → IsTicketOf m c self.new }
        ensures next { IfSome result (λ o. self.new.next ≡ o.source + 1) }
        ensures reads { IfSome result (λ o. (o.destination ≡ self.old.region) × (self.old.next ≤ o.source) × IsTrue (reads (M.table moves.now) self.old.region o.source)) }
        ensures least { IfSome result (λ o. (s : ℕ) → self.old.next ≤ s → s < o.source → reads (M.table moves.now) self.old.region s ≡ false) }
        ensures inside { IfSome result (λ o. o.source < region_count (M.table moves.now)) }
        ensures from { IfSome result (λ o. o.ticket.value ≡ self.new) }
        ensures owner { (c : Caller) → IsTicketOf (M.table moves.now) c self.old → IfSome result (λ o. IsOpeningOf (M.table moves.now) c o) }
        ensures last { IfNone result ((s : ℕ) → self.old.next ≤ s → reads (M.table moves.now) self.old.region s ≡ false) }
        ensures ended { IfNone result (self.new.next ≡ self.old.next) }
    {
        let regions = moves.regions();
        let source = moves.next_source(self.region, self.next)?;
        prove!(source < regions);
        self.next = source + 1;
        Some(Opening {
            destination: self.region,
            source,
            ticket: Snapshot::of(&*self),
        })
    }

    /// The right to write the region; `None` from the second call on.
    pub fn right(&mut self) -> Option<Right>
        ensures once { IsSome result ↔ (self.old.right_is_out ≡ false) }
        ensures out { self.new.right_is_out ≡ true }
        ensures same { (self.new.region ≡ self.old.region) × (self.new.next ≡ self.old.next) × (self.new.left ≡ self.old.left) × (self.new.from ≡ self.old.from) }
        ensures stays { (m : MoveTable) (c : Caller) → IsTicketOf m c self.old → IsTicketOf m c self.new }
        ensures right { IfSome result (λ r. (r.region ≡ self.old.region) × (r.ticket.value ≡ self.new)) }
        ensures owner { (m : MoveTable) (c : Caller) → IsTicketOf m c self.old → IfSome result (λ r. IsRightOf c r) }
    {
        if self.right_is_out {
            return None;
        }
        self.right_is_out = true;
        Some(Right {
            region: self.region,
            ticket: Snapshot::of(&*self),
        })
    }
}
