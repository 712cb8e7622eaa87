//! The calls of a board that keeps regions. Each is the call of the same name of `Board`, by the same one atomic step. What it
//! takes out of the slots and puts into them are plain reads and writes.
ghost use Rattle.std.specs.Prelude.{◌≡◌, ◌==◌, ◌-◌, ℕ, suc, ◌+◌, ◌<◌, ◌≤◌, [], count_by, false, IfNone, IfSome, IsTrue, is_some, if◌then◌else◌};
ghost use Rattle.std.specs.Box.{box_allocator};
ghost use Rattle.scheduler.specs.declared.event.Event.TheVariants.{Claim, Look, Drain, Complete, Settle, Poll};
ghost use Rattle.scheduler.specs.declared.reply.Reply.TheVariants.{Yes, No, All, More, Done as Completed};
ghost use Rattle.scheduler.specs.MoveTable.{MoveTable, region_count, reads};
ghost use Rattle.claim_board.specs.Boards.{board_of, caller, seen, steps, held, AppendsTo, MakesStep};
ghost use Rattle.claim_board.specs.Callers.{Caller};
ghost use Rattle.claim_board.specs.Drains.{reply_of};
ghost use Rattle.claim_board.specs.Grants.{IsGranted};
ghost use Rattle.claim_board.specs.RegionBoards.{moves as moves_of, worker_count, identity, original_words, moved_words, spot, Holds, Reads};
ghost use Rattle.claim_board.specs.Views.{IsPassView};
ghost use Rattle.claim_board.specs.Tickets.{IsUnused, IsTicketOf, IsOpeningOf, IsClosedOf, IsWrittenOf, IsDoneOf};

use super::gather::take_region;
use super::holding::Holding;
use super::region_board::RegionBoard;
use super::region_ticket::RegionTicket;
use super::seat::{put, take_share};
use super::whole::Whole;
use crate::calls;
use crate::pass::Pass;
use crate::rule::{Deal, Place, Words};
use crate::tokens::closed::Closed;
use crate::tokens::done::Done;
use crate::tokens::drained::Drained;
use crate::tokens::opening::Opening;
use crate::tokens::written::Written;
use box_row::InRow;
use raw_region::Region;
use read_shares::ReadShare;
use scheduler::{GivenMoves, Moves, Reply, how_counts_go_down};

/// Exchanges the seat for one of the same worker that holds no slot. The slots of a region's readers stay out, for ever empty.
fn shed(words: &Words, seat: &mut Place)
    requires seat { seat.old.table_id ≡ words.now.table_id }
    requires size { words.now.table_id.words ≡ suc (region_count words.now.key.moves) }
    requires pass { IsPassView seat.old.me.0 }
    ensures table { seat.new.table_id ≡ seat.old.table_id }
    ensures me { seat.new.me ≡ (seat.old.me.0, []) }
{
    let bare = words.split_seat::<Deal>(seat);
    *seat = bare;
}

impl RegionBoard {
    /// Claims a region. Returns the region with its original words, which nobody reads any more, if and only if it is to be
    /// filled, unclaimed and without pending readers. The pass must hold nothing. `None` changes nothing.
    pub fn claim(&self, pass: &mut Pass, region: u32) -> Option<(RegionTicket, Box<Region, InRow>)>
        requires board { board_of pass.old ≡ identity self.now }
        requires region { region < region_count (moves_of self.now) }
        requires bare { held pass.old ≡ [] }
        ensures entry { AppendsTo (moves_of self.now) (worker_count self.now) pass.old pass.new (Claim region) (if is_some result then Yes else No) }
        ensures step { MakesStep (moves_of self.now) (Claim region) pass.old pass.new }
        ensures ticket { IfSome result (λ granted. (granted.0.ticket.region ≡ region) × IsUnused granted.0.ticket × IsTicketOf (moves_of self.now) (caller pass.new) granted.0.ticket) }
        ensures left { IfSome result (λ granted. granted.0.ticket.left ≡ count_by (λ pair. region == pair.0) (moves_of self.now).pairs) }
        ensures granted { IfSome result (λ _. IsGranted (moves_of self.now) (worker_count self.now) region (seen pass.new)) }
        ensures words { IfSome result (λ granted. granted.1.value ≡ original_words self.now region) }
        ensures place { IfSome result (λ granted. box_allocator granted.1 ≡ spot self.now region) }
        ensures holds { IfSome result (λ granted. Holds self.now granted.0 pass.new) }
        ensures refused { IfNone result (held pass.new ≡ []) }
    {
        let words = &self.table.shared;
        let ticket = calls::claim(words, &self.sources, pass, region)?;
        let whole = take_region(words, &mut pass.place, &self.places, region);
        let at = self.places.first[region as usize];
        Some((RegionTicket { ticket, at }, whole))
    }

    /// The status of a region at this moment, as `Board::look`.
    pub fn look(&self, pass: &mut Pass, region: u32) -> Reply
        requires board { board_of pass.old ≡ identity self.now }
        requires region { region < region_count (moves_of self.now) }
        ensures entry { AppendsTo (moves_of self.now) (worker_count self.now) pass.old pass.new (Look region) result }
        ensures step { MakesStep (moves_of self.now) (Look region) pass.old pass.new }
        ensures holds { held pass.new ≡ held pass.old }
    {
        calls::look(&self.table.shared, pass, region)
    }

    /// Opens the next other region that the ticket's region reads, with the right by which its original words are read. Goes
    /// over them once, ascending, and returns `None` after the last. Each must be drained before the next is opened. `moves`
    /// must be the board's.
    pub fn open<M: Moves>(
        &self,
        pass: &mut Pass,
        ticket: &mut RegionTicket,
        moves: &M,
    ) -> Option<(Opening, ReadShare<Region>)>
        requires board { board_of pass.old ≡ identity self.now }
        requires moves { M.table moves.now ≡ moves_of self.now }
        requires region { ticket.old.ticket.region < region_count (moves_of self.now) }
        requires holds { Holds self.now ticket.old pass.old }
        ensures caller { caller pass.new ≡ caller pass.old }
        ensures steps { steps pass.new ≡ steps pass.old }
        ensures same { (ticket.new.ticket.region ≡ ticket.old.ticket.region) × (ticket.new.ticket.left ≡ ticket.old.ticket.left) × (ticket.new.ticket.right_is_out ≡ ticket.old.ticket.right_is_out) × (ticket.new.ticket.from ≡ ticket.old.ticket.from) }
        ensures stays { (m : MoveTable) (c : Caller) → IsTicketOf m c ticket.old.ticket → IsTicketOf m c ticket.new.ticket }
        ensures next { IfSome result (λ opened. ticket.new.ticket.next ≡ opened.0.source + 1) }
        ensures reads { IfSome result (λ opened. (opened.0.destination ≡ ticket.old.ticket.region) × (ticket.old.ticket.next ≤ opened.0.source) × IsTrue (reads (moves_of self.now) ticket.old.ticket.region opened.0.source)) }
        ensures least { IfSome result (λ opened. (s : ℕ) → ticket.old.ticket.next ≤ s → s < opened.0.source → reads (moves_of self.now) ticket.old.ticket.region s ≡ false) }
        ensures inside { IfSome result (λ opened. opened.0.source < region_count (moves_of self.now)) }
        ensures from { IfSome result (λ opened. opened.0.ticket.value ≡ ticket.new.ticket) }
        ensures owner { (c : Caller) → IsTicketOf (moves_of self.now) c ticket.old.ticket → IfSome result (λ opened. IsOpeningOf (moves_of self.now) c opened.0) }
        ensures words { IfSome result (λ opened. opened.1.value ≡ original_words self.now opened.0.source) }
        ensures holds { IfSome result (λ opened. Reads self.now ticket.new opened.0.source opened.1 pass.new) }
        ensures last { IfNone result ((s : ℕ) → ticket.old.ticket.next ≤ s → reads (moves_of self.now) ticket.old.ticket.region s ≡ false) }
        ensures ended { IfNone result (Holds self.now ticket.new pass.new) }
    {
        let opening = ticket.ticket.open(moves)?;
        let slot = self.places.pairs - 1 - ticket.at;
        ticket.at += 1;
        let share = take_share(&self.table.shared, &mut pass.place, slot);
        Some((opening, share))
    }

    /// Puts the right to read back, and reports that all words that the ticket's region takes from a source are copied.
    /// Returns `Last` if the source has no pending readers left.
    pub fn drain(
        &self,
        pass: &mut Pass,
        ticket: &mut RegionTicket,
        closed: Closed,
        share: ReadShare<Region>,
    ) -> Drained
        requires board { board_of pass.old ≡ identity self.now }
        requires ticket { IsTicketOf (moves_of self.now) (caller pass.old) ticket.old.ticket }
        requires closed { IsClosedOf (moves_of self.now) (caller pass.old) ticket.old.ticket closed }
        requires reads { Reads self.now ticket.old closed.source share pass.old }
        ensures entry { AppendsTo (moves_of self.now) (worker_count self.now) pass.old pass.new (Drain closed.destination closed.source) (reply_of result) }
        ensures step { MakesStep (moves_of self.now) (Drain closed.destination closed.source) pass.old pass.new }
        ensures ticket { IsTicketOf (moves_of self.now) (caller pass.new) ticket.new.ticket }
        ensures left { ticket.new.ticket.left ≡ ticket.old.ticket.left - 1 }
        ensures same { (ticket.new.ticket.region ≡ ticket.old.ticket.region) × (ticket.new.ticket.next ≡ ticket.old.ticket.next) × (ticket.new.ticket.right_is_out ≡ ticket.old.ticket.right_is_out) × (ticket.new.ticket.from ≡ ticket.old.ticket.from) }
        ensures holds { Holds self.now ticket.new pass.new }
    {
        let words = &self.table.shared;
        let slot = self.places.pairs - ticket.at;
        put(words, &mut pass.place, slot, Holding::Share(share));
        calls::drain(words, pass, &mut ticket.ticket, closed)
    }

    /// Puts the region back with its moved words, and reports that they are all written. The pass holds nothing then.
    pub fn complete(
        &self,
        pass: &mut Pass,
        ticket: RegionTicket,
        written: Written,
        region: Box<Region, InRow>,
    ) -> Done
        requires board { board_of pass.old ≡ identity self.now }
        requires ticket { IsTicketOf (moves_of self.now) (caller pass.old) ticket.ticket }
        requires none_left { ticket.ticket.left ≡ 0 }
        requires written { IsWrittenOf ticket.ticket written }
        requires holds { Holds self.now ticket pass.old }
        requires moved { region.value ≡ moved_words self.now ticket.ticket.region }
        requires place { box_allocator region ≡ spot self.now ticket.ticket.region }
        ensures entry { AppendsTo (moves_of self.now) (worker_count self.now) pass.old pass.new (Complete ticket.ticket.region) Completed }
        ensures step { MakesStep (moves_of self.now) (Complete ticket.ticket.region) pass.old pass.new }
        ensures done { (result.region ≡ ticket.ticket.region) × IsDoneOf (caller pass.new) result }
        ensures holds { held pass.new ≡ [] }
    {
        how_counts_go_down();
        let RegionTicket { ticket, at: _ } = ticket;
        let words = &self.table.shared;
        let slot = self.places.pairs + ticket.region as usize;
        let moved = Holding::Moved(Whole::new(region));
        put(words, &mut pass.place, slot, moved);
        let done = calls::complete(words, pass, ticket, written);
        shed(words, &mut pass.place);
        done
    }

    /// Reports that the worker is done with the region, as `Board::settle`.
    pub fn settle(&self, pass: &mut Pass, done: Done) -> bool
        requires board { board_of pass.old ≡ identity self.now }
        requires done { IsDoneOf (caller pass.old) done }
        ensures entry { AppendsTo (moves_of self.now) (worker_count self.now) pass.old pass.new (Settle done.region) (if result then All else More) }
        ensures step { MakesStep (moves_of self.now) (Settle done.region) pass.old pass.new }
        ensures holds { held pass.new ≡ held pass.old }
    {
        calls::settle(&self.table.shared, pass, self.sources.len(), done)
    }

    /// Whether all regions to be filled are settled.
    pub fn poll(&self, pass: &mut Pass) -> bool
        requires { board_of pass.old ≡ identity self.now }
        ensures entry { AppendsTo (moves_of self.now) (worker_count self.now) pass.old pass.new Poll (if result then All else More) }
        ensures step { MakesStep (moves_of self.now) Poll pass.old pass.new }
        ensures holds { held pass.new ≡ held pass.old }
    {
        calls::poll(&self.table.shared, pass, self.sources.len())
    }

    /// The board's moves. They have no index, as those of `Board::moves`.
    pub fn moves(&self) -> &GivenMoves
        ensures { result.now ≡ moves_of self.now }
    {
        &self.moves
    }

    /// The number of workers, 1 to 64.
    pub fn workers(&self) -> u32
        ensures count { result ≡ worker_count self.now }
        ensures some { 1 ≤ result }
        ensures few { result ≤ 64 }
    {
        self.workers
    }
}
