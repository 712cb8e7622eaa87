//! `Desk` for `Recorder`.
ghost use Rattle.std.specs.Prelude.{◌≡◌, ◌==◌, ◌-◌, ◌<◌, [], count_by, IfNone, IfSome, is_some, if◌then◌else◌};

use super::recorder::Recorder;
use super::{Desk, HasBoard, Seat};
use crate::regions::region_board::RegionBoard;
use crate::regions::region_ticket::RegionTicket;
use crate::tokens::closed::Closed;
use crate::tokens::done::Done;
use crate::tokens::drained::Drained;
use crate::tokens::written::Written;
use box_row::InRow;
use raw_region::Region;
use read_shares::ReadShare;
use scheduler::Event;
use std::sync::Wait;

impl HasBoard for Recorder {
    ghost keeps = { λ recorder. recorder.board };

    fn board(&self) -> &RegionBoard {
        &self.board
    }
}

/// Each call is the board's call of the same name, made under the lock and written down; so are the words that are copied.
impl<W: Wait> Desk<W> for Recorder {
    fn claim(
        &self,
        seat: &mut Seat,
        region: u32,
        wait: &W,
    ) -> Option<(RegionTicket, Box<Region, InRow>)> {
        let mut notes = self.notes.lock(wait);
        notes.keep(seat.number, Event::Claim(region));
        self.board.claim(&mut seat.pass, region)
    }

    fn drain(
        &self,
        seat: &mut Seat,
        ticket: &mut RegionTicket,
        read: (Closed, ReadShare<Region>),
        wait: &W,
    ) -> Drained {
        let (closed, share) = read;
        let mut notes = self.notes.lock(wait);
        notes.keep(seat.number, Event::Drain(closed.destination, closed.source));
        self.board.drain(&mut seat.pass, ticket, closed, share)
    }

    fn complete(
        &self,
        seat: &mut Seat,
        ticket: RegionTicket,
        written: (Written, Box<Region, InRow>),
        wait: &W,
    ) -> Done {
        let (written, region) = written;
        let mut notes = self.notes.lock(wait);
        notes.keep(seat.number, Event::Complete(ticket.region()));
        self.board.complete(&mut seat.pass, ticket, written, region)
    }

    fn settle(&self, seat: &mut Seat, done: Done, wait: &W) -> bool {
        let mut notes = self.notes.lock(wait);
        notes.keep(seat.number, Event::Settle(done.region));
        self.board.settle(&mut seat.pass, done)
    }

    fn copied(&self, seat: &Seat, ticket: &RegionTicket, words: u32, wait: &W) {
        if words > 0 {
            let event = Event::Copy(ticket.region(), words);
            self.notes.lock(wait).keep(seat.number, event);
        }
    }
}
