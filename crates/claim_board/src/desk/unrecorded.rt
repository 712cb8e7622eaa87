//! A board that keeps regions, as a desk.
ghost use Rattle.std.specs.Prelude.{◌≡◌, ◌==◌, ◌-◌, ◌<◌, [], count_by, IfNone, IfSome, is_some, if◌then◌else◌};

use super::{Desk, HasBoard, Seat};
use crate::regions::region_board::RegionBoard;
use crate::regions::region_ticket::RegionTicket;
use crate::tokens::closed::Closed;
use crate::tokens::done::Done;
use crate::tokens::drained::Drained;
use crate::tokens::written::Written;
use box_row::InRow;
use raw_region::Region;
use read_shares::ReadShare;

impl HasBoard for RegionBoard {
    ghost keeps = { λ board. board };

    fn board(&self) -> &RegionBoard {
        self
    }
}

/// Each call is the board's call of the same name. None waits.
impl<W> Desk<W> for RegionBoard {
    fn claim(
        &self,
        seat: &mut Seat,
        region: u32,
        _wait: &W,
    ) -> Option<(RegionTicket, Box<Region, InRow>)> {
        self.claim(&mut seat.pass, region)
    }

    fn drain(
        &self,
        seat: &mut Seat,
        ticket: &mut RegionTicket,
        read: (Closed, ReadShare<Region>),
        _wait: &W,
    ) -> Drained {
        self.drain(&mut seat.pass, ticket, read.0, read.1)
    }

    fn complete(
        &self,
        seat: &mut Seat,
        ticket: RegionTicket,
        written: (Written, Box<Region, InRow>),
        _wait: &W,
    ) -> Done {
        self.complete(&mut seat.pass, ticket, written.0, written.1)
    }

    fn settle(&self, seat: &mut Seat, done: Done, _wait: &W) -> bool {
        self.settle(&mut seat.pass, done)
    }

    fn copied(&self, _seat: &Seat, _ticket: &RegionTicket, _words: u32, _wait: &W) {}
}
