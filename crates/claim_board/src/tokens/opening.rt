ghost use Rattle.std.specs.Prelude.{◌≡◌};

use super::closed::Closed;
use super::ticket::Ticket;
use std::snapshot::Snapshot;

/// The permission to read a source for the region of a ticket. While it lives, the pair can't be
/// drained, since a drain takes the `Closed` that `close` returns. Must be closed or given up.
pub struct Opening {
    pub(crate) destination: u32,
    pub(crate) source: u32,
    /// The ticket that made it, for proofs only.
    pub(crate) ticket: Snapshot<Ticket>,
}

impl Opening {
    /// The region to be filled.
    pub fn destination(&self) -> u32
        ensures { result ≡ self.now.destination }
    {
        self.destination
    }

    /// The region to be read.
    pub fn source(&self) -> u32
        ensures { result ≡ self.now.source }
    {
        self.source
    }

    /// Ends the reading, when all words that the destination takes from the source are copied.
    pub fn close(self) -> Closed
        ensures pair { (result.destination ≡ self.destination) × (result.source ≡ self.source) }
        ensures from { result.ticket ≡ self.ticket }
    {
        let Opening {
            destination,
            source,
            ticket,
        } = self;
        Closed {
            destination,
            source,
            ticket,
        }
    }

    /// Spends the value without an event. The region of its ticket can then never be settled.
    pub fn give_up(self) {
        let Opening {
            destination: _,
            source: _,
            ticket: _,
        } = self;
    }
}
