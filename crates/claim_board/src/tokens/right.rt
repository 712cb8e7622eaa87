ghost use Rattle.std.specs.Prelude.{◌≡◌};

use super::ticket::Ticket;
use super::written::Written;
use std::snapshot::Snapshot;

/// The right to write a region; each ticket has one. Must be spent by `written` or given up.
pub struct Right {
    pub(crate) region: u32,
    /// The ticket that made it, for proofs only.
    pub(crate) ticket: Snapshot<Ticket>,
}

impl Right {
    /// The region to be written.
    pub fn region(&self) -> u32
        ensures { result ≡ self.now.region }
    {
        self.region
    }

    /// Ends the writing, when all words of the region are written.
    pub fn written(self) -> Written
        ensures region { result.region ≡ self.region }
        ensures from { result.ticket ≡ self.ticket }
    {
        let Right { region, ticket } = self;
        Written { region, ticket }
    }

    /// Spends the value without an event. The region can then never be settled.
    pub fn give_up(self) {
        let Right {
            region: _,
            ticket: _,
        } = self;
    }
}
