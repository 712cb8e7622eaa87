use super::ticket::Ticket;
use std::snapshot::Snapshot;

/// A right whose region is written. Must be spent by `Board::complete` or given up.
pub struct Written {
    pub(crate) region: u32,
    /// The ticket of its right, for proofs only.
    pub(crate) ticket: Snapshot<Ticket>,
}

impl Written {
    /// Spends the value without an event. The region can then never be settled.
    pub fn give_up(self) {
        let Written {
            region: _,
            ticket: _,
        } = self;
    }
}
