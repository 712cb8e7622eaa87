use super::ticket::Ticket;
use std::snapshot::Snapshot;

/// The end of reading a source. Must be spent by `Board::drain` or given up.
pub struct Closed {
    pub(crate) destination: u32,
    pub(crate) source: u32,
    /// The ticket of its opening, for proofs only.
    pub(crate) ticket: Snapshot<Ticket>,
}

impl Closed {
    /// Spends the value without an event. The region of its ticket can then never be settled.
    pub fn give_up(self) {
        let Closed {
            destination: _,
            source: _,
            ticket: _,
        } = self;
    }
}
