ghost use Rattle.std.specs.Prelude.{◌≡◌};

use crate::rule::Place;
use std::snapshot::Snapshot;

/// A claimed region, to be filled by the worker that claimed it. Must be spent by `Board::complete` or
/// given up.
pub struct Ticket {
    pub(crate) region: u32,
    /// All sources below this region are opened.
    pub(crate) next: u32,
    pub(crate) left: usize,
    pub(crate) right_is_out: bool,
    /// The pass that claimed the region, for proofs only. `None` for a recorder.
    pub(crate) from: Option<Snapshot<Place>>,
}

impl Ticket {
    /// The region to be filled.
    pub fn region(&self) -> u32
        ensures { result ≡ self.now.region }
    {
        self.region
    }

    /// The number of other regions that the region has still to read. At 0 it may be completed.
    pub fn left(&self) -> usize
        ensures { result ≡ self.now.left }
    {
        self.left
    }

    /// Spends the value without an event. The region can then never be settled.
    pub fn give_up(self) {
        let Ticket {
            region: _,
            next: _,
            left: _,
            right_is_out: _,
            from: _,
        } = self;
    }
}
