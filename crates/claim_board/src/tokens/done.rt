ghost use Rattle.std.specs.Prelude.{◌≡◌};

use crate::rule::Place;
use std::snapshot::Snapshot;

/// A completed region that isn't settled. Must be spent by `Board::settle` or given up.
pub struct Done {
    pub(crate) region: u32,
    /// The pass that claimed the region, for proofs only. `None` for a recorder.
    pub(crate) from: Option<Snapshot<Place>>,
}

impl Done {
    /// The region that was filled.
    pub fn region(&self) -> u32
        ensures { result ≡ self.now.region }
    {
        self.region
    }

    /// Spends the value without an event. The region can then never be settled.
    pub fn give_up(self) {
        let Done { region: _, from: _ } = self;
    }
}
