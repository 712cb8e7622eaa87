ghost use Rattle.std.specs.Prelude.{◌≡◌};

use crate::cells::Cells;
use std::marker::Model;
use std::snapshot::Snapshot;

/// Evidence that a region was put back with its moved words. Only [`Target::put`](crate::Target::put) makes one.
///
/// Contracts view it as the image and the region's number.
#[derive(Drop)]
pub struct Placed {
    cells: Snapshot<Cells>,
    region: u32,
}

impl Model for Placed {
    ghost use Rattle.region_cells.specs.Views.{ImageRegion};

    ghost Value = { ImageRegion };

    ghost view = { λ p. record { image = p.cells.value; region = p.region } };
}

impl Placed {
    pub(crate) fn new(cells: Snapshot<Cells>, region: u32) -> Placed
        ensures { result ≡ record { image = cells.value; region = region } }
    {
        Placed { cells, region }
    }

    /// The number of the region.
    pub fn region(&self) -> u32
        ensures { result ≡ self.now.region }
    {
        self.region
    }
}
