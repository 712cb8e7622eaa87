ghost use Rattle.std.specs.Prelude.{◌≡◌};
ghost use Rattle.std.specs.Box.{box_allocator};

use box_row::InRow;
use raw_region::Region;
use std::marker::Model;

/// A region in its place. Contracts see its words and the place.
#[derive(Drop)]
pub struct Whole {
    region: Box<Region, InRow>,
}

impl Model for Whole {
    ghost use Rattle.std.specs.Prelude.{List, ℕ};
    ghost use Rattle.std.specs.Box.{box_allocator};
    ghost use Rattle.box_row.specs.declared.place.InRow.{InRow};

    ghost Value = { List ℕ × InRow };

    ghost view = { λ w. (w.region.value, box_allocator w.region) };
}

impl Whole {
    pub(crate) fn new(region: Box<Region, InRow>) -> Whole
        ensures { result ≡ (region.value, box_allocator region) }
    {
        Whole { region }
    }

    pub(crate) fn into_box(self) -> Box<Region, InRow>
        ensures { (result.value, box_allocator result) ≡ self }
    {
        let Whole { region } = self;
        region
    }
}
