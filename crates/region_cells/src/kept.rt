ghost use Rattle.std.specs.Prelude.{◌≡◌, ◌+◌, ◌<◌, ◌^◌};

use counted_slot::Fits;
use heap_image::Image;
use raw_region::Region;
use std::marker::Model;
use std::snapshot::Snapshot;

/// What a cell holds.
#[derive(Drop)]
pub(crate) enum Kept {
    /// The region with its original words.
    Original(Region),
    /// The region with its moved words.
    Moved(Region),
    /// Nothing that a reader may see: a writer has the region, or gave it up.
    Spoiled,
}

/// The region of an image that a cell belongs to.
#[derive(Drop)]
pub(crate) struct Place {
    image: Snapshot<Image>,
    region: u32,
}

impl Model for Place {
    ghost use Rattle.region_cells.specs.Views.{ImageRegion};

    ghost Value = { ImageRegion };

    ghost view = { λ p. record { image = p.image.value; region = p.region } };
}

impl Place {
    pub(crate) fn first(image: &Image) -> Place
        ensures { result ≡ record { image = image.now; region = 0 } }
    {
        Place {
            image: Snapshot::of(image),
            region: 0,
        }
    }

    /// Moves to the next region.
    pub(crate) fn step(&mut self)
        requires { self.old.region + 1 < 2 ^ 32 }
        ensures { self.new ≡ record { image = self.old.image; region = self.old.region + 1 } }
    {
        self.region += 1;
    }
}

impl Fits for Kept {
    ghost use Rattle.region_cells.specs.Kept.{HasWords};

    type Tag = Place;

    ghost fits = { λ place kept. HasWords place kept };
}
