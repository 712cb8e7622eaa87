//! Opaque objects as they were.
ghost use Rattle.std.specs.Prelude.{◌≡◌};
ghost use Rattle.object_heap.specs.HeapImage.{HeapImage};
ghost use Rattle.mark_bitmap.specs.Noted.{image_coded};
ghost use base.Fml.{ftrue};

use crate::opaque_objects::OpaqueObjects;
use std::marker::Model;

/// The image of opaque objects as it was then: no bytes, and nothing of the host's lists.
#[derive(Drop)]
pub(crate) struct Noted {
    ghost image: { HeapImage } by { image_coded },
}

impl Model for Noted {
    ghost also_owns = { λ _. ftrue };
}

impl Noted {
    /// Only a clause ties it to the objects, so it is good for clauses alone.
    pub(crate) fn of(objects: &OpaqueObjects<'_>) -> Noted
        ensures { result.image ≡ objects.now }
    {
        let _ = objects;
        Noted {}
    }
}
