//! What marks and plans were made of.
ghost use Rattle.std.specs.Prelude.{◌≡◌};

use crate::noted::Noted;
use crate::opaque_objects::OpaqueObjects;
use heap_image::Image;
use std::marker::Model;
use std::snapshot::Snapshot;

/// What marks and plans are made of, as it was then. Has no word of it.
///
/// Contracts view it as an image.
pub struct Surveyed {
    subject: Subject,
}

#[derive(Drop)]
enum Subject {
    Image(Snapshot<Image>),
    Objects(Noted),
}

impl Drop for Surveyed {
    fn drop(self) {
        let Self { subject } = self;
    }
}

impl Model for Surveyed {
    ghost use Rattle.object_heap.specs.HeapImage.{HeapImage};
    ghost use Rattle.mark_bitmap.specs.Surveyed.{image_of_subject};

    ghost Value = { HeapImage };

    ghost view = { λ s. image_of_subject s.subject };
}

impl Surveyed {
    pub(crate) fn image(image: &Image) -> Surveyed
        ensures { result ≡ image.now }
    {
        Surveyed {
            subject: Subject::Image(Snapshot::of(image)),
        }
    }

    pub(crate) fn objects(objects: &OpaqueObjects<'_>) -> Surveyed
        ensures { result ≡ objects.now }
    {
        Surveyed {
            subject: Subject::Objects(Noted::of(objects)),
        }
    }
}
