//! What tells the shares of one session from those of others.
ghost use Rattle.std.specs.Prelude.{◌≡◌, None, Some};
ghost use Rattle.collector.specs.SessionIds.{SessionHeap};

use crate::slide::Slide;
use heap_image::Image;
use raw_region::Region;
use read_shares::Term;
use std::marker::Model;
use std::snapshot::Snapshot;

/// A session, before it is there: what it compacts, the term for which it will be shared out, and the number of its
/// workers.
#[derive(Drop)]
pub(crate) struct SessionId {
    subject: Subject,
    term: Snapshot<Term>,
    workers: u32,
}

/// What a session compacts.
#[derive(Drop)]
enum Subject {
    Image(Snapshot<Image>),
    Slide(Snapshot<Slide>, Snapshot<Vec<Region>>),
}

impl Model for SessionId {
    ghost use Rattle.collector.specs.SessionIds.{SessionView};
    ghost use Rattle.collector.specs.SessionSubjects.{heap_of_subject};

    ghost Value = { SessionView };

    ghost view = { λ i. record { heap = heap_of_subject i.subject; origin = i.term.value.origin; workers = i.workers } };
}

impl SessionId {
    /// That of a session of this many workers over an image, for a term.
    pub(crate) fn of_image(image: &Image, term: &Term, workers: u32) -> SessionId
        ensures { result ≡ record { heap = record { image = image.now; held = None }; origin = term.now.origin; workers = workers } }
    {
        SessionId {
            subject: Subject::Image(Snapshot::of(image)),
            term: Snapshot::of(term),
            workers,
        }
    }

    /// That of a session of this many workers that slides opaque objects in these regions, for a term.
    pub(crate) fn of_slide(
        slide: &Slide,
        regions: &Vec<Region>,
        term: &Term,
        workers: u32,
    ) -> SessionId
        ensures { result ≡ record { heap = record { image = slide.now; held = Some regions.now.items }; origin = term.now.origin; workers = workers } }
    {
        SessionId {
            subject: Subject::Slide(Snapshot::of(slide), Snapshot::of(regions)),
            term: Snapshot::of(term),
            workers,
        }
    }

    /// The number of workers.
    pub(crate) fn workers(&self) -> u32
        ensures { result ≡ self.now.workers }
    {
        self.workers
    }
}
