//! A heap with all objects of a dump.
ghost use Rattle.std.specs.Prelude.{OnOk, ◌≡◌, IsTrue};
ghost use Rattle.std.specs.Io.KnownBytes.{IsAtEnd};

use super::{Transcript, Transcription};
use crate::heap::draft::Draft;
use crate::listing::object_labels::ObjectLabels;
use dump_objects::{Arrangement, Followed, Inventory, UnsealedHeap, WeakReference};
use dump_records::ImportError;
use heap_image::Intake;
use std::alloc::Global;

/// A heap with all objects of a dump and their values.
#[derive(Drop)]
pub(crate) struct Transcribed {
    pub(crate) heap: UnsealedHeap,
    pub(crate) arrangement: Arrangement,
    /// The references that aren't followed, whose words are null.
    pub(crate) weak: Vec<WeakReference>,
    /// How many references and roots lead to objects that are missing from the dump.
    pub(crate) unresolved: u64,
    pub(crate) labels: ObjectLabels,
}

impl Transcribed {
    /// Fills in the heap in which the objects of a dump were placed. Reads the dump to its end, and replaces the ids of the
    /// inventory's roots by addresses.
    pub(crate) fn of<R: Intake>(
        alloc: Global,
        inventory: &mut Inventory,
        placed: (UnsealedHeap, Arrangement),
        followed: Followed,
        source: &mut R,
    ) -> Result<Transcribed, ImportError>
        ensures end { OnOk result (IsAtEnd (R.left source.new)) }
        ensures input { result ≡ Err ImportError.Input → IsTrue (R.has_failed source.new) }
    {
        let (heap, arrangement) = placed;
        let Transcript {
            heap,
            weak,
            unresolved,
            labels,
            texts,
        } = Transcription::of(alloc, inventory, heap, followed, source)?;
        let missing = inventory.place_roots();
        Ok(Transcribed {
            heap,
            arrangement,
            weak,
            unresolved: unresolved.saturating_add(missing),
            labels: ObjectLabels::of(alloc, inventory, labels, texts)?,
        })
    }

    /// The draft of an image of this heap, once its objects have their headers, and the labels of its objects.
    pub(crate) fn into_draft(self, roots: Vec<u64>) -> (Draft, ObjectLabels) {
        let Transcribed {
            heap,
            arrangement,
            weak,
            unresolved,
            labels,
        } = self;
        let draft = Draft {
            heap,
            roots,
            weak,
            dropped_gaps: arrangement.dropped_gaps(),
            unresolved,
        };
        (draft, labels)
    }
}
