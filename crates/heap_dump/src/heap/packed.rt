//! All objects of a dump without gaps, in a heap that may be larger than an image.
ghost use Rattle.std.specs.Prelude.{OnOk, ◌≡◌, IsTrue};
ghost use Rattle.std.specs.Io.KnownBytes.{IsAtEnd};

use crate::transcription::transcribed::Transcribed;
use dump_objects::{Followed, Gaps, Inventory, Survivors};
use dump_records::ImportError;
use heap_image::Intake;
use heap_image::limits::MAX_REGION_LOG_V2;
use std::alloc::Global;

/// A heap of any size with all objects of a dump, without gaps, and its survivors.
#[derive(Drop)]
pub(crate) struct Packed {
    /// The heap, with the labels of the survivors.
    pub(crate) transcribed: Transcribed,
    pub(crate) survivors: Survivors,
    /// The addresses of the objects to which roots lead.
    pub(crate) roots: Vec<u64>,
}

impl Packed {
    /// Reads the dump of this inventory for the second time.
    pub(crate) fn of<R: Intake>(
        alloc: Global,
        mut inventory: Inventory,
        followed: Followed,
        source: &mut R,
    ) -> Result<Packed, ImportError>
        ensures end { OnOk result (IsAtEnd (R.left source.new)) }
        ensures input { result ≡ Err ImportError.Input → IsTrue (R.has_failed source.new) }
    {
        let placed = inventory.place(alloc, MAX_REGION_LOG_V2, Gaps::Dropped)?;
        let mut transcribed = Transcribed::of(alloc, &mut inventory, placed, followed, source)?;
        // The rest of the inventory is freed before more memory is allocated.
        let roots = inventory.into_roots();
        let Transcribed { heap, labels, .. } = &mut transcribed;
        let survivors = Survivors::of(alloc, heap, roots.as_slice())?;
        labels.keep(heap, survivors.addresses.as_slice());
        Ok(Packed {
            transcribed,
            survivors,
            roots,
        })
    }
}
