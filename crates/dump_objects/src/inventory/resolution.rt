//! Turns the ids that objects refer to into references.
ghost use Rattle.std.specs.Prelude.{◌≡◌, ◌≤◌};

use super::objects::Objects;
use crate::heap::{UnsealedHeap, references};

/// The number of ids that are looked up together, so that one doesn't wait for the memory of another.
pub(super) const BATCH: usize = 64;

/// Slots of a heap, and the ids in them.
#[derive(Drop)]
pub(super) struct Resolution {
    slots: [u64; BATCH],
    ids: [u64; BATCH],
    count: usize,
    /// How many ids belong to no object.
    unresolved: u64,
    ghost few: { count ≤ 64 },
}

impl Resolution {
    /// No slots yet.
    pub(super) fn new() -> Resolution {
        Resolution {
            slots: [0; BATCH],
            ids: [0; BATCH],
            count: 0,
            unresolved: 0,
        }
    }

    /// Resolves the ids in the slots of the object at this address, or keeps them for the next batch.
    pub(super) fn add_object(&mut self, objects: &Objects, heap: &mut UnsealedHeap, address: u64) {
        let first = address.saturating_add(1);
        for slot in first..first.saturating_add(references(heap.word(address))) {
            self.add(objects, heap, slot);
        }
    }

    /// Adds a slot. A full batch is resolved first.
    fn add(&mut self, objects: &Objects, heap: &mut UnsealedHeap, slot: u64) {
        if self.count >= BATCH {
            self.resolve(objects, heap);
        }
        self.slots[self.count] = slot;
        self.ids[self.count] = heap.word(slot);
        self.count += 1;
    }

    /// Replaces the ids in the slots by references, and by null where no object has the id.
    fn resolve(&mut self, objects: &Objects, heap: &mut UnsealedHeap)
        ensures { self.new.count ≡ 0 }
    {
        let references = objects.references_to(&self.ids);
        for i in 0..self.count {
            let reference = references[i];
            if reference == 0 && self.ids[i] != 0 {
                self.unresolved = self.unresolved.saturating_add(1);
            }
            heap.put(self.slots[i], reference);
        }
        self.count = 0;
    }

    /// Resolves the last batch, and returns how many ids belong to no object.
    pub(super) fn end(mut self, objects: &Objects, heap: &mut UnsealedHeap) -> u64 {
        self.resolve(objects, heap);
        self.unresolved
    }
}
