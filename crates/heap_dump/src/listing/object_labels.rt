//! The labels of the objects of a heap.
use super::class_names::ClassNames;
use dump_objects::{CLASS_OBJECTS, Inventory, Texts, UnsealedHeap, size};
use std::alloc::{AllocError, Global};

/// What a dump says of an object beside its values.
#[derive(Clone, Copy)]
pub struct Label {
    /// The id in the dump, which is the address in the machine.
    pub id: u64,
    /// How many words it has in the machine, as far as the ids tell.
    pub machine_words: u64,
    /// The number of its class.
    pub class: u32,
}

impl Label {
    /// Before the object is read.
    pub(crate) const NONE: Label = Label {
        id: 0,
        machine_words: 0,
        class: 0,
    };
}

/// The label of each object, in the order of addresses, and the names of the classes. It is empty unless classes are
/// wanted.
#[derive(Drop)]
pub(crate) struct ObjectLabels {
    pub(crate) labels: Vec<Label>,
    pub(crate) names: ClassNames,
}

impl ObjectLabels {
    /// Names the classes of these labels. Class objects become instances of `java.lang.Class`, if that is loaded.
    pub(crate) fn of(
        alloc: Global,
        inventory: &Inventory,
        labels: Vec<Label>,
        texts: Texts,
    ) -> Result<ObjectLabels, AllocError> {
        let names = ClassNames::of(alloc, inventory, texts)?;
        let mut labels = labels;
        let number = names.number_of_class_objects();
        for label in labels.as_mut_slice() {
            if label.class == CLASS_OBJECTS {
                label.class = number;
            }
        }
        Ok(ObjectLabels { labels, names })
    }

    /// Keeps the labels of the objects at these addresses, which ascend. The objects of the heap have no gaps.
    pub(crate) fn keep(&mut self, heap: &UnsealedHeap, survivors: &[u64]) {
        let mut at = 0u64;
        let mut kept = 0usize;
        self.labels.retain(|_| {
            let is_kept = survivors.get(kept).copied() == Some(at);
            kept = kept.saturating_add(usize::from(is_kept));
            at = at.saturating_add(size(heap.word(at)).max(1));
            is_kept
        });
    }
}
