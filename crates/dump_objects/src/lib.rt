//! The classes and the objects of a heap dump, and the words of their heap.
//!
//! [`Inventory::of`] reads a dump for the first time: it keeps the classes, the sizes of the objects by their ids, and the roots.
//! An [`UnsealedHeap`] has the words, in an [`Arrangement`]; it may be larger than an image. [`Survivors`] are what its roots
//! reach.
//!
//! **Proved**, for all inputs: at Ok a reading is at the end of the dump; an input error comes only where a device has failed; no
//! call indexes out of range, overflows or runs forever. **Only tested**: that objects, classes and roots are those of the
//! dump. See the README.
#![tactic(auto)]

mod heap;
mod inventory;
mod live_only;
mod values;

pub use heap::arrangement::{Arrangement, Gaps, machine_words};
pub use heap::weak_reference::WeakReference;
pub use heap::{UnsealedHeap, first_word, size};
pub use inventory::Inventory;
pub use inventory::class_number::{CLASS_OBJECTS, UNKNOWN_ARRAYS};
pub use inventory::classes::{Class, Classes};
pub use inventory::known_classes::{Followed, KnownClasses};
pub use inventory::name_ids::{NameId, NameIds};
pub use inventory::objects::{
    ARRAY_PADDING, CLASS_PADDING, INSTANCE_PADDING, Object, Objects, Place,
};
pub use inventory::texts::{TextPlace, Texts};
pub use live_only::survivors::Survivors;
pub use values::{ValueVisitor, Values};
