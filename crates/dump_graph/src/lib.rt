//! Heap dumps of Java virtual machines as graphs that can be compared.
//!
//! [`read_graph`] reads a dump twice: first its classes and the sizes of its objects, as an import does, then their references and data.
//! [`number_classes`] gives the classes of two dumps common numbers, by their names.
//!
//! The references that an object of `java.lang.ref.Reference` hides from the collector count as null, where the names of the dump come
//! before its heap.
//!
//! **Proved**, for all inputs: at Ok a reading is at the end of the dump; an input error comes only where a device has failed; no
//! call indexes out of range, overflows or runs forever. **Only tested**: that objects, references, roots and names are those of the
//! dump. See the README.
#![tactic(auto)]

mod names;
mod reading;
mod tracing;

pub use names::number_classes;
pub use reading::{DumpGraph, read_graph};
