//! How a host codes its objects, in numbers: what a header says of its object, and which words are references.
//!
//! An [`ObjectLayout`] has the numbers as a host gives them, and a [`LayoutFault`] says why they fit no heap. An
//! [`ObjectCoding`] has numbers that fit a heap, and reads and writes its headers and references. No call allocates memory.
//!
//! **Proved**: the exact result of each call, by the definitions of `object_heap/specs/Layout.antt`. How fast the calls are
//! is neither proved nor tested.
#![tactic(auto)]

mod laws;
mod layout_fault;
mod object_coding;
mod object_layout;

pub use laws::layouts_without_faults_fit;
pub use layout_fault::LayoutFault;
pub use object_coding::ObjectCoding;
pub use object_layout::{ALL_REFERENCES, FIRST_REFERENCES, NO_REFERENCES, ObjectLayout};
