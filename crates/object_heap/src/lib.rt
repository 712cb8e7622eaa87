//! A heap of objects in words: headers, live lists, what roots reach, and sets of addresses.
//!
//! A [`Heap`] is the words of a heap in regions, a [`Bits`] a set of addresses, and a [`Version`] says how large an image
//! may be. `specs/HeapImage.antt` defines what a heap with live objects is, when it is valid, and which addresses roots
//! reach. The laws are what other crates' proofs know of these.
//!
//! **Proved**: the exact result of each call, for all values that its contract allows.
#![tactic(auto)]

mod bits;
pub mod header;
mod heap;
mod laws;
pub mod limits;
mod version;

pub use bits::{Bits, ones_of};
pub use heap::{Heap, is_small};
pub use laws::{
    blocks_joined, coded_references_are_redirected, inserted_bit, layouts_are_lawful, live_laws,
    live_objects_are_reached, objects_without_faults, reachable_is_the_least_closed,
    regions_by_log, roots_are_null_or_live,
};
pub use version::Version;
