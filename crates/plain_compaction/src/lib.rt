//! The compaction of an image as a plain slow program, for tests to compare with. No program of this repository calls it.
//!
//! [`compact_plainly`] computes each word of the compacted image by its definition, and keeps no tables. Its result is
//! proved to be the compaction of the definitions, word for word. Its time grows with the number of heap words times the
//! number of live objects.
//!
//! [`roots_change_nothing_else`] is a law: words, live list and figures of a collection don't depend on the roots.
#![tactic(auto)]

mod laws;
mod plainly;

pub use laws::roots_change_nothing_else;
pub use plainly::compact_plainly;
