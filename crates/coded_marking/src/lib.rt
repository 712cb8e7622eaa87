//! Marks the objects that a host's roots reach, in a heap of objects of the host's own layout, in one thread.
//!
//! A [`CodedHeap`] is the host's words with what its headers and references say. A [`Marking`] takes all its memory before the
//! first mark, so that no call of `mark` can run out of memory. Roots may come in any number of calls. What is marked can be
//! asked for by address, and listed.
//!
//! **Proved**: the marks are exactly the addresses that the roots reach, whatever the size of the stack; each marked object has
//! a sound header; the exact result of each other call. How fast the calls are is neither proved nor tested.
#![tactic(auto)]

mod coded_heap;
mod list_error;
mod live_objects;
mod marking;
mod tracing;
mod unsound;
mod waiting;

pub use coded_heap::CodedHeap;
pub use list_error::ListError;
pub use live_objects::LiveObjects;
pub use marking::Marking;
pub use unsound::Unsound;
