//! Finds the live objects of a heap from roots, and tells whether all of them are sound, in one thread or in several.
//!
//! A [`Marker`] is who marks, lists what is marked, and checks the live objects: the caller [`Alone`](thread_row::Alone), or
//! [`Many`](thread_row::Many) threads. One thread follows references with an explicit stack. Several mark in rounds, in which
//! each marks in parts of the heap of its own and sends to the others what leads there, as long as rounds pay; one thread
//! goes on from the marks so far. [`Marked`] says whether each marked object is known to be well-formed. [`sizes_if_sound`]
//! tells the sizes of the live objects if all of them are sound; it names no fault.
//!
//! **Proved**: the exact result of each call; the marks are exactly the reachable addresses, whatever the number of threads.
//! **Only tested**: that several threads work, and that this is faster.
#![tactic(auto)]

mod laws;
mod live_list;
mod marker;
mod marking;
mod noted_pieces;
mod references;
mod soundness;

pub use laws::marks_are_listed;
pub use marker::Marker;
pub use marking::Marked;
pub use noted_pieces::NotedPieces;
pub use references::mark_references;
pub use soundness::{PIECE, is_null_or_live, sizes_if_sound};
