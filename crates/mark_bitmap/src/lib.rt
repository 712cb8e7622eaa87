//! Mark bitmaps of a heap image: where its live objects begin and end, and which words they occupy.
//!
//! [`Marks::of`] builds two bitmaps with a bit for each word of the heap from the live list: the begin bits of the first
//! words of live objects, and the live bits of all their words, which make counts fast. A live object ends before each
//! word that isn't live or begins the next. A [`MarkBuilder`] is who sets the live bits: the caller
//! [`Alone`](thread_row::Alone), or [`Many`](thread_row::Many) threads. No other call allocates memory.
//!
//! A contract sees [`Marks`] as the image that they were made of, as it was then: `marks.now ≡ image.now` says that
//! these are the marks of this image. The result of each query is stated by the definitions of `heap_image` for that
//! image.
//!
//! [`OpaqueObjects`] are objects of which only addresses and sizes are known, with their marks: those of an image whose
//! objects lie where these do, and refer to nothing. [`Listed`] is what a plan reads of either: where its objects lie.
//!
//! Proved: the exact result of each query, for every valid image, and the first fault of a list of opaque objects. Only tested: `of` returns an error if memory runs out,
//! and the number of threads. How fast the queries are is neither proved nor tested.
#![tactic(auto)]

mod laws;
mod listed;
mod live_shares;
mod mark_builder;
mod marks;
mod noted;
mod objects;
mod opaque_objects;
mod part_bits;
mod sizes;
mod surveyed;

pub use laws::{listed_image_is_valid, marked_image_is_valid};
pub use listed::Listed;
pub use mark_builder::MarkBuilder;
pub use marks::Marks;
pub use opaque_objects::{OpaqueHeap, OpaqueObjects};
pub use surveyed::Surveyed;
