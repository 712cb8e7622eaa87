//! What a collection will do to a heap: where the dense prefix ends, where each live object goes, and what each region
//! holds and reads.
//!
//! [`Plan::of`] makes the plan of an image from its marks. A [`Surveyor`] is who counts the regions: the caller
//! [`Alone`](thread_row::Alone), or [`Many`](thread_row::Many) threads. A plan takes memory for each region and 2 bytes for
//! each 64 words of the heap, and keeps the live bits of the marks, too. Its queries allocate
//! nothing and are look-ups, except [`Plan::reads`], which steps from region to region. One count of bits redirects a
//! reference, whether it is null, leads into the dense prefix or leads to an object that slides.
//!
//! The definitions are in `specs/`. [`laws`] has theorems about them, by subject: for example, live objects keep their
//! order and don't overlap, only live words lie between the prefix end and the new top, each reference still leads to
//! the same object, and the compacted heap is valid.
//!
//! # What a contract sees
//!
//! A contract sees a plan as the image that it was made of, as it was then: `plan.now ≡ image.now` says that this is
//! the plan of this image, and each query returns what the definitions say about the image.
//!
//! # What is proved
//!
//! Each law, and that each function returns exactly what the definitions say. Only tested, or in no contract: that
//! allocations succeed, the number of threads that count, and the time that a call takes.
#![tactic(auto)]

pub mod laws;
mod plan;
mod reads;
mod region_data;
mod region_row;
mod region_table;
mod report_text;
mod stride;
mod survey;
mod surveyor;
mod word_places;

pub use plan::{Plan, report};
pub use reads::Reads;
pub use region_data::RegionData;
pub use stride::{FILLER_STRIDE, filler_limit};
pub use survey::Survey;
pub use surveyor::Surveyor;
pub use word_places::WordPlaces;
