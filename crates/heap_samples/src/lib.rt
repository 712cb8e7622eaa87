//! Heaps that the tests of several crates share: the base heap of docs/HEAP.md, its compaction, builders of texts
//! and images, seeded numbers and a slow reader. They have no contracts.
#![tactic(auto)]

mod heaps;
mod seed;
mod trickle;

pub use heaps::{
    BASE_LIVE, BASE_ROOTS, BASE_WORDS, Base, DEAD, MOVED_LIVE, MOVED_ROOTS, MOVED_WORDS, Object,
    Settings, base_image, image_of, image_text, plain_words, rooted_text,
};
pub use seed::Seed;
pub use trickle::Trickle;
