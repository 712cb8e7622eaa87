//! Random heaps as images, for benchmarks and experiments.
//!
//! [`generate`] makes the heap that a [`Wanted`] describes: its number of words, the percentage of live words, the
//! percentage of references among an object's words, and the seed of its random numbers. Objects have various sizes,
//! mostly small; live and dead ones are in random order, and references lead to random live objects. `docs/GENERATE.md`
//! defines the words of each seed.
//!
//! **Proved**, for all inputs: the image is valid and has the requested version, region log, number of words and
//! allowance; exactly the requested percentage of its words, rounded down, is live; its figures are right; no call
//! indexes out of range, overflows or runs forever. **Only tested**: that the words are those of `docs/GENERATE.md`, so
//! the same for one seed on every machine; and that [`GenerationError::Defect`] never comes. See the README.
#![tactic(auto)]

mod dice;
mod error;
mod figures;
mod generating;
mod heap_size;
mod heap_words;
mod layout;
mod limits;
mod object;
mod regions;
mod room;
mod shrinking;
mod wanted;

pub use error::GenerationError;
pub use figures::GenerationFigures;
pub use generating::{Generated, generate};
pub use heap_size::HeapSize;
pub use shrinking::{Smaller, next_smaller};
pub use wanted::Wanted;
