//! Laws of the definitions.
//!
//! A law is a function without a body whose contract is the theorem. A function that calls it may use the theorem in its
//! own proof. [`plan_laws`] has what proofs of other crates use, and is their only way to it. The modules have theorems
//! for readers, by subject.
ghost use Rattle.summary.specs.PlanLaws.{PlanLaws};

use heap_image::live_laws;

pub mod compaction;
pub mod deferred_objects;
pub mod dense_prefix;
pub mod live_words;
pub mod new_addresses;
pub mod plans;
pub mod readers;
pub mod region_data;
pub mod word_moves;

/// What proofs of other crates use of live words, their new addresses, regions, fillers and the compacted image.
#[inline]
pub fn plan_laws()
    ensures { PlanLaws }
{
    live_laws();
}
