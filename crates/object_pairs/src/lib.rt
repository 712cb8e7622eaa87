//! Which objects of a heap before and after a collection are the same, and where they are.
//!
//! [`pair_objects`] walks two [`Graph`]s at once, from their roots. [`Comparison::of`] says what follows from the pairs: which
//! references and data differ, and, for each space of the heap before, which objects stayed, which moved, whether their order is
//! kept, where holes are, and where the prefix ends that stayed.
//!
//! **Proved**, for all graphs: an object has one partner at most, of its class and size; the figures of each space are the counts that
//! `specs/` defines; no call indexes out of range, overflows or runs forever. **Only tested**: which objects are paired.
#![tactic(auto)]

mod comparison;
mod figures;
mod graph;
mod json;
mod moves;
mod paired;
mod pairing;
mod report;
mod spaces;
mod text;

pub use comparison::{Comparison, Verdict};
pub use figures::SpaceFigures;
pub use graph::{Graph, Object, Root};
pub use moves::{Move, moves_in};
pub use paired::Paired;
pub use paired::conflict::Conflict;
pub use pairing::Pairing;
pub use pairing::walk::pair_objects;
pub use report::{Manner, Report, compare_heaps};
pub use spaces::starts_of;
