//! Whether an image is the compaction of another, and if not, how it differs.
//!
//! - [`verify`] says whether an image is the compaction of another, and if not, where it first differs: in its shape,
//!   its words, its live list or its roots. [`verify_below_top`] passes over the words above the top.
//! - [`explain`] says which words differ from the compaction's, in which objects, where wrong references lead and where
//!   wrong words stand, too, also for the words of a file that is no valid image. [`other_prefix`] says whether they are
//!   those of a collection with another dense prefix.
//!
//! Each is done by a [`Verifier`]: several threads, or the caller's alone.
//!
//! # What is proved
//!
//! `verify` returns `Same` exactly if the second image is the compaction of the first by the definitions of `summary`,
//! and otherwise the first difference; its only error is that memory runs out. `explain` returns the number of words
//! that differ, the first ten with what the compaction has there, and the last.
//!
//! # What is only tested, or not stated
//!
//! No contract says how long a call takes, nor that `verify` has enough memory.
#![tactic(auto)]

mod comparison;
mod comparison_explained;
mod difference;
mod difference_tally;
mod items;
mod prefix_comparison;
mod verdict;
mod verdict_explanation;
mod verifier;
mod verifying;

pub use comparison_explained::{Found, explain};
pub use difference_tally::{LISTED, OtherWord};
pub use prefix_comparison::other_prefix;
pub use verdict::Verdict;
pub use verdict_explanation::{
    ExplainedWord, Explanation, Lead, Moved, Origin, OtherLive, OtherPrefix, OtherRoot, Part,
};
pub use verifier::Verifier;
pub use verifying::{verify, verify_below_top};
