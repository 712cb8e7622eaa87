//! How a worker fills one region, and what is left to do once all regions are filled.
//!
//! A [`Filler`] takes a region that was claimed, with its ticket, writes the region's moved words, puts it back and
//! completes it. It works over a desk, whose board keeps the regions: a claimed one is the worker's own, and each source
//! is read through a share, so no call tests in which state a region is. Live words move in runs: a run is a maximal
//! sequence of live words. The mark bits are searched 64 at a time, and one call copies a run. A region after the dense
//! prefix gets its own words first, then those of each other source, in ascending order, and each of these is drained;
//! then the references of the objects that lie wholly in the region are redirected in place. A region of the prefix
//! keeps its live words and gets fillers in its gaps.
//!
//! Opaque objects have neither headers nor references to redirect. An image says where they lie and go, and the board has
//! their words, which are only slid: nothing in them is read or changed, and a region of the prefix is left as it is.
//!
//! An object whose new words cross the end of the region in which they begin is deferred: it is moved with its old
//! references. [`update_deferred`] redirects them once all regions are filled, and [`clear_above`] zeroes the words from
//! the new top up. An [`Updater`] is who redirects them: the caller [`Alone`](thread_row::Alone), or
//! [`Many`](thread_row::Many) threads.
//!
//! **Proved**, for every valid image and a board that keeps its regions: no fill fails, and a region that is filled has its
//! moved words, word for word; its worker has made the drains of its other sources and its completion, and no other call,
//! and has reported exactly the sources whose drain returned `Last`; [`update_deferred`], followed by [`clear_above`], turns
//! the moved words into the compaction's; no call reads or writes outside its regions, and each returns, if the desk does.
//! A fill of opaque objects does the same with the words that the board keeps, whatever they are: each live word is at its
//! new address as it was, and where none goes the word is the one that was there.
//! [`opaque_words_slide`] and [`opaque_regions_slide`] are laws of these words, for callers' proofs.
//! **Only tested**: how many words are noted before each drain, and into how many parts the update is split. **Not
//! stated**: how fast a call is.
#![tactic(auto)]

mod cleanup;
mod laws;
mod region;

pub use cleanup::clear::clear_above;
pub use cleanup::deferred::update_deferred;
pub use cleanup::updater::Updater;
pub use laws::{opaque_regions_slide, opaque_words_slide};
pub use region::filling::Filler;
