//! A full collection by many workers. It passes on the calls of `verification`, the check of a collected image, and of
//! `ready_queues`, the queues of the workers.
//!
//! - [`collect`] compacts an image with 1 to 64 workers, each in a thread of its own if one can be started.
//!   [`collect_stream`] does so from bytes to bytes.
//! - [`collect_alone`] compacts an image in the caller's thread alone. It starts no thread, and never waits.
//! - [`Session`] compacts an image by workers that run by calls: [`Session::prepare`] returns a
//!   [`Share`] for each, [`Share::new_place`] says where a word will go, [`Share::work`] fills regions, and [`Share::end`]
//!   returns the compaction.
//! - [`Slide`] is a collection of opaque objects, of which only addresses and sizes are known: [`Slide::plan`] says where each
//!   word will go, [`Slide::begin`] takes the words and returns a [`Share`] for each worker, and [`Share::end_slide`] returns
//!   them.
//! - [`record`] collects as `collect` does, and returns the schedule of everything that the workers did.
//!   [`record_stream`] does so from bytes to bytes.
//! - [`Gate`] admits each fill and is notified of its completion. [`OpenGate`] refuses nothing.
//! - [`an_upgrade_is_collected_alike`] is the law that a heap is collected alike in both versions.
//!
//! # What is proved
//!
//! A slide takes each live word of the regions to where the plan says, and changes no other word; its plan depends on
//! where the objects lie alone.
//!
//! If `collect` succeeds, it returns the compaction of the image and its figures, and a finished board whose history is
//! legal for the image's moves, with one grant, one completion and one settling of each region to fill and one drain of
//! each pair, for every number of workers and every interleaving. A clause states the cause of each refusal, and `Kept`
//! returns the image unchanged. `collect_alone` keeps the same promises for one worker. If the end of a session
//! succeeds, it returns the compaction and its figures, whatever calls of its shares came before. If `collect_stream`
//! succeeds, it has read all of its input, the text of an image, and written the text of its compaction; it writes
//! nothing before a collection has succeeded. If `record` succeeds, it returns the compaction too, and a schedule that
//! the word machine allows and that settles all regions to fill; `record_stream` writes the texts of both, and nothing
//! before `record` has succeeded.
//!
//! `collect` and `collect_alone` lose an image only to a gate that refuses a region, and a gate refuses only where it states
//! that it may. A session loses it only if its end isn't given all shares. The regions go from the board to the worker
//! and back by the board's own steps, so no worker ever finds one in a wrong state. What the workers leave, for whatever
//! reason, the caller's thread fills.
//!
//! # What is only tested, or not stated
//!
//! That a collection ends, and that several threads run. That the fault returned is the lowest worker's: this is proved of the
//! function that picks it, and stated by no public contract. That the schedule of `record` is what its own workers did,
//! and so that fault 14 never comes: tests force orders by a gate. That the workers of `record` begin together: a test
//! counts those that have a share of a small heap. No contract says how long a call takes.
#![tactic(auto)]

mod collection;
mod gate;
mod laws;
mod outcome;
mod session;
mod slide;
mod workers;

pub use collection::recording::{record, record_stream};
pub use collection::{collect, collect_alone, collect_stream};
pub use gate::{Gate, OpenGate};
pub use laws::an_upgrade_is_collected_alike;
pub use outcome::{Figures, Outcome, Refusal};
pub use ready_queues::{Ready, Thief};
pub use session::Session;
pub use session::new_place::NewPlace;
pub use session::progress::Progress;
pub use session::share::Share;
pub use slide::{RefusedSlide, Slide};
pub use verification::{
    ExplainedWord, Explanation, Found, LISTED, Lead, Moved, OtherLive, OtherRoot, OtherWord, Part,
    Verdict, Verifier, explain, verify, verify_below_top,
};
pub use workers::Workers;
