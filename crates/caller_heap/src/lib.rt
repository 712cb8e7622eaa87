//! Collections of a heap whose words the caller keeps, in the caller's thread. No call starts a thread or waits.
//!
//! Proved: that the words and the live addresses or roots are those of the compaction afterwards, or after a fault as they
//! were. A call works on a copy of the words, and copies them back, but for those over lent words, which copy none.
//!
//! A slide of opaque objects, by [`begin_slide`] and [`end_slide`], works on lent words too: proved is where each word lies
//! afterwards. Until it begins threads can share it as a [`PlannedSlide`], to redirect what leads to its words.
#![tactic(auto)]

mod collection;
mod heap_words;
mod lending;
mod lent_check;
mod lent_collection;
mod lent_slide;
mod part;
mod planned_slide;
mod reading;
mod settings;
mod slots;

pub use collection::{collect_words, put_tail, put_words};
pub use heap_words::front_of;
pub use lending::image_of_lent;
pub use lent_check::{begin_check_lent, check_of_lent, end_check_lent};
pub use lent_collection::{begin_lent, collect_lent_words, end_lent_words, suits};
pub use lent_slide::{SlideBack, begin_slide, end_slide};
pub use part::{Origin, Part, boxed_parts};
pub use planned_slide::PlannedSlide;
pub use reading::image_of_heap;
pub use settings::HeapSettings;
pub use slots::{SlotCoding, redirect_slots};
