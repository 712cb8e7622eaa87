//! Pictures of a schedule: which worker had which region in hand, line by line.
//!
//! A [`Timeline`] is a schedule that the word machine of an image accepts. It has a [`Bar`] for each granted region,
//! from the line of its claim to the line of its settling, and a [`Freeing`] for each drain after which the source has
//! no pending readers, with the call that claims that source. It prints as text for a terminal, as SVG, and as a page
//! that steps through the lines.
//!
//! `docs/COMMANDS.md`, "timeline", defines what is shown and how it is printed.
//!
//! **Proved**, for all images and schedules: the bars and marks are those of `specs/Timeline.antt` for the legal
//! history that the word machine finds, and a refused line is reported as by `history::replay`; the figures are the
//! counts of `specs/TimelineFigures.antt` and are in the first line of the text; a page contains the schedule's text.
//! **Only tested**: the lanes, the SVG, the page's script, and that allocations succeed when memory is available. See
//! the README.
#![tactic(auto)]

mod drawing;
mod entry_at;
mod figures;
pub mod laws;
mod names;
mod page;
mod strips;
mod timeline;

pub use figures::TimelineFigures;
pub use names::Names;
pub use page::heap_words;
pub use timeline::Timeline;
pub use timeline::bar::Bar;
pub use timeline::call::Call;
pub use timeline::ending::Ending;
pub use timeline::freeing::Freeing;
