//! Pictures of a heap before and after its collection.
//!
//! A [`Map`] divides a heap into cells in address order. A [`Cell`] has the number of its live words and the [`Area`]
//! in which it lies: the dense prefix with or without fillers, the moving part, or free space. [`Map::after`] computes
//! this for the compacted heap from the marks and the plan, without moving a word. A [`Picture`] has one or both maps
//! and the figures; it prints as text for a terminal and as SVG.
//!
//! `docs/COMMANDS.md`, "map", defines cells, shades and areas, and how they are printed.
//!
//! **Proved**, for all images: each word is in exactly one cell; the live words and the area of a cell are those of
//! `specs/Cells.antt`, for the heap as it is and for its compaction as `summary` defines it; the counts of all cells
//! add up to the live words; the figures are those of the image; the text is that of `specs/Text.antt`. **Only
//! tested**: the SVG, and that allocations succeed when memory is available. See the README.
#![tactic(auto)]

mod area;
mod areas;
mod band;
mod bands;
mod cell;
mod drawing;
mod figures;
pub mod laws;
mod map;
mod names;
mod patterns;
mod picture;
mod shade;
mod strips;
mod style;
mod tenths;

pub use area::Area;
pub use band::Band;
pub use bands::{Bands, MAX_BANDS};
pub use cell::Cell;
pub use figures::MapFigures;
pub use map::{MAX_CELLS, Map};
pub use names::write_name;
pub use picture::Picture;
pub use shade::Shade;
pub use style::{Glyphs, Shape, Style};
