//! The regions of a heap while many workers compact it: each may be read by many at the same time, or written by one.
//!
//! [`Cells::of`] moves each region to fill into a cell; no one writes the others, which stay as they are.
//! [`Cells::read`] opens a region for reading, as a [`Source`], with an opening from the board; [`Cells::write`] takes
//! one out of its cell for writing, as a [`Target`], with a right from the board. [`Cells::into_regions`] returns the
//! regions once those to be filled have moved, and [`Cells::into_image`] the image while none has.
//!
//! A cell holds its region in its original state, moved, or spoiled. Only an original region can be read. Only
//! [`Target::put`] makes one moved, and it requires the moved words. No one sees the words of a spoiled region. No call
//! waits for a reader or a writer to finish: a call at the wrong time returns fault 15 and gives up its opening or
//! right. So does a write of a region that is not to be filled.
//!
//! # What a contract sees
//!
//! Cells are viewed as the image that they were made from. A source is viewed as the image and its opening, which
//! determine its words: the region's original ones. A target is viewed as the image, its right and its current words.
//!
//! # What is proved
//!
//! A region is read only while no one writes it, and has one writer at a time; each region that a source shows has its
//! original words; if [`Cells::into_regions`] returns regions, they are those of the moved heap, in whatever order the
//! calls ran; and if memory runs out the image comes back unchanged. No contract says which state a cell has at any
//! moment, so none says when fault 15 comes.
//!
//! # What is only tested
//!
//! When fault 15 comes, that two threads read one region at the same time, and that calls succeed.
#![tactic(auto)]

mod cells;
mod kept;
mod placed;
mod slots;
mod source;
mod target;

pub use cells::Cells;
pub use heap_image::ImageParts as Parts;
pub use placed::Placed;
pub use source::Source;
pub use target::Target;
