//! A heap as lines that a person can write, read and compare.
//!
//! [`write_text`] writes an image as a text: a head, and then a line for each live object and each dead run, by ascending
//! address. [`assemble`] makes the image of a text in memory, [`assemble_from`] of one that an
//! [`Intake`](heap_image::Intake) gives. Each image has one text, and only that is accepted; an error says which line of a
//! rejected text should be different, and how. `docs/FORMATS.md`, "Heap text", has the grammar.
//!
//! **Proved**, for all inputs: `write_text` returns the text of the image, and no two valid images have the same text
//! ([`one_text`]); `assemble` and `assemble_from` reject the text of a valid image only if memory or the device fails; the text
//! of an image that they return is exactly the input, up to its end, so the image is the only one with this text; an error names
//! a line of the text, or the line after its last; an error of the device comes only where the device has failed; no call
//! indexes out of range, overflows or runs forever. **Only tested**: which errors come, and what they say. See the README.
#![tactic(auto)]

mod assembling;
mod error;
mod expected;
mod image_bytes;
mod laws;
mod line_parser;
mod lines;
mod parsed_heap;
mod reading;
mod spelling;
mod text_parser;
mod word_list;
mod word_row;
mod writing;

pub use assembling::{assemble, assemble_from};
pub use error::{AssembleError, TextError};
pub use expected::Expected;
pub use laws::one_text;
pub use writing::write_text;
