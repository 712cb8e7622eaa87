//! Heap dumps of Java virtual machines as images.
//!
//! [`import`] reads a dump in the HPROF format, version 1.0.1 or 1.0.2, twice, and makes an image of version 2 or 3 of it.
//! `docs/DUMPS.md` says what is read and where it is in the image.
//!
//! **Proved**, for all inputs: the image is valid and has the requested version, region log and allowance, and its roots ascend;
//! at Ok both readings are at the end of the dump; an input error comes only where a device has failed; no call indexes
//! out of range, overflows or runs forever. **Only tested**: that the objects, references and roots are those of the
//! dump. See the README.
#![tactic(auto)]

mod dead_words;
mod figures;
mod heap;
mod importing;
mod limits;
mod listing;
mod options;
mod totals;
mod transcription;

pub use dead_words::DeadWords;
pub use dump_objects::Followed;
pub use dump_records::{ImportError, Problem};
pub use figures::ImportFigures;
pub use heap::draft::Imported;
pub use importing::{ListedImport, import, import_listed};
pub use listing::ListedObject;
pub use listing::class_names::ClassNames;
pub use options::Options;
pub use totals::{ClassTotals, Totals};
