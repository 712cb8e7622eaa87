//! What may be wrong with the numbers of a layout.
use std::error::Error;
use std::fmt;

/// Why the numbers of an [`ObjectLayout`](crate::ObjectLayout) fit no heap of the wanted size. Of several faults the one
/// that comes first here is told.
#[derive(Debug, Clone, Copy, PartialEq, Eq)]
pub enum LayoutFault {
    /// The size isn't a field of a header: `size_shift` or `size_bits` is above 63, or their sum above 64.
    SizeField,
    /// The size has too few bits to count the units of 2,147,483,648 words.
    NarrowSize,
    /// The type has more than 8 bits or isn't a field of a header, as in [`SizeField`](LayoutFault::SizeField).
    TypeField,
    /// The number of the first references isn't a field of a header, as in [`SizeField`](LayoutFault::SizeField).
    FirstField,
    /// A mode is above 2.
    Mode,
    /// `unit` is above 63, or the addresses end beyond 2^64: `base + 2^unit * words` is more.
    Addresses,
    /// The tag of a filler isn't 0 where the size is.
    FillerTag,
    /// The size of a filler doesn't read back: `filler_less` is above `size_more` or above a word's units, or `size_more` is
    /// not below their sum.
    FillerSize,
}

impl fmt::Display for LayoutFault {
    fn fmt<W: fmt::Write>(&self, f: &mut fmt::Formatter<W>) -> fmt::Result {
        f.write_str(match self {
            LayoutFault::SizeField => "the size is no field of a header",
            LayoutFault::NarrowSize => "the size has too few bits",
            LayoutFault::TypeField => "the type is no field of a header, or has more than 8 bits",
            LayoutFault::FirstField => "the number of the first references is no field of a header",
            LayoutFault::Mode => "a mode is above 2",
            LayoutFault::Addresses => "the addresses end beyond 2^64",
            LayoutFault::FillerTag => "the tag of a filler isn't 0 where the size is",
            LayoutFault::FillerSize => "the size of a filler doesn't read back",
        })
    }
}

impl Error for LayoutFault {}
