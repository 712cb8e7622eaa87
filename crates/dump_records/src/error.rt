//! The errors of an import.
ghost use Rattle.std.specs.Prelude.{◌≡◌};
ghost use Rattle.dump_records.specs.declared.error.ImportError.TheVariants.{Input, Memory};

use heap_image::{Failed, Fault};
use std::alloc::{AllocError, AllocFailed};
use std::fmt;
use thiserror::Error;

/// What is wrong at some byte of a dump.
#[derive(Debug, Clone, Copy, PartialEq, Eq)]
pub enum Problem {
    /// The dump begins with the name of no supported version of the format.
    Name,
    /// The size of ids is neither 4 nor 8 bytes.
    IdSize(u32),
    /// The dump ends inside a record, or in its head.
    Cut,
    /// A value extends past the end of its record.
    PastRecord,
    /// The tag of a record of the heap is unknown.
    HeapTag(u8),
    /// The type of a field or an array is unknown.
    Type(u8),
    /// An array of primitive values has references as elements.
    NotPrimitive,
    /// An object has id 0, which is null.
    NullObject,
    /// An object has the id of an earlier one.
    SecondObject(u64),
    /// The class of an object or one of its superclasses is missing from the dump, or the superclasses form a cycle.
    NoClass,
    /// The number of bytes of an instance differs from that of the fields of its class.
    InstanceSize(u32),
    /// The dump has no heap.
    NoHeap,
    /// The dump has segments of a heap, but not the record that ends the heap.
    NoEnd,
    /// The second reading of the dump differs from the first.
    Changed,
}

impl fmt::Display for Problem {
    fn fmt<W: fmt::Write>(&self, f: &mut fmt::Formatter<W>) -> fmt::Result {
        f.write_str(match self {
            Problem::Name => "this is no heap dump of version 1.0.1 or 1.0.2",
            Problem::IdSize(bytes) => return write!(
                f,
                "ids of {bytes} bytes, where 4 or 8 are read"
            ),
            Problem::Cut => "the dump ends here, inside a record",
            Problem::PastRecord => "this goes beyond the length of its record",
            Problem::HeapTag(tag) => return write!(f, "tag {tag} is that of no record of a heap"),
            Problem::Type(number) => return write!(f, "type {number} is none of the format's"),
            Problem::NotPrimitive => "an array of references is told as one of primitive values",
            Problem::NullObject => "an object with id 0, which is null",
            Problem::SecondObject(id) => return write!(f, "a second object with id {id}"),
            Problem::NoClass =>
                "the class of this object, or one above it, is not in the dump or is above itself",
            Problem::InstanceSize(bytes) => return write!(
                f,
                "an instance of {bytes} bytes, where the fields of its class have another number"
            ),
            Problem::NoHeap => "the dump ends without a heap",
            Problem::NoEnd => "the dump ends without the end of its heap",
            Problem::Changed => "the dump changed while it was read",
        })
    }
}

impl std::error::Error for Problem {}

/// Why [`import`](crate::import) returns no image.
#[derive(Debug, Clone, Copy, PartialEq, Eq, Error)]
pub enum ImportError {
    /// The dump is malformed.
    #[error("byte {offset}: {problem}")]
    Malformed {
        /// The offset in bytes.
        offset: u64,
        problem: Problem,
    },
    /// The heap has more words than an image may have.
    #[error("the heap has {words} words, and {most} are the most; with --live-only it has {live_words}")]
    TooManyWords {
        /// The number of words of the heap.
        words: u64,
        /// The most words that an image may have with regions of the requested size.
        most: u64,
        /// The number of words of the reachable objects.
        live_words: u64,
    },
    /// The reachable objects have more words than an image may have.
    #[error("the reachable objects have {words} words, and {most} are the most")]
    TooManyLiveWords {
        /// The number of words of the reachable objects.
        words: u64,
        /// The most words that an image may have with regions of the requested size.
        most: u64,
    },
    /// The requested region log is below 3, or above that of the version.
    #[error("region log {region_log}, where 3 to {most} are allowed")]
    RegionLog {
        /// The requested region log.
        region_log: u32,
        /// The largest region log that the version allows.
        most: u32,
    },
    /// Version 1 is requested, whose images have no roots.
    #[error("version 1 has no roots, where those of the dump are needed")]
    NoRoots,
    /// There are more roots than an image can count: 2^32 or more.
    #[error("the heap has {0} roots, and 4294967295 are the most")]
    TooManyRoots(u64),
    /// An object has more references than a header can count: 2^24 or more.
    #[error("an object has {0} references, and 16777215 are the most")]
    TooManyReferences(u64),
    /// The dump could not be read.
    #[error("the dump could not be read")]
    Input,
    /// Memory was refused.
    #[error("memory was refused")]
    Memory,
    /// The result is no valid heap. This comes only if the two readings of the dump differ.
    #[error("what was read is no heap: {0}")]
    NoHeap(Fault),
}

impl From<AllocError> for ImportError {
    ghost from_gives = { λ _ error. error ≡ Memory };

    fn from(_refused: AllocError) -> ImportError {
        ImportError::Memory
    }
}

impl<T: Drop> From<AllocFailed<T>> for ImportError {
    ghost from_gives = { λ _ error. error ≡ Memory };

    fn from(_refused: AllocFailed<T>) -> ImportError {
        ImportError::Memory
    }
}

impl From<Failed> for ImportError {
    ghost from_gives = { λ _ error. error ≡ Input };

    fn from(_failed: Failed) -> ImportError {
        ImportError::Input
    }
}
