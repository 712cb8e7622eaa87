//! Why marked objects are not listed.
ghost use Rattle.std.specs.Prelude.{◌≡◌};
ghost use Rattle.coded_marking.specs.declared.list_error.ListError.TheVariants.{Memory};

use std::alloc::{AllocError, AllocFailed};
use std::error::Error;
use std::fmt;

/// Why marked objects are not listed.
#[derive(Debug, Clone, Copy, PartialEq, Eq)]
pub enum ListError {
    /// Memory ran out.
    Memory,
    /// An object has 2^32 words or more by its header.
    TooLarge {
        /// The address of the object, in words.
        address: u64,
    },
}

impl fmt::Display for ListError {
    fn fmt<W: fmt::Write>(&self, f: &mut fmt::Formatter<W>) -> fmt::Result {
        match self {
            ListError::Memory => f.write_str("memory ran out"),
            ListError::TooLarge { address } => {
                write!(f, "the object at address {address} has 2^32 words or more")
            }
        }
    }
}

impl Error for ListError {}

impl From<AllocError> for ListError {
    ghost from_gives = { λ _ error. error ≡ Memory };

    fn from(_refused: AllocError) -> ListError {
        ListError::Memory
    }
}

impl<T: Drop> From<AllocFailed<T>> for ListError {
    ghost from_gives = { λ _ error. error ≡ Memory };

    fn from(_refused: AllocFailed<T>) -> ListError {
        ListError::Memory
    }
}
