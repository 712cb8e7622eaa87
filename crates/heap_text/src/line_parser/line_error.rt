//! Why a single line is rejected.
ghost use Rattle.std.specs.Prelude.{◌≡◌};
ghost use Rattle.heap_text.specs.declared.line_parser.line_error.LineError.TheVariants.{Memory};

use crate::expected::Expected;
use std::alloc::{AllocError, AllocFailed};

/// Why a line is rejected. The caller adds the number of the line.
#[derive(Clone, Copy)]
pub(crate) enum LineError {
    /// Memory was refused.
    Memory,
    /// The line differs from the one that was expected.
    Expected(Expected),
}

impl From<AllocError> for LineError {
    ghost from_gives = { λ _ error. error ≡ Memory };

    fn from(_refused: AllocError) -> LineError {
        LineError::Memory
    }
}

impl<T: Drop> From<AllocFailed<T>> for LineError {
    ghost from_gives = { λ _ error. error ≡ Memory };

    fn from(_refused: AllocFailed<T>) -> LineError {
        LineError::Memory
    }
}

impl From<Expected> for LineError {
    fn from(expected: Expected) -> LineError {
        LineError::Expected(expected)
    }
}
