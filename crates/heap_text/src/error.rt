//! Why a text is rejected.
ghost use Rattle.std.specs.Prelude.{◌≡◌};
ghost use Rattle.heap_text.specs.declared.error.TextError.TheVariants.{Memory};
ghost use Rattle.heap_text.specs.declared.error.AssembleError.TheVariants.{Device, Text};

use crate::expected::Expected;
use heap_image::Failed;
use std::alloc::AllocError;
use thiserror::Error;

/// Why [`assemble`](crate::assemble) returns no image.
#[derive(Debug, Clone, Copy, PartialEq, Eq, Error)]
pub enum TextError {
    /// Memory was refused.
    #[error("memory was refused")]
    Memory,
    /// This line, counted from 1, is missing or differs from what is expected.
    #[error("line {0}: expected {1}")]
    Line(u64, Expected),
}

impl From<AllocError> for TextError {
    ghost from_gives = { λ _ error. error ≡ Memory };

    fn from(_refused: AllocError) -> TextError {
        TextError::Memory
    }
}

/// Why [`assemble_from`](crate::assemble_from) returns no image.
#[derive(Debug, Clone, Copy, PartialEq, Eq, Error)]
pub enum AssembleError {
    /// The device failed.
    #[error("the device failed")]
    Device,
    /// The text is rejected, or memory was refused.
    #[error("{0}")]
    Text(TextError),
}

impl From<Failed> for AssembleError {
    ghost from_gives = { λ _ error. error ≡ Device };

    fn from(_failed: Failed) -> AssembleError {
        AssembleError::Device
    }
}

impl From<TextError> for AssembleError {
    ghost from_gives = { λ text error. error ≡ Text text };

    fn from(error: TextError) -> AssembleError {
        AssembleError::Text(error)
    }
}

impl From<AllocError> for AssembleError {
    ghost from_gives = { λ _ error. error ≡ Text Memory };

    fn from(_refused: AllocError) -> AssembleError {
        AssembleError::Text(TextError::Memory)
    }
}
