ghost use Rattle.std.specs.Prelude.{◌≡◌};
ghost use Rattle.image_streams.specs.declared.fault.Fault.TheVariants.{Memory};
ghost use Rattle.command_support.specs.Failure.{failure_of, generation_failure, text_failure};
ghost use Rattle.command_support.specs.declared.failure.Failure.TheVariants.{Fault};

use crate::difference::Difference;
use command_line::Unread;
use dump_records::ImportError;
use heap_image::{Fault, Version};
use heap_maker::GenerationError;
use heap_text::TextError;
use std::alloc::{AllocError, Global};

/// Why the program ends with a status other than 0.
#[derive(Drop)]
pub enum Failure {
    /// The words are no command. The text, in whole lines, says why.
    Usage(String),
    Fault(Fault),
    /// An image isn't the compaction of another one. This is the first difference.
    Differs(Difference),
    /// A heap dump gives no image.
    Dump(ImportError),
    /// No heap has the requested figures.
    Generation(GenerationError),
    /// A text isn't that of a heap.
    Text(TextError),
    /// An image has a later version than the one that is wanted.
    Later { version: Version, wanted: Version },
}

impl Failure {
    ghost use Rattle.command_support.specs.Failure.{out_of_memory, status_of};

    /// The failure of words that are no command, with this text.
    pub fn usage(alloc: Global, reason: &str) -> Result<Failure, AllocError> {
        Ok(Failure::Usage(String::from_str(alloc, reason)?))
    }

    /// The failure of words that give no request.
    pub fn of_unread(alloc: Global, unread: Unread) -> Failure
        ensures { unread ≡ Unread.Memory → result ≡ out_of_memory }
    {
        match unread {
            Unread::Usage(text) => Failure::Usage(text),
            Unread::NoCommand => match Failure::usage(alloc, "pcompact: no such command\n") {
                Ok(failure) => failure,
                Err(refused) => Failure::from(refused),
            },
            Unread::Memory => Failure::Fault(Fault::Memory),
        }
    }

    /// The exit status: 2 for words that are no command or request an impossible heap, else 1.
    pub fn status(&self) -> u8
        ensures { result ≡ status_of self.now }
    {
        match self {
            Failure::Generation(GenerationError::Defect) => 1,
            Failure::Usage(_) | Failure::Generation(_) => 2,
            Failure::Fault(_) | Failure::Differs(_) | Failure::Dump(_) | Failure::Text(_) => 1,
            Failure::Later { .. } => 1,
        }
    }
}

impl From<AllocError> for Failure {
    ghost from_gives = { λ _ failure. failure ≡ Fault Memory };

    fn from(_refused: AllocError) -> Failure {
        Failure::Fault(Fault::Memory)
    }
}

impl From<Fault> for Failure {
    ghost from_gives = { λ fault failure. failure ≡ Fault fault };

    fn from(fault: Fault) -> Failure {
        Failure::Fault(fault)
    }
}

/// A failed device is fault 13, and refused memory is fault 11.
impl From<ImportError> for Failure {
    ghost from_gives = { λ error failure. failure ≡ failure_of error };

    fn from(error: ImportError) -> Failure {
        match error {
            ImportError::Input => Failure::Fault(Fault::Io),
            ImportError::Memory => Failure::Fault(Fault::Memory),
            of_dump => Failure::Dump(of_dump),
        }
    }
}

/// Refused memory is fault 11.
impl From<GenerationError> for Failure {
    ghost from_gives = { λ error failure. failure ≡ generation_failure error };

    fn from(error: GenerationError) -> Failure {
        match error {
            GenerationError::Memory => Failure::Fault(Fault::Memory),
            of_wish => Failure::Generation(of_wish),
        }
    }
}

/// Refused memory is fault 11.
impl From<TextError> for Failure {
    ghost from_gives = { λ error failure. failure ≡ text_failure error };

    fn from(error: TextError) -> Failure {
        match error {
            TextError::Memory => Failure::Fault(Fault::Memory),
            of_line => Failure::Text(of_line),
        }
    }
}
