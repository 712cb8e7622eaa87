use crate::event::Illegal;
use std::alloc::{AllocError, AllocFailed};

/// Why a book or a locked board rejected a call. The error leaves it unchanged.
#[derive(Clone, Copy, Debug, PartialEq, Eq)]
pub enum CallFault {
    /// The present state doesn't allow the event.
    Illegal,
    /// The event is allowed, but memory for its entry ran out.
    Memory,
}

impl From<Illegal> for CallFault {
    ghost use Rattle.std.specs.Prelude.{◌≡◌};
    ghost use Rattle.scheduler.specs.declared.scheduler.call_fault.CallFault.TheVariants.{Illegal};

    ghost from_gives = { λ _ fault. fault ≡ Illegal };

    fn from(_: Illegal) -> CallFault {
        CallFault::Illegal
    }
}

impl From<AllocError> for CallFault {
    ghost use Rattle.std.specs.Prelude.{◌≡◌};
    ghost use Rattle.scheduler.specs.declared.scheduler.call_fault.CallFault.TheVariants.{Memory};

    ghost from_gives = { λ _ fault. fault ≡ Memory };

    fn from(_: AllocError) -> CallFault {
        CallFault::Memory
    }
}

impl<T: Drop> From<AllocFailed<T>> for CallFault {
    ghost use Rattle.std.specs.Prelude.{◌≡◌};
    ghost use Rattle.scheduler.specs.declared.scheduler.call_fault.CallFault.TheVariants.{Memory};

    ghost from_gives = { λ _ fault. fault ≡ Memory };

    fn from(_: AllocFailed<T>) -> CallFault {
        CallFault::Memory
    }
}
