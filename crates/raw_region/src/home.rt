//! Where the words of a region lie, and who frees them.
ghost use Rattle.std.specs.Prelude.{◌≡◌};
ghost use Rattle.raw_region.specs.RegionBlock.{IsLeased, is_clear_of, with_clear};

use crate::frame::Frame;
use crate::room::Room;
use std::alloc::Global;
use std::sync::Arc;

/// Who frees the words of a region.
///
/// Each variant says whether the region is cleared. There the flag lies beside the tag, and a field of the region
/// would take 8 bytes for it.
pub(crate) enum Home {
    /// The region: they are an allocation of its own.
    Own { is_clear: bool },
    /// Whoever has the last share of a frame: they are a part of it.
    Leased { is_clear: bool, lease: Lease },
    /// Nobody here: they are a host's.
    Host { is_clear: bool },
}

impl Home {
    /// Whether the region is cleared.
    pub(crate) fn is_clear(&self) -> bool
        ensures { result ≡ is_clear_of self.now }
    {
        match self {
            Home::Own { is_clear } | Home::Leased { is_clear, .. } | Home::Host { is_clear } => {
                *is_clear
            }
        }
    }

    /// Sets whether the region is cleared.
    pub(crate) fn set_clear(&mut self, clear: bool)
        ensures { self.new ≡ with_clear self.old clear }
    {
        match self {
            Home::Own { is_clear } => *is_clear = clear,
            Home::Leased { is_clear, .. } => *is_clear = clear,
            Home::Host { is_clear } => *is_clear = clear,
        }
    }
}

/// A share of a frame, and the number of a part that is out.
pub(crate) struct Lease {
    pub(crate) frame: Arc<Frame, Global>,
    pub(crate) index: usize,
}

impl Lease {
    /// Puts the part back, and gives the share up.
    pub(crate) fn end(self, room: Room, alloc: &Global)
        requires { IsLeased self room }
    {
        let Lease { frame, index } = self;
        frame.put(index, room);
        leave(frame, alloc);
    }
}

/// Gives up a share of a frame. The last one ends the frame.
pub(crate) fn leave(frame: Arc<Frame, Global>, alloc: &Global) {
    if let Some(frame) = Arc::into_inner(frame) {
        frame.end(alloc);
    }
}
