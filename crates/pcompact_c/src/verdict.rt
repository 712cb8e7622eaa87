//! How an image compares with a compaction, as C sees it.
ghost use Rattle.std.specs.Prelude.{◌≡◌};
ghost use Rattle.pcompact_c.specs.Faults.{IsOf};
ghost use Rattle.pcompact_c.specs.Verdicts.{IsVerdictOf};

use crate::fault::PcompactFault;
use collector::Verdict;
use heap_image::Fault;

/// The first difference between an image and a compaction, or why there is no comparison.
#[repr(C)]
#[derive(Clone, Copy)]
pub struct PcompactVerdict {
    /// The fault. If there is one, the difference is 0.
    pub fault: PcompactFault,
    /// The image that the fault came with: 1 is the one before the collection, 2 the one after it, and 0 none.
    pub image: u32,
    /// What differs: 0 nothing, 1 the shape, 2 a word, 3 a live address, and 4 a root.
    pub difference: u32,
    /// The address of the word, or the index of the live address or root, that differs.
    pub place: u64,
}

impl PcompactVerdict {
    /// This verdict.
    pub(crate) fn of(verdict: Verdict) -> PcompactVerdict
        ensures { IsVerdictOf verdict result }
    {
        let (difference, place) = match verdict {
            Verdict::Same => (0, 0),
            Verdict::Shape => (1, 0),
            Verdict::Word(address) => (2, address),
            Verdict::Live(index) => (3, index),
            Verdict::Root(index) => (4, index),
        };
        PcompactVerdict {
            fault: PcompactFault::NONE,
            image: 0,
            difference,
            place,
        }
    }

    /// No comparison, for a fault that came with this image.
    pub(crate) fn refused(fault: Fault, image: u32) -> PcompactVerdict
        ensures fault { IsOf fault result.fault }
        ensures image { result.image ≡ image }
    {
        PcompactVerdict {
            fault: PcompactFault::of(fault),
            image,
            difference: 0,
            place: 0,
        }
    }
}
