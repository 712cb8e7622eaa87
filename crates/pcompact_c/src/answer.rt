//! What a collection will do or has done.
ghost use Rattle.std.specs.Prelude.{◌≡◌, MatchResult};
ghost use Rattle.collector.specs.Collections.{figures_of};
ghost use Rattle.object_heap.specs.HeapImage.{HeapImage};
ghost use Rattle.pcompact_c.specs.Answers.{IsSummaryOf};
ghost use Rattle.pcompact_c.specs.Faults.{IsOf};

use crate::fault::PcompactFault;
use collector::Figures;
use heap_image::Fault;

/// What a collection will do or has done, or why there is none.
#[repr(C)]
#[derive(Clone, Copy)]
pub struct PcompactAnswer {
    /// The fault. If there is one, the other numbers are 0.
    pub fault: PcompactFault,
    /// The address at which the dense prefix ends.
    pub prefix_end: u64,
    /// The first free address after the collection.
    pub new_top: u64,
    /// How many regions a collection fills.
    pub filled_regions: u32,
}

impl PcompactAnswer {
    /// The figures of a collection, or its fault.
    pub(crate) fn of(done: Result<Figures, Fault>) -> PcompactAnswer
        ensures { MatchResult done
            (λ figures. (result.fault.number ≡ 0) × ((image : HeapImage) → figures ≡ figures_of image → IsSummaryOf image result))
            (λ fault. IsOf fault result.fault) }
    {
        match done {
            Ok(figures) => PcompactAnswer {
                fault: PcompactFault::NONE,
                prefix_end: figures.prefix_end,
                new_top: figures.new_top,
                filled_regions: figures.filled,
            },
            Err(fault) => PcompactAnswer {
                fault: PcompactFault::of(fault),
                prefix_end: 0,
                new_top: 0,
                filled_regions: 0,
            },
        }
    }

    /// Answers with the figures of a collection, or with its fault. Returns the number of the fault.
    pub(crate) fn put(&mut self, done: Result<Figures, Fault>) -> u32
        ensures number { result ≡ self.new.fault.number }
        ensures done { MatchResult done
            (λ figures. (result ≡ 0) × ((image : HeapImage) → figures ≡ figures_of image → IsSummaryOf image self.new))
            (λ fault. IsOf fault self.new.fault) }
    {
        *self = PcompactAnswer::of(done);
        self.fault.number
    }
}
