use std::fmt;

/// Whether a schedule finishes its collection.
#[derive(Debug, Clone, Copy, PartialEq, Eq)]
pub enum Ending {
    /// All regions to fill are settled.
    Finished,
    /// Some region to fill isn't settled.
    Open,
}

impl fmt::Display for Ending {
    ghost use Rattle.std.specs.Prelude.{Some};
    ghost use Rattle.schedule_timeline.specs.TimelineFigures.{ending_text};

    ghost output = { λ ending. Some (ending_text ending) };

    fn fmt<W: fmt::Write>(&self, f: &mut fmt::Formatter<W>) -> fmt::Result {
        match self {
            Ending::Finished => f.write_str("finished"),
            Ending::Open => f.write_str("open"),
        }
    }
}
