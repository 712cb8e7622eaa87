/// What a worker does in a cell of its lane.
#[derive(Clone, Copy)]
pub(crate) enum Mark {
    Nothing,
    /// It claims a region.
    Claim,
    /// It claims a region that a drain freed; it may claim others, too.
    Taking,
    /// A drain of it frees a region.
    Freeing,
    /// It settles a region.
    Settling,
    /// Two or more kinds of these.
    Several,
}

impl Mark {
    /// The mark of a cell that has both marks.
    pub(crate) fn with(self, other: Mark) -> Mark {
        match (self, other) {
            (Mark::Nothing, mark) | (mark, Mark::Nothing) => mark,
            (Mark::Claim, Mark::Taking) => Mark::Taking,
            _ if self == other => self,
            _ => Mark::Several,
        }
    }

    pub(crate) fn letter(self) -> &'static str {
        match self {
            Mark::Nothing => " ",
            Mark::Claim => "c",
            Mark::Taking => "t",
            Mark::Freeing => "f",
            Mark::Settling => "s",
            Mark::Several => "x",
        }
    }

    /// The terminal colour code of the letter; 0 is no colour.
    pub(crate) fn colour(self) -> &'static str {
        match self {
            Mark::Nothing => "0",
            Mark::Claim => "34",
            Mark::Taking => "36",
            Mark::Freeing => "33",
            Mark::Settling => "32",
            Mark::Several => "35",
        }
    }
}
