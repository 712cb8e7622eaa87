//! What a smaller heap leaves out.
ghost use Rattle.std.specs.Prelude.{◌≤◌, ◌-◌};

use crate::shrinking::part::Part;

/// A piece of a part: its units from `first` to `last`.
#[derive(Clone, Copy)]
pub(crate) struct Cut {
    pub(crate) part: Part,
    /// The address, index or number of the first unit.
    pub(crate) first: u64,
    /// That of the last one.
    pub(crate) last: u64,
}

impl Cut {
    /// Whether it leaves out this unit of this part.
    pub(crate) fn covers(self, part: Part, unit: u64) -> bool {
        self.part == part && self.first <= unit && unit <= self.last
    }

    /// How many of the units from `from` up to `to` of this part it leaves out, if each number there is one.
    pub(crate) fn count_in(self, part: Part, from: u64, to: u64) -> u64
        ensures { result ≤ to - from }
    {
        if self.part != part {
            return 0;
        }
        to.min(self.last.saturating_add(1))
            .saturating_sub(from.max(self.first))
    }

    /// How many units of this part it leaves out, if each number is one.
    pub(crate) fn count_of(self, part: Part) -> u64 {
        if self.part != part || self.last < self.first {
            return 0;
        }
        (self.last - self.first).saturating_add(1)
    }
}
