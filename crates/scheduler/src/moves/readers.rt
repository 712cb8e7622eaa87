ghost use Rattle.std.specs.Prelude.{◌≡◌};
ghost use Rattle.scheduler.specs.MoveIndex.{number_of, joined};

/// The indices of the pairs with a given source, at most two in any table.
#[derive(Clone, Copy)]
pub(crate) enum Readers {
    Nobody,
    One(usize),
    Two(usize, usize),
}

impl Readers {
    pub(crate) fn count(self) -> u32
        ensures { result ≡ number_of self }
    {
        match self {
            Readers::Nobody => 0,
            Readers::One(_) => 1,
            Readers::Two(_, _) => 2,
        }
    }

    /// Adds an index; ignored if there are two already.
    pub(crate) fn and(self, place: usize) -> Readers
        ensures { result ≡ joined self place }
    {
        match self {
            Readers::Nobody => Readers::One(place),
            Readers::One(first) => Readers::Two(first, place),
            Readers::Two(first, second) => Readers::Two(first, second),
        }
    }
}
