//! An object of a generated heap.
ghost use Rattle.std.specs.Prelude.{◌<◌, ◌≤◌};

use crate::dice::Dice;
use crate::room::Allotment;

/// An object of a generated heap.
#[derive(Clone, Copy)]
pub(crate) struct Object {
    /// The number of its words, header included.
    pub(crate) size: u32,
    /// The number of its references.
    pub(crate) references: u32,
    /// The reference that leads to it.
    pub(crate) reference: u64,
    /// Whether it is to be reachable.
    pub(crate) is_live: bool,
    ghost few: { size ≤ 512 },
    ghost header: { references < size },
}

impl Object {
    /// An object to which this reference leads. `reference_percent` of its words after the header are references,
    /// rounded up or down at random.
    pub(crate) fn new(
        allotment: Allotment,
        reference: u64,
        reference_percent: u64,
        dice: &mut Dice,
    ) -> Object
        requires { reference_percent ≤ 100 }
    {
        let Allotment { size, is_live } = allotment;
        let hundredths = (size - 1) * reference_percent + dice.below(100);
        Object {
            size: size as u32,
            references: (hundredths / 100) as u32,
            reference,
            is_live,
        }
    }

    pub(crate) fn header(self) -> u64 {
        1 << 56 | u64::from(self.references) << 32 | u64::from(self.size)
    }
}
