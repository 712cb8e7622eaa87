//! Values that are not made yet.
ghost use Rattle.std.specs.Prelude.{◌≡◌, List};
ghost use base.Fml.{ftrue};
ghost use base.Stored.{coded_list};

use super::Held;
use std::marker::{Brand, Model, PhantomData};

/// A list of values, for proofs only: nothing of it is in memory. Whoever makes it says which list it is.
pub struct Foreseen<X> {
    marker: PhantomData<X>,
    pub ghost items: { List X } by { coded_list X.code },
}

impl<X> Model for Foreseen<X> {
    ghost also_owns = { λ _. ftrue };
}

impl<X> Drop for Foreseen<X> {
    fn drop(self) {
        let Self { marker: _ } = self;
    }
}

/// Which list it is.
pub trait Foresees<X> {
    ghost use Rattle.std.specs.Prelude.{List};

    ghost items: { List X };
}

impl Foresees<Held> for Brand {
    ghost use Rattle.std.specs.Prelude.{[]};

    ghost items = { [] };
}

/// Foresees a list.
pub(crate) fn foresee<X, E: Foresees<X>>() -> Foreseen<X>
    ensures { result.items ≡ E.items }
{
    Foreseen {
        marker: PhantomData,
    }
}
