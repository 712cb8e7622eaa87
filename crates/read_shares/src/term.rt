//! The time for which a value is shared out.
ghost use Rattle.std.specs.Prelude.{ℕ};
ghost use Rattle.read_shares.specs.Term.{term_owns};

use std::marker::{Model, Send, Sync};

/// The time for which a value will be shared out.
///
/// Its `origin` is known before there is a value, so that what comes back can be told apart by it. A term takes no memory,
/// and is for one value. If it is dropped, nothing is lost.
#[derive(Drop)]
pub struct Term {
    pub ghost origin: { ℕ },
}

impl Model for Term {
    ghost also_owns = { λ t. term_owns t.origin };
}

unsafe impl Send for Term {}

unsafe impl Sync for Term {}

impl Term {
    /// A new one, for which nothing is shared out yet.
    pub fn new() -> Term {
        Term {}
    }
}
