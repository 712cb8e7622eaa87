//! The right to read a value that was shared out.
ghost use Rattle.std.specs.Prelude.{◌≡◌, ℕ, ◌+◌, ◌-◌, ◌<◌, ◌≤◌};
ghost use Rattle.read_shares.specs.Parts.{all_parts};
ghost use Rattle.read_shares.specs.ReadShare.{share_owns, share_lends};

use std::marker::{Model, Send, Sync};

/// The right to read a value for as long as this is held.
///
/// A value that is shared out has 2^63 parts, and a share has from one to all of them. `origin` tells apart what was
/// shared out at different times. If a share is dropped, its value never becomes whole again, and nothing is freed.
#[derive(Drop)]
pub struct ReadShare<T> {
    pub(crate) at: *const T,
    pub ghost value: { T },
    pub ghost origin: { ℕ },
    pub ghost parts: { ℕ },
}

impl<T> Model for ReadShare<T> {
    ghost also_owns = { λ s. share_owns T.row s.at s.value s.origin s.parts };

    ghost also_shares = { λ s _ κ. share_lends T.row s.at s.value s.origin κ };
}

unsafe impl<T: Sync> Send for ReadShare<T> {}

unsafe impl<T: Sync> Sync for ReadShare<T> {}

impl<T> ReadShare<T> {
    /// The value.
    pub fn get(&self) -> &T
        ensures { result.now ≡ self.now.value }
    {
        unsafe { &*self.at }
    }

    /// Splits off a share of one part. One at least is left.
    pub fn split_one(&mut self) -> ReadShare<T>
        requires more { 1 < self.old.parts }
        ensures at_most { self.old.parts ≤ all_parts }
        ensures left { self.new ≡ record self.old { parts = self.old.parts - 1 } }
        ensures one { result ≡ record self.old { parts = 1 } }
    {
        ReadShare { at: self.at }
    }

    /// Adds the parts of another share of the same value.
    pub fn join(&mut self, other: ReadShare<T>)
        requires same { other.origin ≡ self.old.origin }
        requires at_most { self.old.parts + other.parts ≤ all_parts }
        ensures { self.new ≡ record self.old { parts = self.old.parts + other.parts } }
    {
        let ReadShare { at: _ } = other;
    }
}
