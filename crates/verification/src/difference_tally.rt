//! The words of an image that differ from those of a compaction: how many they are, the first ten, and the last.
ghost use Rattle.std.specs.Prelude.{◌≡◌, ℕ, ◌+◌, ◌<◌, ◌≤◌, OnOk};
ghost use Rattle.verification.specs.Tally.{IsTally};

use std::alloc::{AllocError, Global};

/// The number of words that a tally lists.
pub const LISTED: usize = 10;

/// A word that differs from the compaction's.
#[derive(Debug, Clone, Copy, PartialEq, Eq)]
pub struct OtherWord {
    pub address: u64,
    /// The word of the compaction.
    pub expected: u64,
    /// The word of the image.
    pub found: u64,
}

/// The words that differ, of those at the addresses compared so far.
#[derive(Drop)]
pub(crate) struct Tally {
    pub(crate) count: u64,
    /// The first of them, at most [`LISTED`], ascending.
    pub(crate) first: Vec<OtherWord>,
    /// The address of the last of them.
    pub(crate) last: Option<u64>,
}

impl Tally {
    /// The tally of no words.
    pub(crate) fn new(alloc: Global) -> Tally
        ensures { (wanted is : ℕ → ℕ) → IsTally wanted is 0 result.count result.first.items result.last }
    {
        Tally {
            count: 0,
            first: Vec::new(alloc),
            last: None,
        }
    }

    /// Compares one more word, at the address after those compared before.
    pub(crate) fn compare(
        &mut self,
        address: u64,
        expected: u64,
        found: u64,
    ) -> Result<(), AllocError>
        requires few { self.old.count ≤ address }
        requires inside { address < 68719476736 }
        ensures few { OnOk result (self.new.count ≤ address + 1) }
        ensures tally { (wanted is : ℕ → ℕ) → wanted address ≡ expected → is address ≡ found
            → IsTally wanted is address self.old.count self.old.first.items self.old.last
            → OnOk result (IsTally wanted is (address + 1) self.new.count self.new.first.items self.new.last) }
    {
        if found == expected {
            return Ok(());
        }
        self.count += 1;
        self.last = Some(address);
        if self.first.len() < LISTED {
            self.first.push(OtherWord {
                address,
                expected,
                found,
            })?;
        }
        Ok(())
    }
}
