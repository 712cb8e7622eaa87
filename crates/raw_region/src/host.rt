//! Words of a host, which nobody here frees.
ghost use Rattle.std.specs.Prelude.{◌≡◌, ◌≤◌, true, false, List, ℕ, None, IfSome, IfNone, IfOk, IfErr, IsTrue};

use crate::block::{Block, MAX_WORDS};
use crate::region::Region;
use std::alloc::Global;
use std::marker::{Model, Send};
use std::mem;

/// Words of a host, or none, as the host and the library pass them to each other.
#[repr(C)]
pub struct HostWords {
    is_held: bool,
    at: *mut u64,
    len: usize,
    ghost words: { List ℕ },
}

impl Model for HostWords {
    ghost use Rattle.std.specs.Prelude.{Bool, List, ℕ};
    ghost use Rattle.std.specs.Ptr.{Ptr};
    ghost use Rattle.raw_region.specs.Block.{held_block};

    ghost Value = { Bool × Ptr × ℕ × List ℕ };

    ghost view = { λ h. (h.is_held, h.at, h.len, h.words) };

    ghost inverse = { λ v. record { is_held = v.0; at = v.1; len = v.2; words = v.3 } };

    ghost also_owns = { λ h. held_block h.is_held h.at h.len h.words };
}

unsafe impl Send for HostWords {}

impl HostWords {
    pub(crate) fn empty() -> HostWords
        ensures { result.0 ≡ false }
    {
        HostWords {
            is_held: false,
            at: std::ptr::null_mut(),
            len: 0,
        }
    }

    pub(crate) fn of(block: Block) -> HostWords
        requires { block.deed ≡ None }
        ensures { (result.0 ≡ true) × (result.1 ≡ block.at) × (result.2 ≡ block.len) × (result.3 ≡ block.words) }
    {
        let Block { at, len } = block;
        HostWords {
            is_held: true,
            at,
            len,
        }
    }

    pub(crate) fn take(self) -> Block
        requires { self.0 ≡ true }
        ensures { (result.at ≡ self.1) × (result.len ≡ self.2) × (result.words ≡ self.3) × (result.deed ≡ None) }
    {
        let HostWords {
            is_held: _,
            at,
            len,
        } = self;
        Block { at, len }
    }

    pub(crate) fn vacate(self)
        requires { self.0 ≡ false }
    {
        let HostWords {
            is_held: _,
            at: _,
            len: _,
        } = self;
    }

    /// Whether there are words.
    pub fn is_held(&mut self) -> bool
        ensures held { result ≡ self.old.0 }
        ensures same { self.new ≡ self.old }
    {
        self.is_held
    }

    /// Whether there are as many words as a region may have.
    fn is_region(&mut self) -> bool
        ensures held { IsTrue result → self.old.0 ≡ true }
        ensures nonempty { IsTrue result → 1 ≤ self.old.2 }
        ensures at_most { IsTrue result → self.old.2 ≤ MAX_WORDS }
        ensures all { self.old.0 ≡ true → 1 ≤ self.old.2 → self.old.2 ≤ MAX_WORDS → IsTrue result }
        ensures same { self.new ≡ self.old }
    {
        self.is_held && 1 <= self.len && self.len <= MAX_WORDS
    }

    /// Lends the words as a region. `None` if there are none, or more than `MAX_WORDS`, which the host keeps.
    pub fn lend(&mut self, alloc: Global) -> Option<Region>
        ensures words { IfSome result (λ r. r ≡ self.old.3) }
        ensures held { IfSome result (λ _. self.old.0 ≡ true) }
        ensures gone { IfSome result (λ _. self.new.0 ≡ false) }
        ensures kept { IfNone result (self.new ≡ self.old) }
        ensures refused { IfNone result
            (self.old.0 ≡ true → 1 ≤ self.old.2 → self.old.2 ≤ MAX_WORDS → ⊥) }
    {
        if !self.is_region() {
            return None;
        }
        let words = mem::replace(self, HostWords::empty());
        Some(Region::of_host(alloc, words.take()))
    }

    /// Gives the host the words of a region that was lent. Any other region comes back.
    pub fn keep(&mut self, region: Region) -> Result<(), Region>
        requires { self.old.0 ≡ false }
        ensures held { IfOk result (λ _. (self.new.0 ≡ true) × (self.new.3 ≡ region)) }
        ensures refused { IfErr result (λ back. back ≡ region) }
    {
        let block = region.into_host()?;
        mem::replace(self, HostWords::of(block)).vacate();
        Ok(())
    }
}
