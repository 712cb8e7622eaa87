//! One of several shares in the check of a heap.
ghost use Rattle.std.specs.Prelude.{◌≡◌, length, IfOk, IfErr};
ghost use Rattle.std.specs.Arc.{arc_value};

use crate::shared_check::SharedCheck;
use std::alloc::{AllocError, Global};
use std::marker::Model;
use std::sync::Arc;
use std::sync::atomic::{AtomicUsize, Ordering};

/// The right of a thread to check a heap's live objects with others. The last share of a check gives it back.
///
/// Contracts view it as the check.
#[derive(Drop)]
pub struct CheckShare {
    dealt: Arc<DealtCheck, Global>,
}

/// A check, and how many of its shares are presented to end it.
#[derive(Drop)]
struct DealtCheck {
    check: SharedCheck,
    presented: AtomicUsize,
}

impl Model for CheckShare {
    ghost use Rattle.std.specs.Arc.{arc_value};
    ghost use Rattle.heap_image.specs.SharedCheck.{UncheckedHeap};

    ghost Value = { UncheckedHeap };

    ghost view = { λ s. (arc_value s.dealt).check };
}

impl CheckShare {
    /// The only share of a check. If memory runs out, the check comes back.
    pub fn of(alloc: Global, check: SharedCheck) -> Result<CheckShare, SharedCheck>
        ensures share { IfOk result (λ share. share ≡ check) }
        ensures back { IfErr result (λ back. back ≡ check) }
    {
        let dealt = DealtCheck {
            check,
            presented: AtomicUsize::new(0),
        };
        match Arc::new(alloc, dealt) {
            Ok(dealt) => Ok(CheckShare { dealt }),
            Err(failed) => Err(failed.value.check),
        }
    }

    /// Another share of the same check. Takes no memory; it fails where there are too many to be counted.
    pub fn another(&self) -> Result<CheckShare, AllocError>
        ensures { IfOk result (λ other. other ≡ self.now) }
    {
        let dealt = Arc::try_clone(&self.dealt)?;
        Ok(CheckShare { dealt })
    }

    /// Checks objects as [`SharedCheck::work`].
    pub fn work(&self, turns: u64) -> bool {
        self.dealt.check.work(turns)
    }

    /// The number of regions of the heap.
    pub fn regions(&self) -> usize
        ensures { result ≡ length self.now.blocks }
    {
        self.dealt.check.regions()
    }

    /// Counts this share as presented to end the check.
    pub fn count_in(&self) {
        self.dealt.presented.fetch_add(1, Ordering::SeqCst);
    }

    /// Takes this share out of that count.
    pub fn count_out(&self) {
        self.dealt.presented.fetch_sub(1, Ordering::SeqCst);
    }

    /// Whether exactly `shares` shares are counted, and the check has no other.
    pub fn are_all_counted(&self, shares: usize) -> bool {
        self.dealt.presented.load(Ordering::SeqCst) == shares
            && Arc::strong_count(&self.dealt) == shares
    }

    /// The check, if this is its only share. Otherwise the share comes back.
    pub fn into_check(self) -> Result<SharedCheck, CheckShare>
        ensures check { IfOk result (λ check. check ≡ self) }
        ensures back { IfErr result (λ back. back ≡ self) }
    {
        let CheckShare { dealt } = self;
        match Arc::try_unwrap(dealt) {
            Ok(dealt) => Ok(dealt.check),
            Err(dealt) => Err(CheckShare { dealt }),
        }
    }
}
