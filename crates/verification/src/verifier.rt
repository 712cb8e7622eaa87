//! Who compares: several threads, or the caller's thread alone.
ghost use Rattle.std.specs.Prelude.{◌≡◌, length};
ghost use Rattle.verification.specs.Searched.{AreSearched, IsFirstOfShare};
ghost use Rattle.verification.specs.Verdict.{HaveSameShape};

use crate::comparison::Comparison;
use crate::items::Items;
use std::thread::Threads;
use summary::Surveyor;
use thread_row::{Alone, Many, for_each_mut, for_each_mut_alone};

/// The threads that survey an image, and compare another with its compaction.
pub trait Verifier: Surveyor {
    /// Parts the items of a comparison into shares of `share` items, and writes into the `k`-th element of `found` the index
    /// of the first item of the `k`-th share that differs.
    fn search(
        &self,
        comparison: &Comparison<'_>,
        items: Items,
        share: usize,
        found: &mut [Option<usize>],
    )
        requires { Self.may_start }
        ensures count { length found.new ≡ length found.old }
        ensures found { AreSearched items comparison.now.before.now comparison.now.after.now share found.new };
}

impl<T: Threads + Sync> Verifier for Many<'_, T> {
    fn search(
        &self,
        comparison: &Comparison<'_>,
        items: Items,
        share: usize,
        found: &mut [Option<usize>],
    ) {
        let Comparison {
            before,
            after,
            survey,
        } = *comparison;
        let look = |k: usize, first: &mut Option<usize>|
            requires survey { survey.now ≡ before.now }
            requires shape { HaveSameShape before.now after.now }
            ensures { IsFirstOfShare items before.entry.now after.entry.now share k first.new }
        {
            let comparison = Comparison {
                before,
                after,
                survey,
            };
            *first = comparison.other_in_share(items, share, k);
        };
        let threads = found.len().max(1);
        for_each_mut(self.threads, found, threads, &look);
    }
}

impl Verifier for Alone {
    fn search(
        &self,
        comparison: &Comparison<'_>,
        items: Items,
        share: usize,
        found: &mut [Option<usize>],
    ) {
        for_each_mut_alone(
            found,
            &|k, first: &mut Option<usize>| { *first = comparison.other_in_share(items, share, k) },
        );
    }
}
