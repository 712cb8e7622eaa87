//! Redirecting words in one thread or in several, for code that serves both.
ghost use Rattle.std.specs.Prelude.{◌≡◌, ◌<◌, IsTrue, All, map};
ghost use Rattle.object_heap.specs.HeapImage.{is_null_or_live};
ghost use Rattle.summary.specs.NewAddresses.{new_address};
ghost use Rattle.summary.specs.Compaction.{redirected};

use fill::Updater;
use std::thread::Threads;
use summary::{Plan, Survey, Surveyor};
use thread_row::{Alone, Many, for_each_mut, for_each_mut_alone};

/// The least number of words that is worth a thread.
const LEAST: usize = 16_384;

/// The threads that do the parts of a collection that can be split: they also survey the image, and update deferred
/// objects.
pub(crate) trait Redirector: Surveyor + Updater {
    /// Redirects each of these references.
    fn redirect_all(&self, words: &mut [u64], plan: &Plan)
        requires start { Self.may_start }
        requires words { All (λ w. IsTrue (is_null_or_live plan.now w)) words.old }
        ensures { words.new ≡ map (redirected plan.now) words.old };

    /// Replaces the old address of each live object by the new one.
    fn redirect_live(&self, live: &mut [u64], survey: &Survey)
        requires start { Self.may_start }
        requires live { live.old ≡ survey.now.live }
        ensures { live.new ≡ map (new_address survey.now) live.old };
}

impl Redirector for Alone {
    fn redirect_all(&self, words: &mut [u64], plan: &Plan) {
        let redirect = |_, w: &mut u64| *w = plan.redirected(*w);
        for_each_mut_alone(words, &redirect);
    }

    fn redirect_live(&self, live: &mut [u64], survey: &Survey) {
        let plan = survey.plan();
        let redirect = |_, a: &mut u64| *a = plan.new_address(*a);
        for_each_mut_alone(live, &redirect);
    }
}

impl<T: Threads + Sync> Redirector for Many<'_, T> {
    fn redirect_all(&self, words: &mut [u64], plan: &Plan) {
        let count = worth_threads(words.len(), self.most);
        let redirect = |_, w: &mut u64| *w = plan.redirected(*w);
        for_each_mut(self.threads, words, count, &redirect);
    }

    fn redirect_live(&self, live: &mut [u64], survey: &Survey) {
        let plan = survey.plan();
        let count = worth_threads(live.len(), self.most);
        let redirect = |_, a: &mut u64| *a = plan.new_address(*a);
        for_each_mut(self.threads, live, count, &redirect);
    }
}

/// How many of at most `most` threads `words` words are worth, at least 1.
fn worth_threads(words: usize, most: usize) -> usize
    ensures { 0 < result }
{
    most.min(words / LEAST).max(1)
}
