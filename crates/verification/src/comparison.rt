ghost use Rattle.std.specs.Prelude.{◌≡◌, ◌+◌, ◌<◌, ◌≤◌, ◌↔◌, IsTrue, MatchBool, MatchOption};
ghost use Rattle.object_heap.specs.HeapImage.{heap_words, word_at, size_at, references_at};
ghost use Rattle.summary.specs.LiveObjects.{object_count, object_at};
ghost use Rattle.summary.specs.NewAddresses.{new_address, new_top};
ghost use Rattle.summary.specs.Fillers.{IsDeadRun};
ghost use Rattle.summary.specs.Compaction.{redirected, compact};
ghost use Rattle.verification.specs.Compared.{IsGap, AreCompacted, IsObjectCompacted, IsFirstOther, IsPlaced, AreKnown, behind, new_ends};
ghost use Rattle.verification.specs.Searched.{IsItemAlike, IsFirstIn, IsFirstOfShare, IsFirstFound, item_count};
ghost use Rattle.verification.specs.Verdict.{IsVerdict, IsVerdictBelow, IsVerdictOnLists, HaveSameShape, root_count, root_at};

use crate::difference::{first_nonzero, first_unlike};
use crate::items::Items;
use crate::verdict::Verdict;
use crate::verifier::Verifier;
use heap_image::{Image, header, image_is_valid};
use summary::laws::compaction::{blocks_of_regions, compaction_by_objects};
use summary::laws::dense_prefix::{fillers_by_runs, prefix_end_is_greatest};
use summary::laws::live_words::words_of_objects;
use summary::laws::new_addresses::{
    new_address_by_counting, no_gaps_above_the_prefix, objects_keep_their_order,
};
use summary::laws::plans::image_is_own;
use summary::laws::region_data::regions_to_fill;
use summary::{Survey, filler_limit};

/// The most shares of a search.
const MOST_SHARES: usize = 64;

/// The least number of items that is worth a thread.
const LEAST_ITEMS: usize = 1_024;

/// An image, and the one whose compaction it should be.
#[derive(Drop)]
pub struct Comparison<'a> {
    pub before: &'a Image,
    pub after: &'a Image,
    pub survey: &'a Survey,
    ghost survey_of: { survey.now ≡ before.now },
    ghost shape: { HaveSameShape before.now after.now },
}

impl Comparison<'_> {
    /// The first difference between `after` and the compaction of `before`. `survey` is the survey of `before`.
    pub(crate) fn verdict<V: Verifier>(
        before: &Image,
        after: &Image,
        survey: &Survey,
        verifier: &V,
    ) -> Verdict
        requires start { V.may_start }
        requires survey { survey.now ≡ before.now }
        ensures { IsVerdict (compact before.now) after.now result }
    {
        blocks_of_regions();
        if !have_same_shape(before, after) {
            return Verdict::Shape;
        }
        let comparison = Comparison {
            before,
            after,
            survey,
        };
        match comparison.other_word(verifier) {
            Some(a) => Verdict::Word(a),
            None => comparison.verdict_on_lists(verifier),
        }
    }

    /// The same as [`verdict`](Comparison::verdict), but words at or above the new top count as equal.
    pub(crate) fn verdict_below_top<V: Verifier>(
        before: &Image,
        after: &Image,
        survey: &Survey,
        verifier: &V,
    ) -> Verdict
        requires start { V.may_start }
        requires survey { survey.now ≡ before.now }
        ensures { IsVerdictBelow (new_top before.now) (compact before.now) after.now result }
    {
        blocks_of_regions();
        if !have_same_shape(before, after) {
            return Verdict::Shape;
        }
        let comparison = Comparison {
            before,
            after,
            survey,
        };
        match comparison.other_below_top(verifier) {
            Some(a) => Verdict::Word(a),
            None => comparison.verdict_on_lists(verifier),
        }
    }

    /// The verdict on the live lists and the roots alone.
    fn verdict_on_lists<V: Verifier>(&self, verifier: &V) -> Verdict
        requires { V.may_start }
        ensures { IsVerdictOnLists (compact self.now.before.now) self.now.after.now result }
    {
        blocks_of_regions();
        if let Some(i) = self.first_other(verifier, Items::Live) {
            return Verdict::Live(i as u64);
        }
        match self.first_other(verifier, Items::Roots) {
            Some(i) => Verdict::Root(i as u64),
            None => Verdict::Same,
        }
    }

    /// The lowest address below the new top whose word differs from the compaction's.
    fn other_below_top<V: Verifier>(&self, verifier: &V) -> Option<u64>
        requires { V.may_start }
        ensures { MatchOption result
            (AreCompacted self.now.before.now self.now.after.now 0 (new_top self.now.before.now))
            (IsFirstOther self.now.before.now self.now.after.now 0 (new_top self.now.before.now)) }
    {
        objects_are_placed(self.before);
        let top = self.survey.plan().new_top();
        match self.other_word(verifier) {
            Some(a) if a < top => Some(a),
            _ => None,
        }
    }

    /// The lowest address whose word differs from the compaction's.
    fn other_word<V: Verifier>(&self, verifier: &V) -> Option<u64>
        requires { V.may_start }
        ensures { MatchOption result
            (AreCompacted self.now.before.now self.now.after.now 0 (heap_words self.now.before.now))
            (IsFirstOther self.now.before.now self.now.after.now 0 (heap_words self.now.before.now)) }
    {
        objects_are_placed(self.before);
        match self.first_other(verifier, Items::Objects) {
            Some(i) => self.other_at(i),
            None => self.other_above(self.end_before(self.before.live().len())),
        }
    }

    /// The index of the first of these items that differs from the compaction's.
    fn first_other<V: Verifier>(&self, verifier: &V, items: Items) -> Option<usize>
        requires { V.may_start }
        ensures { IsFirstIn (IsItemAlike items self.now.before.now self.now.after.now)
            0 (item_count items self.now.before.now) result }
    {
        let count = self.count(items);
        let shares = share_count(count, verifier.most());
        let share = count.div_ceil(shares);
        let mut found = [None; MOST_SHARES];
        let found = &mut found[..shares];
        verifier.search(self, items, share, found);
        first_found(found)
    }

    /// The first of these items that differs, of the `share` items from index `share * k` on.
    pub(crate) fn other_in_share(&self, items: Items, share: usize, k: usize) -> Option<usize>
        ensures { IsFirstOfShare items self.now.before.now self.now.after.now share k result }
    {
        let count = self.count(items);
        let from = share.saturating_mul(k).min(count);
        let to = from.saturating_add(share).min(count);
        self.first_between(items, from, to)
    }

    /// The first of these items that differs, from one index up to another.
    fn first_between(&self, items: Items, from: usize, to: usize) -> Option<usize>
        requires { to ≤ item_count items self.now.before.now }
        ensures { IsFirstIn (IsItemAlike items self.now.before.now self.now.after.now) from to result }
    {
        for i in from..to {
            if self.is_other(items, i) {
                return Some(i);
            }
        }
        None
    }

    /// The number of these items.
    fn count(&self, items: Items) -> usize
        ensures { result ≡ item_count items self.now.before.now }
    {
        match items {
            Items::Objects | Items::Live => self.before.live().len(),
            Items::Roots => self.before.roots().len(),
        }
    }

    /// Whether the `i`-th of these items differs from the compaction's.
    fn is_other(&self, items: Items, i: usize) -> bool
        requires { i < item_count items self.now.before.now }
        ensures { MatchBool result
            (¬ (IsItemAlike items self.now.before.now self.now.after.now i))
            (IsItemAlike items self.now.before.now self.now.after.now i) }
    {
        match items {
            Items::Objects => self.other_at(i).is_some(),
            Items::Live => !self.is_live_alike(i),
            Items::Roots => !self.is_root_alike(i),
        }
    }

    /// Whether the `i`-th live address is the compaction's.
    fn is_live_alike(&self, i: usize) -> bool
        requires { i < object_count self.now.before.now }
        ensures { IsTrue result
            ↔ object_at self.now.after.now i ≡ new_address self.now.before.now (object_at self.now.before.now i) }
    {
        let a = self.before.live()[i];
        self.after.live()[i] == self.survey.plan().new_address(a)
    }

    /// Whether the `i`-th root is the compaction's.
    fn is_root_alike(&self, i: usize) -> bool
        requires { i < root_count self.now.before.now }
        ensures { IsTrue result
            ↔ root_at self.now.after.now i ≡ redirected self.now.before.now (root_at self.now.before.now i) }
    {
        self.after.roots()[i] == self.survey.plan().redirected(self.before.roots()[i])
    }

    /// The same in the `i`-th live object, and in the dead words before it.
    fn other_at(&self, i: usize) -> Option<u64>
        requires { i < object_count self.now.before.now }
        ensures { MatchOption result
            (IsObjectCompacted self.now.before.now self.now.after.now i)
            (IsFirstOther self.now.before.now self.now.after.now
            (behind (new_ends self.now.before.now) i) (behind (new_ends self.now.before.now) (i + 1))) }
    {
        objects_are_placed(self.before);
        let a = self.before.live()[i];
        let next = self.end_before(i);
        let place = self.survey.plan().new_address(a);
        match self.other_in_gap(next, place) {
            Some(p) => Some(p),
            None => self.other_in_object(a, place),
        }
    }

    /// Where the object before the `i`-th ends after the collection, or 0 for the first.
    fn end_before(&self, i: usize) -> u64
        requires { i ≤ object_count self.now.before.now }
        ensures { result ≡ behind (new_ends self.now.before.now) i }
    {
        objects_are_placed(self.before);
        if i == 0 {
            return 0;
        }
        let a = self.before.live()[i - 1];
        let place = self.survey.plan().new_address(a);
        place + self.before.size_at(a)
    }

    /// The same in the dead words before an object, which become fillers.
    fn other_in_gap(&self, from: u64, to: u64) -> Option<u64>
        requires ordered { from ≤ to }
        requires inside { to ≤ heap_words self.now.before.now }
        requires run { from < to → IsGap self.now.before.now from to }
        ensures { MatchOption result (AreCompacted self.now.before.now self.now.after.now from to)
            (IsFirstOther self.now.before.now self.now.after.now from to) }
    {
        image_is_valid(self.before);
        let mut at = from;
        while at < to {
            let end = filler_limit(to, at);
            if let Some(p) = self.other_in_filler(at, end) {
                return Some(p);
            }
            at = end;
        }
        None
    }

    /// The same in the dead words that become one filler.
    fn other_in_filler(&self, from: u64, to: u64) -> Option<u64>
        requires ordered { from ≤ to }
        requires inside { to ≤ heap_words self.now.before.now }
        requires run { from < to → IsDeadRun self.now.before.now from to }
        ensures { MatchOption result (AreCompacted self.now.before.now self.now.after.now from to)
            (IsFirstOther self.now.before.now self.now.after.now from to) }
    {
        fillers_by_runs();
        image_is_valid(self.before);
        if from == to {
            return None;
        }
        if self.after.word(from) != header::filler((to - from) as u32) {
            return Some(from);
        }
        let j = first_nonzero(self.after, from + 1, to - from - 1)?;
        Some(from + 1 + j)
    }

    /// The same in the words of the object that was at `a`.
    fn other_in_object(&self, a: u64, place: u64) -> Option<u64>
        requires { IsPlaced self.now.before.now a place }
        ensures { MatchOption result
            (AreCompacted self.now.before.now self.now.after.now place (place + size_at self.now.before.now a))
            (IsFirstOther self.now.before.now self.now.after.now place (place + size_at self.now.before.now a)) }
    {
        if self.after.word(place) != self.before.word(a) {
            return Some(place);
        }
        if let Some(p) = self.other_reference(a, place) {
            return Some(p);
        }
        self.other_data(a, place)
    }

    /// The same in the references of the object that was at `a`.
    fn other_reference(&self, a: u64, place: u64) -> Option<u64>
        requires { IsPlaced self.now.before.now a place }
        ensures { MatchOption result
            (AreCompacted self.now.before.now self.now.after.now
            (place + 1) (place + 1 + references_at self.now.before.now a))
            (IsFirstOther self.now.before.now self.now.after.now
            (place + 1) (place + 1 + references_at self.now.before.now a)) }
    {
        for f in 0..self.before.references_at(a) {
            let reference = self.before.word(a + 1 + f);
            if self.after.word(place + 1 + f) != self.survey.plan().redirected(reference) {
                return Some(place + 1 + f);
            }
        }
        None
    }

    /// The same in the words after the references of the object that was at `a`.
    fn other_data(&self, a: u64, place: u64) -> Option<u64>
        requires { IsPlaced self.now.before.now a place }
        ensures { MatchOption result
            (AreCompacted self.now.before.now self.now.after.now
            (place + 1 + references_at self.now.before.now a) (place + size_at self.now.before.now a))
            (IsFirstOther self.now.before.now self.now.after.now
            (place + 1 + references_at self.now.before.now a) (place + size_at self.now.before.now a)) }
    {
        let done = 1 + self.before.references_at(a);
        let left = self.before.size_at(a) - done;
        let j = first_unlike(self.after, place + done, self.before, a + done, left)?;
        Some(place + done + j)
    }

    /// The same from the new top up, where all words are 0.
    fn other_above(&self, top: u64) -> Option<u64>
        requires above { new_top self.now.before.now ≤ top }
        requires inside { top ≤ heap_words self.now.before.now }
        ensures { MatchOption result
            (AreCompacted self.now.before.now self.now.after.now top (heap_words self.now.before.now))
            (IsFirstOther self.now.before.now self.now.after.now top (heap_words self.now.before.now)) }
    {
        compaction_by_objects();
        let j = first_nonzero(self.after, top, self.before.len() - top)?;
        Some(top + j)
    }
}

/// The first of the indices that were found.
fn first_found(found: &[Option<usize>]) -> Option<usize>
    ensures { IsFirstFound found.now result }
{
    for &first in found {
        if first.is_some() {
            return first;
        }
    }
    None
}

/// The number of shares into which to part this number of items, at most `most`.
fn share_count(items: usize, most: usize) -> usize
    ensures some { 0 < result }
    ensures few { result ≤ 64 }
{
    most.min(items / LEAST_ITEMS).clamp(1, MOST_SHARES)
}

/// A law: where the live objects of an image go.
pub(crate) fn objects_are_placed(image: &Image)
    ensures { AreKnown image.now }
{
    image_is_valid(image);
    image_is_own(image);
    prefix_end_is_greatest();
    words_of_objects();
    new_address_by_counting();
    objects_keep_their_order();
    no_gaps_above_the_prefix();
    regions_to_fill();
    compaction_by_objects();
}

/// Whether two images are alike in all but their words, live addresses and roots.
fn have_same_shape(before: &Image, after: &Image) -> bool
    ensures { IsTrue result ↔ HaveSameShape before.now after.now }
{
    image_is_valid(before);
    image_is_valid(after);
    after.region_log() == before.region_log()
        && after.len() == before.len()
        && after.allowance() == before.allowance()
        && after.live().len() == before.live().len()
        && after.version() == before.version()
        && after.roots().len() == before.roots().len()
}
