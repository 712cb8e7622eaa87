//! Explains how the words of a heap differ from those of the compaction that it should be.
ghost use Rattle.std.specs.Prelude.{◌≡◌, ℕ, ◌+◌, ◌-◌, ◌<◌, ◌≤◌, All, Contains, IsTrue, IfOk, IfErr, OnOk, IfSome, IfNone, MatchOption, length, map, min, slice_index};
ghost use Rattle.object_heap.specs.HeapImage.{heap_words, word_at, size_at, references_at, words_alone};
ghost use Rattle.image_streams.specs.declared.fault.Fault.TheVariants.{Memory};
ghost use Rattle.summary.specs.LiveObjects.{object_count, object_at};
ghost use Rattle.summary.specs.NewAddresses.{new_address, new_top};
ghost use Rattle.summary.specs.Fillers.{IsDeadRun};
ghost use Rattle.verification.specs.Compared.{IsGap, IsPlaced};
ghost use Rattle.verification.specs.Explanation.{IsTallyOf, IsMoved, IsPart, IsPartAt, IsLead, IsLeadOf, IsNeighbour, IsOrigin, IsExplained, IsExplanation, IsOtherLive, IsOtherRoot, limit_of};
ghost use Rattle.verification.specs.Difference.{AreAlike};
ghost use Rattle.verification.specs.Verdict.{root_count, root_at};
ghost use Rattle.summary.specs.Compaction.{redirected, compact};

use crate::comparison::objects_are_placed;
use crate::difference_tally::{OtherWord, Tally};
use crate::verdict_explanation::{
    ExplainedWord, Explanation, Lead, Moved, Origin, OtherLive, OtherRoot, Part,
};
use crate::verifier::Verifier;
use heap_image::{Fault, Heap, Image, header, image_is_valid};
use std::alloc::{AllocError, Global};
use summary::laws::compaction::compaction_by_objects;
use summary::laws::dense_prefix::fillers_by_runs;
use summary::{Survey, filler_limit};

/// Compares the words of `after` with those of the compaction of `before`: all, or if `below_top` those below the new
/// top. Counts the words that differ, and says of the first ten which object they belong to, which of its words they
/// are, where a wrong reference leads, and where a wrong word stands, too; and names the last of them, and the first live
/// address and the first root that differ. Returns `None` if the heaps have different numbers of words.
///
/// Takes linear time. The only error is `Fault::Memory`, if memory runs out.
pub fn explain<V: Verifier>(
    alloc: Global,
    before: &Image,
    after: Found<'_>,
    below_top: bool,
    verifier: &V,
) -> Result<Option<Explanation>, Fault>
    requires start { V.may_start }
    ensures explanation { IfOk result (λ found. MatchOption found
        (heap_words after.entry.heap.now ≡ heap_words before.now → ⊥)
        (IsExplanation before.now after.entry.heap.now after.entry.live.now after.entry.roots.now
        (limit_of below_top before.now))) }
    ensures fault { IfErr result (λ fault. fault ≡ Memory) }
{
    if after.heap.len() != before.len() {
        return Ok(None);
    }
    let survey = Survey::of(alloc, before, verifier)?;
    let words = WordComparison {
        before,
        after: after.heap,
        survey: &survey,
    };
    let limit = words.limit(below_top);
    let tally = words.tally(alloc, limit)?;
    let first = words.explain_each(alloc, tally.first.as_slice())?;
    Ok(Some(Explanation {
        count: tally.count,
        last: tally.last,
        first,
        live: words.other_live(after.live),
        root: words.other_root(after.roots),
    }))
}

/// What was found in place of a compaction.
#[derive(Clone, Copy)]
pub struct Found<'a> {
    /// The words, also those of a file that is no valid image.
    pub heap: &'a Heap<'a>,
    /// The live addresses; empty for version 2, which lists none.
    pub live: &'a [u64],
    /// The roots; empty for version 1.
    pub roots: &'a [u64],
}

/// An image, and the words that should be those of its compaction.
#[derive(Drop)]
pub(crate) struct WordComparison<'a> {
    pub(crate) before: &'a Image,
    pub(crate) after: &'a Heap<'a>,
    pub(crate) survey: &'a Survey,
    ghost survey_of: { survey.now ≡ before.now },
    ghost room: { heap_words after.now ≡ heap_words before.now },
}

impl WordComparison<'_> {
    /// The first address that isn't compared.
    pub(crate) fn limit(&self, below_top: bool) -> u64
        ensures value { result ≡ limit_of below_top self.now.before.now }
        ensures above { new_top self.now.before.now ≤ result }
        ensures inside { result ≤ heap_words self.now.before.now }
    {
        objects_are_placed(self.before);
        if below_top {
            self.survey.plan().new_top()
        } else {
            self.before.len()
        }
    }

    /// Explains each of these words.
    fn explain_each(
        &self,
        alloc: Global,
        words: &[OtherWord],
    ) -> Result<Vec<ExplainedWord>, AllocError>
        requires inside { All (λ word. word.address < heap_words self.now.before.now) words.now }
        ensures words { IfOk result (λ all. map (λ e. e.word) all.items ≡ words.now) }
        ensures explained { IfOk result (λ all. All (IsExplained self.now.before.now) all.items) }
    {
        let mut all = Vec::new(alloc);
        for &word in words {
            all.push(self.explained(word))?;
        }
        Ok(all)
    }

    /// Counts the words that differ below this address.
    pub(crate) fn tally(&self, alloc: Global, limit: u64) -> Result<Tally, AllocError>
        requires above { new_top self.now.before.now ≤ limit }
        requires inside { limit ≤ heap_words self.now.before.now }
        ensures { IfOk result (IsTallyOf self.now.before.now self.now.after.now limit) }
    {
        objects_are_placed(self.before);
        let mut tally = Tally::new(alloc);
        let mut next = 0;
        for &a in self.before.live() {
            let place = self.survey.plan().new_address(a);
            self.compare_gap(&mut tally, next, place)?;
            self.compare_object(&mut tally, a, place)?;
            next = place + self.before.size_at(a);
        }
        self.compare_free(&mut tally, next, limit)?;
        Ok(tally)
    }

    /// Compares the dead words before an object, which become fillers.
    fn compare_gap(&self, tally: &mut Tally, from: u64, to: u64) -> Result<(), AllocError>
        requires ordered { from ≤ to }
        requires inside { to ≤ heap_words self.now.before.now }
        requires run { from < to → IsGap self.now.before.now from to }
        requires tally { IsTallyOf self.now.before.now self.now.after.now from tally.old }
        ensures { OnOk result (IsTallyOf self.now.before.now self.now.after.now to tally.new) }
    {
        image_is_valid(self.before);
        let mut at = from;
        while at < to {
            let end = filler_limit(to, at);
            self.compare_filler(tally, at, end)?;
            at = end;
        }
        Ok(())
    }

    /// Compares the dead words that become one filler.
    fn compare_filler(&self, tally: &mut Tally, from: u64, to: u64) -> Result<(), AllocError>
        requires ordered { from ≤ to }
        requires inside { to ≤ heap_words self.now.before.now }
        requires run { from < to → IsDeadRun self.now.before.now from to }
        requires tally { IsTallyOf self.now.before.now self.now.after.now from tally.old }
        ensures { OnOk result (IsTallyOf self.now.before.now self.now.after.now to tally.new) }
    {
        fillers_by_runs();
        image_is_valid(self.before);
        for p in from..to {
            let expected = if p == from {
                header::filler((to - from) as u32)
            } else {
                0
            };
            tally.compare(p, expected, self.after.word(p))?;
        }
        Ok(())
    }

    /// Compares the words of the object that was at `a`.
    fn compare_object(&self, tally: &mut Tally, a: u64, place: u64) -> Result<(), AllocError>
        requires placed { IsPlaced self.now.before.now a place }
        requires tally { IsTallyOf self.now.before.now self.now.after.now place tally.old }
        ensures { OnOk result (IsTallyOf self.now.before.now self.now.after.now
            (place + size_at self.now.before.now a) tally.new) }
    {
        image_is_valid(self.before);
        tally.compare(place, self.before.word(a), self.after.word(place))?;
        self.compare_references(tally, a, place)?;
        self.compare_data(tally, a, place)
    }

    /// Compares the references of the object that was at `a`.
    fn compare_references(&self, tally: &mut Tally, a: u64, place: u64) -> Result<(), AllocError>
        requires placed { IsPlaced self.now.before.now a place }
        requires tally { IsTallyOf self.now.before.now self.now.after.now (place + 1) tally.old }
        ensures { OnOk result (IsTallyOf self.now.before.now self.now.after.now
            (place + 1 + references_at self.now.before.now a) tally.new) }
    {
        image_is_valid(self.before);
        for f in 0..self.before.references_at(a) {
            let reference = self.before.word(a + 1 + f);
            let expected = self.survey.plan().redirected(reference);
            let p = place + 1 + f;
            tally.compare(p, expected, self.after.word(p))?;
        }
        Ok(())
    }

    /// Compares the words after the references of the object that was at `a`.
    fn compare_data(&self, tally: &mut Tally, a: u64, place: u64) -> Result<(), AllocError>
        requires placed { IsPlaced self.now.before.now a place }
        requires tally { IsTallyOf self.now.before.now self.now.after.now
            (place + 1 + references_at self.now.before.now a) tally.old }
        ensures { OnOk result (IsTallyOf self.now.before.now self.now.after.now
            (place + size_at self.now.before.now a) tally.new) }
    {
        image_is_valid(self.before);
        for j in 1 + self.before.references_at(a)..self.before.size_at(a) {
            let p = place + j;
            tally.compare(p, self.before.word(a + j), self.after.word(p))?;
        }
        Ok(())
    }

    /// Compares the words from the new top up to `limit`, which are 0.
    fn compare_free(&self, tally: &mut Tally, top: u64, limit: u64) -> Result<(), AllocError>
        requires above { new_top self.now.before.now ≤ top }
        requires ordered { top ≤ limit }
        requires inside { limit ≤ heap_words self.now.before.now }
        requires tally { IsTallyOf self.now.before.now self.now.after.now top tally.old }
        ensures { OnOk result (IsTallyOf self.now.before.now self.now.after.now limit tally.new) }
    {
        compaction_by_objects();
        image_is_valid(self.before);
        for p in top..limit {
            tally.compare(p, 0, self.after.word(p))?;
        }
        Ok(())
    }

    /// Says what the compaction has at the address of a word that differs.
    fn explained(&self, word: OtherWord) -> ExplainedWord
        requires { word.address < heap_words self.now.before.now }
        ensures word { result.word ≡ word }
        ensures explained { IsExplained self.now.before.now result }
    {
        let part = self.part(word.address);
        let lead = match part {
            Part::Field(moved, f) => {
                field_is_inside(self.before, moved.old, f);
                Some(self.lead(self.before.word(moved.old + 1 + f), word.found))
            }
            Part::Header(_) | Part::Data(_, _) | Part::Filler | Part::Free => None,
        };
        ExplainedWord {
            word,
            part,
            lead,
            origin: self.origin(word, part),
        }
    }

    /// Where the word that was found stands, too.
    fn origin(&self, word: OtherWord, part: Part) -> Option<Origin>
        requires inside { word.address < heap_words self.now.before.now }
        requires part { IsPart self.now.before.now word.address part }
        ensures { IsOrigin self.now.before.now word part result }
    {
        if word.found == 0 {
            return None;
        }
        if self.before.word(word.address) == word.found {
            return Some(Origin::Before);
        }
        let neighbour = match part {
            Part::Header(moved) => self.neighbour(moved, 0, word.found),
            Part::Field(moved, f) => self.neighbour(moved, 1 + f, word.found),
            Part::Data(moved, d) => {
                object_is_inside(self.before, moved.old);
                let references = self.before.references_at(moved.old);
                self.neighbour(moved, 1 + references + d, word.found)
            }
            Part::Filler | Part::Free => None,
        };
        match neighbour {
            Some(other) => Some(Origin::Neighbour(other)),
            None => None,
        }
    }

    /// The neighbour of a live object in the compaction that has this word at this index, if one has.
    fn neighbour(&self, moved: Moved, index: u64, word: u64) -> Option<Moved>
        requires moved { IsMoved self.now.before.now moved }
        ensures { MatchOption result
            ((i : ℕ) → i < object_count self.now.before.now → IsNeighbour self.now.before.now moved index word (object_at self.now.before.now i) → ⊥)
            (λ other. IsMoved self.now.before.now other × IsNeighbour self.now.before.now moved index word other.old) }
    {
        objects_are_placed(self.before);
        for &a in self.before.live() {
            let other = self.moved(a);
            if self.is_neighbour(moved, index, word, other) {
                return Some(other);
            }
        }
        None
    }

    /// The live object at `a`, and its new address.
    fn moved(&self, a: u64) -> Moved
        requires live { Contains self.now.before.now.live a }
        ensures moved { IsMoved self.now.before.now result }
        ensures old { result.old ≡ a }
    {
        Moved {
            old: a,
            new: self.survey.plan().new_address(a),
        }
    }

    /// Whether the other live object is a neighbour of this one that has this word at this index.
    fn is_neighbour(&self, moved: Moved, index: u64, word: u64, other: Moved) -> bool
        requires moved { IsMoved self.now.before.now moved }
        requires other { IsMoved self.now.before.now other }
        requires placed { IsPlaced self.now.before.now other.old other.new }
        ensures yes { IsTrue result → IsNeighbour self.now.before.now moved index word other.old }
        ensures no { IsNeighbour self.now.before.now moved index word other.old → IsTrue result }
    {
        image_is_valid(self.before);
        let size = self.before.size_at(other.old);
        let is_before = other.new + size == moved.new;
        let is_behind = moved.new <= other.new
            && other.new - moved.new == self.before.size_at(moved.old);
        if !is_before && !is_behind {
            return false;
        }
        if size <= index {
            return false;
        }
        self.object_word(other.old, other.new, index) == word
    }

    /// The word at this index of the object that was at `a`, in the compaction.
    fn object_word(&self, a: u64, place: u64, index: u64) -> u64
        requires placed { IsPlaced self.now.before.now a place }
        requires inside { index < size_at self.now.before.now a }
        ensures { result ≡ word_at (compact self.now.before.now) (place + index) }
    {
        image_is_valid(self.before);
        if index == 0 {
            return self.before.word(a);
        }
        let f = index - 1;
        if f < self.before.references_at(a) {
            self.survey.plan().redirected(self.before.word(a + 1 + f))
        } else {
            self.before.word(a + index)
        }
    }

    /// Where a reference leads that was found. `was` is the one from before the collection.
    fn lead(&self, was: u64, found: u64) -> Lead
        ensures { IsLead self.now.before.now was found result }
    {
        if found == 0 {
            return Lead::Null;
        }
        if found > self.before.len() {
            return Lead::Outside;
        }
        if found == was {
            return Lead::Unchanged;
        }
        Lead::To(self.part(found - 1))
    }

    /// The first live address that differs, of as many as both lists have.
    fn other_live(&self, found: &[u64]) -> Option<OtherLive>
        ensures { MatchOption result
            (AreAlike (λ i. new_address self.now.before.now (object_at self.now.before.now i)) (slice_index found.now)
            (min (object_count self.now.before.now) (length found.now)))
            (IsOtherLive self.now.before.now found.now) }
    {
        let live = self.before.live();
        for i in 0..live.len().min(found.len()) {
            let expected = self.survey.plan().new_address(live[i]);
            let other = found[i];
            if other != expected {
                return Some(OtherLive {
                    index: i as u64,
                    expected,
                    found: other,
                });
            }
        }
        None
    }

    /// The first root that differs, if as many were found as there are.
    fn other_root(&self, found: &[u64]) -> Option<OtherRoot>
        ensures { MatchOption result
            (length found.now ≡ root_count self.now.before.now → AreAlike (λ i. redirected self.now.before.now (root_at self.now.before.now i))
            (slice_index found.now) (root_count self.now.before.now))
            (IsOtherRoot self.now.before.now found.now) }
    {
        if found.len() != self.before.roots().len() {
            return None;
        }
        for (i, &root) in self.before.roots().iter().enumerate() {
            let expected = self.survey.plan().redirected(root);
            let other = found[i];
            if other != expected {
                return Some(OtherRoot {
                    index: i as u64,
                    expected,
                    found: other,
                    lead: self.lead(root, other),
                });
            }
        }
        None
    }

    /// What the word at `p` is in the compaction.
    fn part(&self, p: u64) -> Part
        ensures { IsPart self.now.before.now p result }
    {
        objects_are_placed(self.before);
        for &a in self.before.live() {
            let place = self.survey.plan().new_address(a);
            if place <= p && p - place < self.before.size_at(a) {
                let moved = Moved { old: a, new: place };
                return part_of(moved, p - place, self.before.references_at(a));
            }
        }
        if p < self.survey.plan().new_top() {
            Part::Filler
        } else {
            Part::Free
        }
    }
}

/// A law: a live object lies in the heap.
fn object_is_inside(image: &Image, a: u64)
    requires live { Contains image.now.live a }
    ensures inside { a < heap_words image.now }
{
    image_is_valid(image);
}

/// A law: the fields of a live object lie in the heap.
fn field_is_inside(image: &Image, a: u64, f: u64)
    requires live { Contains image.now.live a }
    requires field { f < references_at image.now a }
    ensures inside { a + 1 + f < heap_words image.now }
    ensures few { heap_words image.now ≤ 68719476736 }
{
    image_is_valid(image);
}

/// What the word at this index in an object is, by the number of its references.
fn part_of(moved: Moved, index: u64, references: u64) -> Part
    ensures { IsPartAt moved index references result }
{
    if index == 0 {
        Part::Header(moved)
    } else if index <= references {
        Part::Field(moved, index - 1)
    } else {
        Part::Data(moved, index - 1 - references)
    }
}
