ghost use Rattle.std.specs.Prelude.{◌≡◌, ℕ, ◌+◌, ◌-◌, ◌<◌, ◌≤◌, ◌==◌, ◌||◌, true, false, IfSome, MatchOption, Some};
ghost use Rattle.summary.specs.Own.{IsOwn};
ghost use Rattle.object_heap.specs.HeapImage.{IsValid, heap_words, region_words, region_count, start_of, is_live_word};
ghost use Rattle.summary.specs.NewAddresses.{prefix_end, new_address, new_top};
ghost use Rattle.summary.specs.Fillers.{filler_limit, may_begin_filler};
ghost use Rattle.summary.specs.WordMoves.{slid};
ghost use Rattle.summary.specs.RegionData.{source};
ghost use Rattle.fill.specs.SourceRegions.{IsAfterPrefix};
ghost use Rattle.fill.specs.Runs.{IsNextRun};
ghost use Rattle.fill.specs.Objects.{IsObject, IsNextObject, HasNoObject};

use super::runs::Run;
use super::span::Span;
use mark_bitmap::Marks;
use std::marker::Model;
use summary::laws::new_addresses::objects_keep_their_order;
use summary::laws::plan_laws;
use summary::laws::plans::{planned_image_is_own, planned_image_is_valid};
use summary::laws::readers::sources_in_a_row;
use summary::laws::region_data::{region_data_by_words, regions_to_fill};
use summary::{FILLER_STRIDE, Plan, Survey, filler_limit};

/// The plan and the marks of one image, which say where words go.
///
/// Contracts view it as that image.
#[derive(Drop)]
pub(crate) struct Guide<'a> {
    plan: &'a Plan,
    marks: &'a Marks,
}

impl<'a> Model for Guide<'a> {
    ghost use Rattle.std.specs.Prelude.{◌≡◌};
    ghost use Rattle.object_heap.specs.HeapImage.{HeapImage};

    ghost Value = { HeapImage };

    ghost view = { λ g. g.plan.now };

    ghost invariant = { λ g. g.marks.now ≡ g.plan.now };
}

impl<'a> Guide<'a> {
    pub(crate) fn new(survey: &'a Survey) -> Guide<'a>
        ensures { result ≡ survey.now }
    {
        Guide {
            plan: survey.plan(),
            marks: survey.marks(),
        }
    }

    pub(crate) fn plan(&self) -> &Plan
        ensures { result.now ≡ self.now }
    {
        self.plan
    }

    /// A law: the image is valid.
    #[inline]
    pub(crate) fn image_is_valid(&self)
        ensures { IsValid self.now }
    {
        planned_image_is_valid(self.plan);
    }

    /// A law: the image has the layout of images in files.
    #[inline]
    pub(crate) fn image_is_own(&self)
        ensures { IsOwn self.now }
    {
        planned_image_is_own(self.plan);
    }

    #[inline]
    pub(crate) fn prefix_end(&self) -> u64
        ensures value { result ≡ prefix_end self.now }
        ensures valid { IsValid self.now }
    {
        self.plan.prefix_end()
    }

    /// The addresses of region `r`.
    pub(crate) fn span(&self, r: u32) -> Span
        requires { r < region_count self.now }
        ensures start { result.start ≡ start_of self.now r }
        ensures end { result.end ≡ start_of self.now r + region_words self.now }
        ensures inside { start_of self.now r + region_words self.now ≤ heap_words self.now }
        ensures valid { IsValid self.now }
    {
        let words = 1 << self.plan.region_log();
        let start = u64::from(r) * words;
        Span {
            start,
            end: start + words,
        }
    }

    /// The new address of the first live word from the start of region `r` on. The region lies after the prefix.
    pub(crate) fn destination(&self, r: u32) -> u64
        requires { IsAfterPrefix self.now r }
        ensures { result ≡ slid self.now (start_of self.now r) }
    {
        plan_laws();
        planned_image_is_valid(self.plan);
        self.plan.region(r).destination
    }

    /// The new address of the first live word after region `r`, which lies after the prefix.
    pub(crate) fn destination_after(&self, r: u32) -> u64
        requires { IsAfterPrefix self.now r }
        ensures { result ≡ slid self.now (start_of self.now r + region_words self.now) }
    {
        plan_laws();
        planned_image_is_valid(self.plan);
        region_data_by_words();
        let data = self.plan.region(r);
        self.destination(r) + u64::from(data.partial) + u64::from(data.live)
    }

    /// The region from which the first word of region `d` comes.
    pub(crate) fn source(&self, d: u32) -> u32
        requires region { IsAfterPrefix self.now d }
        requires to_fill { start_of self.now d < new_top self.now }
        ensures { source self.now d ≡ Some result }
    {
        planned_image_is_valid(self.plan);
        sources_in_a_row();
        match self.plan.region(d).source {
            Some(s) => s,
            None => unreachable!(),
        }
    }

    /// The address in region `r` from which its live words go to `to` and above. The region lies after the prefix.
    pub(crate) fn first_from(&self, r: u32, to: u64) -> u64
        requires region { IsAfterPrefix self.now r }
        requires low { slid self.now (start_of self.now r) ≤ to }
        requires high { to ≤ slid self.now (start_of self.now r + region_words self.now) }
        ensures after { start_of self.now r ≤ result }
        ensures inside { result ≤ start_of self.now r + region_words self.now }
        ensures place { slid self.now result ≡ to }
    {
        plan_laws();
        let span = self.span(r);
        let mut at = span.start;
        let mut place = self.destination(r);
        while place < to {
            let run = self.next_run(at, span.end);
            let n = (run.end - run.begin).min(to - place);
            place += n;
            at = run.begin + n;
        }
        at
    }

    /// The first run of live words in `from..to`, cut at `to`.
    #[inline]
    pub(crate) fn next_run(&self, from: u64, to: u64) -> Run
        requires { from ≤ to }
        ensures { IsNextRun self.now from to result.begin result.end }
    {
        Run::next(self.marks, from, to)
    }

    /// The first live object that begins in `from..to`.
    #[inline]
    pub(crate) fn next_object(&self, from: u64, to: u64) -> Option<u64>
        ensures first { MatchOption result (HasNoObject self.now from to) (IsNextObject self.now from) }
        ensures below { IfSome result (λ a. a < to) }
    {
        self.marks.next_begin_before(from, to)
    }

    /// The end of the filler that begins at `begin`, if the words from there up to `at` are dead.
    pub(crate) fn filler_end(&self, begin: u64, at: u64) -> u64
        requires below { begin < prefix_end self.now }
        requires reached { at ≤ filler_limit self.now begin }
        ensures after { at ≤ result }
        ensures inside { result ≤ filler_limit self.now begin }
        ensures near { result ≤ begin + 2147483648 }
        ensures dead { (q : ℕ) → at ≤ q → q < result → is_live_word self.now q ≡ false }
        ensures live { result < filler_limit self.now begin → is_live_word self.now result ≡ true }
    {
        regions_to_fill();
        planned_image_is_valid(self.plan);
        let limit = filler_limit(self.plan.prefix_end(), begin);
        self.marks.next_live_before(at, limit).unwrap_or(limit)
    }

    /// Whether a filler begins at `at`, if its word is dead.
    pub(crate) fn may_begin_filler(&self, at: u64) -> bool
        requires { at ≤ heap_words self.now }
        ensures { result ≡ may_begin_filler self.now at }
    {
        at % FILLER_STRIDE == 0 || self.marks.live_words(at - 1, at) == 1
    }

    #[inline]
    pub(crate) fn new_address(&self, a: u64) -> u64
        requires { IsObject self.now a }
        ensures value { result ≡ new_address self.now a }
        ensures down { result ≤ a }
    {
        planned_image_is_valid(self.plan);
        objects_keep_their_order();
        self.plan.new_address(a)
    }
}
