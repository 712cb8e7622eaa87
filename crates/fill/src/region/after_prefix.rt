ghost use Rattle.std.specs.Prelude.{◌≡◌, ℕ, ◌+◌, ◌-◌, ◌^◌, ◌<◌, ◌≤◌, false};
ghost use Rattle.object_heap.specs.HeapImage.{region_count, start_of};
ghost use Rattle.summary.specs.NewAddresses.{prefix_end};
ghost use Rattle.summary.specs.WordMoves.{reads};
ghost use Rattle.summary.specs.Compaction.{moved_word};
ghost use Rattle.claim_board.specs.RegionBoards.{original_words};
ghost use Rattle.fill.specs.WordBlocks.{IsSplitAt, Shows};
ghost use Rattle.fill.specs.CopiedWords.{copied_word, reaches};
ghost use Rattle.fill.specs.SlidWords.{AreWhole};
ghost use Rattle.fill.specs.Objects.{IsBetween};
ghost use Rattle.fill.specs.WrittenWords.{Becomes, IsBlockOf, IsUnwritten, IsCopied, IsMoved};
ghost use Rattle.fill.specs.SourceRegions.{IsNextOtherSource};

use super::site::Site;
use claim_board::RegionBoard;
use heap_image::header::size;
use raw_region::Region;
use summary::laws::plan_laws;

/// Whether a source has words for the target region at `start..limit`: its live words go to `first..after`.
fn reaches(start: u64, limit: u64, first: u64, after: u64) -> bool
    ensures { result ≡ reaches start limit first after }
{
    first < limit && (start < after && first < after)
}

/// A region after the dense prefix, which is filled with its own words and those of regions above it, all of which the
/// board keeps.
#[derive(Drop)]
pub(crate) struct AfterPrefix<'a> {
    pub(crate) site: Site<'a>,
    pub(crate) board: &'a RegionBoard,
    pub(crate) ghost after_prefix: { prefix_end site.guide.now ≤ start_of site.guide.now site.region },
    pub(crate) ghost whole: { AreWhole site.guide.now (original_words board.now) },
}

impl AfterPrefix<'_> {
    /// Whether the region has words for itself.
    fn reads_itself(&self) -> bool
        ensures { result ≡ reads self.now.site.guide.now self.now.site.region self.now.site.region }
    {
        plan_laws();
        let guide = self.site.guide;
        guide.image_is_valid();
        let first = guide.destination(self.site.region);
        let after = guide.destination_after(self.site.region);
        reaches(self.site.span.start, self.site.span.end, first, after)
    }

    /// Slides the region's own words down. Returns the address up to which the region is written.
    pub(crate) fn slide_own(&self, words: &mut Region) -> u64
        requires { IsUnwritten (original_words self.now.board.now) self.now.site.region words.old }
        ensures { Becomes (IsCopied self.now.site.guide.now (original_words self.now.board.now) self.now.site.region (self.now.site.region + 1) result) words.old words.new }
    {
        plan_laws();
        let guide = self.site.guide;
        let span = self.site.span;
        guide.image_is_valid();
        if !self.reads_itself() {
            return span.start;
        }
        let mut from = guide.first_from(self.site.region, span.start);
        let mut to = span.start;
        while from < span.end {
            let run = guide.next_run(from, span.end);
            let n = run.end - run.begin;
            let first = (run.begin - span.start) as usize;
            words.slide(first, (to - span.start) as usize, n as usize);
            to += n;
            from = run.end;
        }
        to
    }

    /// Copies the words that come from source `s`. On entry the words from all regions below `s` are copied, and the
    /// region is written up to `to`. Returns the address up to which it is written afterwards.
    pub(crate) fn copy_source(&self, source: &Region, s: u32, words: &mut Region, to: u64) -> u64
        requires source { source.now ≡ original_words self.now.board.now s }
        requires next { (from : ℕ) × IsNextOtherSource self.now.site.guide.now self.now.site.region from s × IsCopied self.now.site.guide.now (original_words self.now.board.now) self.now.site.region from to words.old }
        ensures more { (to ≤ result) × (result - to < 2 ^ 32) }
        ensures copied { Becomes (IsCopied self.now.site.guide.now (original_words self.now.board.now) self.now.site.region (s + 1) result) words.old words.new }
    {
        plan_laws();
        let guide = self.site.guide;
        let read = guide.span(s);
        let write = self.site.span;
        let mut from = guide.first_from(s, to);
        let mut to = to;
        while from < read.end && to < write.end {
            let run = guide.next_run(from, read.end);
            let n = (run.end - run.begin).min(write.end - to);
            let first = (run.begin - read.start) as usize;
            words.copy_from((to - write.start) as usize, source, first, n as usize);
            to += n;
            from = run.begin + n;
        }
        to
    }

    /// Redirects the references of the live objects that lie wholly in the region. All words for it are copied, and the
    /// regions from `from` on have none.
    pub(crate) fn redirect_objects(&self, words: &mut Region, from: u32)
        requires own { self.now.site.region < from }
        requires within { from ≤ region_count self.now.site.guide.now }
        requires last { (t : ℕ) → from ≤ t → t < region_count self.now.site.guide.now → reads self.now.site.guide.now self.now.site.region t ≡ false }
        requires block { IsBlockOf self.now.site.guide.now words.old }
        requires copied { Shows (copied_word self.now.site.guide.now) self.now.site.span.start words.old }
        ensures { Becomes (IsMoved self.now.site.guide.now self.now.site.region) words.old words.new }
    {
        plan_laws();
        let guide = self.site.guide;
        guide.image_is_valid();
        let s = guide.source(self.site.region);
        let first = guide.first_from(s, self.site.span.start);
        let last = guide.span(from - 1).end;
        if let Some(a) = guide.next_object(first, last) {
            self.redirect_row(words, guide.new_address(a));
        }
    }

    /// Redirects the references of the live objects that lie wholly in the region. They are adjacent, and the first
    /// begins at `at`.
    fn redirect_row(&self, words: &mut Region, at: u64)
        requires low { self.now.site.span.start ≤ at }
        requires between { IsBetween self.now.site.guide.now at }
        requires block { IsBlockOf self.now.site.guide.now words.old }
        requires split { IsSplitAt (moved_word self.now.site.guide.now) (copied_word self.now.site.guide.now) self.now.site.span.start words.old at }
        ensures { Becomes (λ w. Shows (moved_word self.now.site.guide.now) self.now.site.span.start w) words.old words.new }
    {
        plan_laws();
        let span = self.site.span;
        self.site.guide.image_is_valid();
        self.site.guide.image_is_own();
        let limit = self.site.guide.plan().new_top().min(span.end);
        let mut at = at;
        while at < limit {
            let header = words.get((at - span.start) as usize);
            let next = at + u64::from(size(header));
            if next <= span.end {
                self.site.redirect_object(words, at);
            }
            at = next;
        }
    }
}
