ghost use Rattle.std.specs.Prelude.{◌≡◌, ℕ, ◌<◌, ◌≤◌, false};
ghost use Rattle.object_heap.specs.HeapImage.{start_of, word_at, block_of, is_live_word};
ghost use Rattle.summary.specs.NewAddresses.{prefix_end};
ghost use Rattle.summary.specs.Compaction.{moved_word};
ghost use Rattle.fill.specs.WordBlocks.{IsSplitAt, Shows};
ghost use Rattle.fill.specs.CopiedWords.{copied_word};
ghost use Rattle.fill.specs.WrittenWords.{Becomes, IsBlockOf, IsUnwritten, IsMoved};

use super::site::Site;
use heap_image::header::{filler, size};
use raw_region::Region;
use summary::laws::plan_laws;

/// A region that begins in the dense prefix, where each live object keeps its address.
#[derive(Drop)]
pub(crate) struct InPrefix<'a> {
    pub(crate) site: Site<'a>,
    pub(crate) ghost in_prefix: { start_of site.guide.now site.region < prefix_end site.guide.now },
}

impl InPrefix<'_> {
    /// Writes the fillers, and redirects the references in place.
    pub(crate) fn fill(&self, words: &mut Region)
        requires { IsUnwritten (block_of self.now.site.guide.now) self.now.site.region words.old }
        ensures { Becomes (IsMoved self.now.site.guide.now self.now.site.region) words.old words.new }
    {
        self.site.guide.image_is_valid();
        self.write_fillers(words);
        self.redirect_objects(words);
    }

    fn write_fillers(&self, words: &mut Region)
        requires { IsUnwritten (block_of self.now.site.guide.now) self.now.site.region words.old }
        ensures { Becomes (λ w. Shows (copied_word self.now.site.guide.now) self.now.site.span.start w) words.old words.new }
    {
        plan_laws();
        let span = self.site.span;
        self.site.guide.image_is_valid();
        let mut at = span.start;
        while at < span.end {
            let run = self.site.guide.next_run(at, span.end);
            self.write_gap(words, at, run.begin);
            at = run.end;
        }
    }

    /// Writes the filler over the dead words `at..stop`. Writes nothing after `stop`, though the filler may continue in
    /// the next regions.
    fn write_gap(&self, words: &mut Region, at: u64, stop: u64)
        requires low { self.now.site.span.start ≤ at }
        requires ordered { at ≤ stop }
        requires high { stop ≤ self.now.site.span.end }
        requires dead { (q : ℕ) → at ≤ q → q < stop → is_live_word self.now.site.guide.now q ≡ false }
        requires block { IsBlockOf self.now.site.guide.now words.old }
        requires split { IsSplitAt (copied_word self.now.site.guide.now) (word_at self.now.site.guide.now) self.now.site.span.start words.old at }
        ensures { Becomes (λ w. IsSplitAt (copied_word self.now.site.guide.now) (word_at self.now.site.guide.now) self.now.site.span.start w stop) words.old words.new }
    {
        plan_laws();
        self.site.guide.image_is_valid();
        if at == stop {
            return;
        }
        let first = (at - self.site.span.start) as usize;
        let n = (stop - at) as usize;
        if self.site.guide.may_begin_filler(at) {
            let end = self.site.guide.filler_end(at, stop);
            words.set(first, filler((end - at) as u32));
            words.fill(first + 1, n - 1, 0);
        } else {
            words.fill(first, n, 0);
        }
    }

    /// Redirects the references of the live objects that lie wholly in the region.
    fn redirect_objects(&self, words: &mut Region)
        requires block { IsBlockOf self.now.site.guide.now words.old }
        requires copied { Shows (copied_word self.now.site.guide.now) self.now.site.span.start words.old }
        ensures { Becomes (λ w. Shows (moved_word self.now.site.guide.now) self.now.site.span.start w) words.old words.new }
    {
        plan_laws();
        let span = self.site.span;
        self.site.guide.image_is_valid();
        self.site.guide.image_is_own();
        let mut from = span.start;
        while let Some(a) = self.site.guide.next_object(from, span.end) {
            let header = words.get((a - span.start) as usize);
            let length = u64::from(size(header));
            if a + length <= span.end {
                self.site.redirect_object(words, a);
            }
            from = a + length;
        }
    }
}
