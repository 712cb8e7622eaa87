ghost use Rattle.std.specs.Prelude.{◌≡◌, ℕ, ◌+◌, ◌<◌, ◌≤◌};
ghost use Rattle.object_heap.specs.HeapImage.{heap_words, region_words, region_count, start_of, size_at};
ghost use Rattle.summary.specs.NewAddresses.{prefix_end, new_top};
ghost use Rattle.summary.specs.RegionData.{fill_count};
ghost use Rattle.summary.specs.Compaction.{moved_word};
ghost use Rattle.claim_board.specs.RegionBoards.{original_words};
ghost use Rattle.fill.specs.WordBlocks.{IsSplitAt};
ghost use Rattle.fill.specs.CopiedWords.{copied_word};
ghost use Rattle.fill.specs.SlidWords.{AreWhole};
ghost use Rattle.fill.specs.Objects.{IsMovedTo, IsEarlyAt};
ghost use Rattle.fill.specs.WrittenWords.{Becomes, IsBlockOf};

use super::after_prefix::AfterPrefix;
use super::guide::Guide;
use super::in_prefix::InPrefix;
use super::span::Span;
use claim_board::RegionBoard;
use heap_image::header::references;
use raw_region::Region;
use summary::laws::plan_laws;
use summary::laws::region_data::regions_to_fill;

/// The region to fill: its number, its addresses, and the guide to its words.
#[derive(Clone, Copy)]
pub(crate) struct Site<'a> {
    pub(crate) guide: &'a Guide<'a>,
    pub(crate) region: u32,
    pub(crate) span: Span,
    pub(crate) ghost inside: { region < region_count guide.now },
    pub(crate) ghost to_fill: { start_of guide.now region < new_top guide.now },
    pub(crate) ghost start: { span.start ≡ start_of guide.now region },
    pub(crate) ghost end: { span.end ≡ start_of guide.now region + region_words guide.now },
    pub(crate) ghost in_heap: { span.end ≤ heap_words guide.now },
}

impl<'a> Site<'a> {
    pub(crate) fn of(guide: &'a Guide<'a>, region: u32) -> Site<'a>
        requires { region < fill_count guide.now }
        ensures guide { result.guide.now ≡ guide.now }
        ensures region { result.region ≡ region }
    {
        guide.image_is_valid();
        regions_to_fill();
        Site {
            guide,
            region,
            span: guide.span(region),
        }
    }

    pub(crate) fn in_prefix(self) -> InPrefix<'a>
        requires { self.span.start < prefix_end self.guide.now }
        ensures { result.site ≡ self.entry }
    {
        InPrefix { site: self }
    }

    pub(crate) fn after_prefix(self, board: &'a RegionBoard) -> AfterPrefix<'a>
        requires after_prefix { prefix_end self.guide.now ≤ self.span.start }
        requires whole { AreWhole self.guide.now (original_words board.now) }
        ensures site { result.site ≡ self.entry }
        ensures board { result.board.now ≡ board.now }
    {
        AfterPrefix { site: self, board }
    }

    /// Redirects the references of the live object whose new address is `at`. Its new words lie wholly in the region.
    pub(crate) fn redirect_object(&self, words: &mut Region, at: u64)
        requires object { IsEarlyAt self.now.guide.now at self.now.span.end }
        requires low { self.now.span.start ≤ at }
        requires block { IsBlockOf self.now.guide.now words.old }
        requires split { IsSplitAt (moved_word self.now.guide.now) (copied_word self.now.guide.now) self.now.span.start words.old at }
        ensures { Becomes (λ w. (a : ℕ) → IsMovedTo self.now.guide.now at a → IsSplitAt (moved_word self.now.guide.now) (copied_word self.now.guide.now)
            self.now.span.start w (at + size_at self.now.guide.now a)) words.old words.new }
    {
        plan_laws();
        self.guide.image_is_valid();
        self.guide.image_is_own();
        let first = (at - self.span.start) as usize;
        let count = references(words.get(first)) as usize;
        self.guide.plan().redirect(words, first + 1, count);
    }
}
