ghost use Rattle.std.specs.Prelude.{◌≡◌, ◌+◌, ◌<◌, ◌≤◌, length, slice_index, IfOk, IfErr};
ghost use Rattle.object_heap.specs.HeapImage.{IsValid, region_words, region_count, block_of};
ghost use Rattle.image_streams.specs.declared.fault.Fault.TheVariants.{Overwritten};
ghost use Rattle.raw_region.specs.Region.{with_words, part};
ghost use Rattle.region_cells.specs.Views.{source_words};

use crate::cells::Cells;
use crate::kept::Kept;
use crate::target::Target;
use claim_board::{Closed, Opening};
use counted_slot::Claim;
use heap_image::Fault;
use raw_region::Region;
use std::marker::Model;
use std::snapshot::Snapshot;

/// How a source has its region.
pub(crate) enum Hold<'a> {
    /// In its cell, which counts the source as a reader.
    Cell(Claim<'a, Kept>),
    /// As it lies, since no one writes it.
    Plain(&'a Region),
}

/// A region that is open for reading, with its original words. Several sources of one region may be open at the same
/// time; no one writes it meanwhile.
///
/// A source owns its opening, so that opening's pair cannot be drained before the source is closed. It cannot be
/// dropped.
///
/// Contracts view it as the image and the opening.
pub struct Source<'a> {
    hold: Hold<'a>,
    cells: Snapshot<Cells>,
    opening: Opening,
}

impl<'a> Model for Source<'a> {
    ghost use Rattle.region_cells.specs.Views.{Reading};
    ghost use Rattle.region_cells.specs.Hands.{IsReading};

    ghost Value = { Reading };

    ghost view = { λ s. record { image = s.cells.value; opening = s.opening } };

    ghost invariant = { λ s. IsReading s.cells.value s.opening.source s.hold };
}

impl<'a> Source<'a> {
    /// Makes a source from a reader's claim. Returns fault 15, and gives the opening up, unless the region is original.
    pub(crate) fn new(
        claim: Claim<'a, Kept>,
        cells: Snapshot<Cells>,
        opening: Opening,
    ) -> Result<Source<'a>, Fault>
        requires valid { IsValid cells.value }
        requires inside { opening.source < region_count cells.value }
        requires right { claim.right ≡ 1 }
        requires place { claim.tag ≡ record { image = cells.value; region = opening.source } }
        ensures source { IfOk result (λ source. source ≡ record { image = cells.value; opening = opening }) }
        ensures fault { IfErr result (λ fault. fault ≡ Overwritten opening.source) }
    {
        if matches!(claim.get(), Kept::Original(_)) {
            return Ok(Source {
                hold: Hold::Cell(claim),
                cells,
                opening,
            });
        }
        let region = opening.source();
        claim.leave();
        opening.give_up();
        Err(Fault::Overwritten(region))
    }

    /// Makes a source of a region that no one writes.
    pub(crate) fn of_plain(
        region: &'a Region,
        cells: Snapshot<Cells>,
        opening: Opening,
    ) -> Source<'a>
        requires valid { IsValid cells.value }
        requires inside { opening.source < region_count cells.value }
        requires words { region.now ≡ block_of cells.value opening.source }
        ensures { result ≡ record { image = cells.value; opening = opening } }
    {
        Source {
            hold: Hold::Plain(region),
            cells,
            opening,
        }
    }

    fn region(&self) -> &Region
        ensures words { result.now ≡ source_words self.now }
        ensures length { length result.now ≡ region_words self.now.image }
    {
        match &self.hold {
            Hold::Cell(claim) => match claim.get() {
                Kept::Original(region) => region,
                _ => unreachable!(),
            },
            Hold::Plain(region) => region,
        }
    }

    /// The word at index `i` of the region.
    #[inline]
    pub fn get(&self, i: usize) -> u64
        requires { i < region_words self.now.image }
        ensures { result ≡ slice_index (source_words self.now) i }
    {
        self.region().get(i)
    }

    /// Copies `n` words, from index `from` of this region to index `at` of `target`.
    pub fn copy_into(&self, target: &mut Target<'_>, from: usize, at: usize, n: usize)
        requires source { from + n ≤ region_words self.now.image }
        requires room { at + n ≤ region_words target.old.image }
        ensures value { target.new ≡ record target.old { words = with_words target.old.words at (part (source_words self.now) from n) } }
        ensures length { length target.new.words ≡ region_words target.old.image }
    {
        target.region.copy_from(at, self.region(), from, n);
    }

    /// Closes the source. The result is the evidence that a drain of the pair requires.
    pub fn close(self) -> Closed
        ensures destination { result.destination ≡ self.entry.opening.destination }
        ensures source { result.source ≡ self.entry.opening.source }
        ensures ticket { result.ticket ≡ self.entry.opening.ticket }
    {
        let Source {
            hold,
            cells: _,
            opening,
        } = self;
        match hold {
            Hold::Cell(claim) => {
                claim.leave();
            }
            Hold::Plain(_) => {}
        }
        opening.close()
    }
}
