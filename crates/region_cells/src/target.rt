ghost use Rattle.std.specs.Prelude.{◌≡◌, ◌+◌, ◌<◌, ◌≤◌, length, replicate, slice_index, slice_set, map, All, IsTrue, IfOk, IfErr};
ghost use Rattle.object_heap.specs.HeapImage.{IsValid, region_words, region_count, block_of, is_null_or_live};
ghost use Rattle.image_streams.specs.declared.fault.Fault.TheVariants.{Overwritten};
ghost use Rattle.raw_region.specs.Region.{with_words, part};
ghost use Rattle.summary.specs.Compaction.{redirected};
ghost use Rattle.region_cells.specs.Blocks.{moved_block};
ghost use Rattle.region_cells.specs.Kept.{HasWords};

use crate::cells::Cells;
use crate::kept::Kept;
use crate::placed::Placed;
use crate::slots::CHANGED;
use claim_board::{Right, Written};
use counted_slot::Claim;
use heap_image::Fault;
use raw_region::Region;
use std::marker::Model;
use std::snapshot::Snapshot;
use summary::Plan;

/// A region that is open for writing. No one else reads or writes it meanwhile.
///
/// A target owns its right and cannot be dropped: it ends with [`put`](Target::put) or [`give_up`](Target::give_up).
///
/// Contracts view it as the image, the right and the current words.
pub struct Target<'a> {
    hand: Claim<'a, Kept>,
    cells: Snapshot<Cells>,
    pub(crate) region: Region,
    right: Right,
}

impl<'a> Model for Target<'a> {
    ghost use Rattle.region_cells.specs.Views.{Writing};
    ghost use Rattle.region_cells.specs.Hands.{IsWriting};

    ghost Value = { Writing };

    ghost view = { λ t. record { image = t.cells.value; right = t.right; words = t.region } };

    ghost invariant = { λ t. IsWriting t.cells.value t.hand.tag t.hand.right t.right.region t.region };
}

impl<'a> Target<'a> {
    /// Makes a target from a writer's claim and what the cell held. Returns fault 15, and gives the right up, unless
    /// that is the original region.
    pub(crate) fn new(
        hand: Claim<'a, Kept>,
        cells: Snapshot<Cells>,
        kept: Kept,
        right: Right,
    ) -> Result<Target<'a>, Fault>
        requires valid { IsValid cells.value }
        requires place { hand.tag ≡ record { image = cells.value; region = right.region } }
        requires inside { right.region < region_count cells.value }
        requires right { hand.right ≡ 2 }
        requires kept { HasWords hand.tag kept }
        ensures target { IfOk result (λ target. target ≡ record { image = cells.value; right = right; words = block_of cells.value right.region }) }
        ensures length { IfOk result (λ target. length target.words ≡ region_words cells.value) }
        ensures fault { IfErr result (λ fault. fault ≡ Overwritten right.region) }
    {
        match kept {
            Kept::Original(region) => Ok(Target {
                hand,
                cells,
                region,
                right,
            }),
            other => {
                let region = right.region();
                hand.put(other, CHANGED);
                right.give_up();
                Err(Fault::Overwritten(region))
            }
        }
    }

    /// The word at index `i` of the region.
    #[inline]
    pub fn get(&self, i: usize) -> u64
        requires { i < region_words self.now.image }
        ensures { result ≡ slice_index self.now.words i }
    {
        self.region.get(i)
    }

    /// Sets the word at index `i`.
    #[inline]
    pub fn set(&mut self, i: usize, word: u64)
        requires { i < region_words self.old.image }
        ensures value { self.new ≡ record self.old { words = slice_set self.old.words i word } }
        ensures length { length self.new.words ≡ region_words self.old.image }
    {
        self.region.set(i, word);
    }

    /// Copies `n` words within the region, from index `from` down to index `to`. The two ranges may overlap.
    pub fn slide(&mut self, from: usize, to: usize, n: usize)
        requires downward { to ≤ from }
        requires inside { from + n ≤ region_words self.old.image }
        ensures value { self.new ≡ record self.old { words = with_words self.old.words to (part self.old.words from n) } }
        ensures length { length self.new.words ≡ region_words self.old.image }
    {
        self.region.slide(from, to, n);
    }

    /// Sets `n` words from index `at` to `word`.
    pub fn fill(&mut self, at: usize, n: usize, word: u64)
        requires { at + n ≤ region_words self.old.image }
        ensures value { self.new ≡ record self.old { words = with_words self.old.words at (replicate n word) } }
        ensures length { length self.new.words ≡ region_words self.old.image }
    {
        self.region.fill(at, n, word);
    }

    /// Redirects the `n` references from index `at`.
    #[inline]
    pub fn redirect(&mut self, plan: &Plan, at: usize, n: usize)
        requires same { plan.now ≡ self.old.image }
        requires inside { at + n ≤ region_words self.old.image }
        requires sound { All (λ w. IsTrue (is_null_or_live self.old.image w)) (part self.old.words at n) }
        ensures value { self.new ≡ record self.old { words = with_words self.old.words at (map (redirected self.old.image) (part self.old.words at n)) } }
        ensures length { length self.new.words ≡ region_words self.old.image }
    {
        plan.redirect(&mut self.region, at, n);
    }

    /// Puts the region back with its moved words.
    pub fn put(self) -> (Written, Placed)
        requires { self.words ≡ moved_block self.image self.right.region }
        ensures region { result.0.region ≡ self.entry.right.region }
        ensures ticket { result.0.ticket ≡ self.entry.right.ticket }
        ensures placed { result.1 ≡ record { image = self.entry.image; region = self.entry.right.region } }
    {
        let Target {
            hand,
            cells,
            region,
            right,
        } = self;
        let placed = Placed::new(cells, right.region());
        hand.put(Kept::Moved(region), CHANGED);
        (right.written(), placed)
    }

    /// Leaves the region spoiled: no one sees its words any more.
    pub fn give_up(self) {
        let Target {
            hand,
            cells: _,
            region: _,
            right,
        } = self;
        hand.put(Kept::Spoiled, CHANGED);
        right.give_up();
    }
}
