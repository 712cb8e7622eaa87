ghost use Rattle.std.specs.Prelude.{◌≡◌, ℕ, ◌+◌, ◌<◌, ◌≤◌, ◌^◌, ◌∷◌, [], ◌++◌, length, map, option_map, IfOk, IfErr, IfSome, IfNone, OnOk, vec_len};
ghost use Rattle.std.specs.List.{range_with_len};
ghost use Rattle.std.specs.Vec.{vec_capacity};
ghost use Rattle.object_heap.specs.HeapImage.{IsValid, region_words, region_count, block_of};
ghost use Rattle.image_streams.specs.declared.fault.Fault.TheVariants.{Overwritten};
ghost use Rattle.summary.specs.RegionData.{fill_count};
ghost use Rattle.region_cells.specs.Blocks.{moved_block, blocks_of, final_block};
ghost use Rattle.region_cells.specs.Cells.{places, other_blocks};

use crate::kept::{Kept, Place};
use crate::slots::{WRITING, final_region, is_full, is_original, lock_for_write, put_original};
use crate::source::Source;
use crate::target::Target;
use claim_board::{Opening, Right};
use counted_slot::{Counted, ONE_READER, PRESENT, TAKEN};
use heap_image::{Fault, Image, ImageParts};
use raw_region::Region;
use retry_policy::RetryPolicy;
use std::alloc::Global;
use std::marker::Model;
use std::snapshot::Snapshot;
use summary::Plan;
use summary::laws::compaction::blocks_of_regions;
use summary::laws::plans::planned_image_is_valid;
use summary::laws::region_data::regions_to_fill;

/// The regions of an image: each that is to be filled in a cell, which many may read or one may write, and the others as
/// they are, which are only read.
///
/// Contracts view cells as the image that they were made from.
pub struct Cells {
    // The regions to fill.
    slots: Vec<Counted<Kept>>,
    // `regions` are those after them, with room for all.
    parts: ImageParts,
}

impl Drop for Cells {
    fn drop(self) {
        let Self { slots, parts } = self;
    }
}

impl Model for Cells {
    ghost use Rattle.object_heap.specs.HeapImage.{HeapImage};
    ghost use Rattle.region_cells.specs.Cells.{image_in, AreCells};

    ghost Value = { HeapImage };

    ghost view = { λ c. image_in c.slots.items c.parts };

    ghost invariant = { λ c. AreCells (image_in c.slots.items c.parts) c.slots.items c.parts };
}

impl Cells {
    /// Moves each region to fill into a cell, in its original state.
    ///
    /// Allocates the cells. If memory runs out, the image comes back unchanged.
    pub fn of(alloc: Global, image: Image, plan: &Plan) -> Result<Cells, Image>
        requires same { plan.now ≡ image }
        ensures cells { IfOk result (λ cells. cells ≡ image) }
        ensures refused { IfErr result (λ back. back ≡ image) }
    {
        planned_image_is_valid(plan);
        regions_to_fill();
        let count = plan.fill_regions() as usize;
        let Ok(mut slots) = Vec::with_capacity(alloc, count) else {
            return Err(image);
        };
        let first = Place::first(&image);
        let mut parts = image.into_parts();
        put_all(&mut slots, &mut parts.regions, count, first);
        Ok(Cells { slots, parts })
    }

    /// Opens the region of `opening` for reading.
    ///
    /// Returns fault 15, and gives the opening up, if a writer has or had the region. Tries again only while other
    /// readers change the reader count; fault 15 comes also if the policy gives up. A region that is not to be filled
    /// always opens.
    pub fn read<P: RetryPolicy>(&self, opening: Opening, policy: &P) -> Result<Source<'_>, Fault>
        requires { opening.source < region_count self.now }
        ensures image { IfOk result (λ source. source.image ≡ self.now) }
        ensures opening { IfOk result (λ source. source.opening ≡ opening) }
        ensures fault { IfErr result (λ fault. fault ≡ Overwritten opening.source) }
    {
        let region = opening.source();
        let Some(slot) = self.slot(region) else {
            let region = self.other_region(region);
            return Ok(Source::of_plain(region, Snapshot::of(self), opening));
        };
        for failures in 1..u64::MAX {
            let seen = slot.load();
            if !is_original(seen) {
                break;
            }
            if !is_full(seen) {
                let (found, hand) = slot.turn(seen, seen + ONE_READER);
                if found == seen {
                    return Source::new(hand, Snapshot::of(self), opening);
                }
                hand.done();
            }
            if !policy.tries_again(failures) {
                break;
            }
        }
        opening.give_up();
        Err(Fault::Overwritten(region))
    }

    /// Takes the region of `right` out of its cell for writing.
    ///
    /// Returns fault 15 at once, and gives the right up, if the region is not to be filled, is being read, or a writer
    /// has or had it.
    pub fn write<P: RetryPolicy>(&self, right: Right, policy: &P) -> Result<Target<'_>, Fault>
        requires { right.region < region_count self.now }
        ensures image { IfOk result (λ target. target.image ≡ self.now) }
        ensures right { IfOk result (λ target. target.right ≡ right) }
        ensures words { IfOk result (λ target. target.words ≡ block_of self.now right.region) }
        ensures length { IfOk result (λ target. length target.words ≡ region_words self.now) }
        ensures fault { IfErr result (λ fault. fault ≡ Overwritten right.region) }
    {
        let region = right.region();
        let Some(slot) = self.slot(region) else {
            right.give_up();
            return Err(Fault::Overwritten(region));
        };
        let (found, hand) = slot.turn(PRESENT, TAKEN);
        if found != PRESENT {
            hand.done();
            right.give_up();
            return Err(Fault::Overwritten(region));
        }
        let kept = hand.put(Kept::Spoiled, WRITING);
        let Some(claim) = lock_for_write(policy, slot) else {
            drop(kept);
            right.give_up();
            return Err(Fault::Overwritten(region));
        };
        Target::new(claim, Snapshot::of(self), kept, right)
    }

    /// Takes the cells apart once all regions to fill have moved. The regions have their moved words; the live list is
    /// still the old one.
    ///
    /// Fault 15 names the lowest region that is to be filled and has not moved. The image is lost then.
    pub fn into_regions(self) -> Result<ImageParts, Fault>
        ensures regions { IfOk result (λ parts. parts.regions.items ≡ map (moved_block self) (range_with_len 0 (region_count self))) }
        ensures live { IfOk result (λ parts. parts.live.items ≡ self.live) }
        ensures roots { IfOk result (λ parts. option_map (λ v. v.items) parts.roots ≡ self.roots) }
        ensures version { IfOk result (λ parts. parts.version ≡ self.version) }
        ensures numbers { IfOk result (λ parts. (parts.region_log ≡ self.region_log) × (parts.allowance ≡ self.allowance)) }
        ensures fault { IfErr result (λ fault. (r : ℕ) × (r < region_count self) × (fault ≡ Overwritten r)) }
    {
        blocks_of_regions();
        regions_to_fill();
        let Cells { slots, mut parts } = self;
        match put_back(slots, &mut parts.regions, true) {
            Ok(()) => Ok(parts),
            Err(region) => Err(Fault::Overwritten(region)),
        }
    }

    /// The image again, if no region has been written. `None` if one was; the image is lost then.
    pub fn into_image(self) -> Option<Image>
        ensures { IfSome result (λ image. image ≡ self) }
    {
        regions_to_fill();
        let Cells { slots, mut parts } = self;
        match put_back(slots, &mut parts.regions, false) {
            Ok(()) => Some(parts.into_image()),
            Err(_) => None,
        }
    }

    /// The slot of a region. `None` if it is not to be filled.
    fn slot(&self, region: u32) -> Option<&Counted<Kept>>
        ensures place { IfSome result (λ slot. slot.now ≡ record { image = self.now; region = region }) }
        ensures other { IfNone result (fill_count self.now ≤ region) }
        ensures valid { IsValid self.now }
    {
        self.slots.get(region as usize)
    }

    /// A region that is not to be filled.
    fn other_region(&self, region: u32) -> &Region
        requires other { fill_count self.now ≤ region }
        requires inside { region < region_count self.now }
        ensures { result.now ≡ block_of self.now region }
    {
        &self.parts.regions[region as usize - self.slots.len()]
    }
}

/// Moves the first `count` regions into slots.
fn put_all(slots: &mut Vec<Counted<Kept>>, regions: &mut Vec<Region>, count: usize, first: Place)
    requires valid { IsValid first.image }
    requires first { first.region ≡ 0 }
    requires regions { regions.old.items ≡ blocks_of first.image }
    requires count { count ≡ fill_count first.image }
    requires few { count ≤ region_count first.image }
    requires empty { slots.old.items ≡ [] }
    requires room { count ≤ vec_capacity slots.old }
    ensures slots { slots.new.items ≡ places first.image }
    ensures others { regions.new.items ≡ other_blocks first.image }
    ensures capacity { vec_capacity regions.new ≡ vec_capacity regions.old }
{
    let mut place = first;
    for region in regions.drain(..count) {
        add(slots, Counted::new(Kept::Spoiled, &place));
        put_original(&slots[slots.len() - 1], region);
        place.step();
    }
}

/// Puts the regions of slots before the others, moved if `has_moved`, else original. Returns the number of the first slot
/// that is in another state.
fn put_back(
    slots: Vec<Counted<Kept>>,
    regions: &mut Vec<Region>,
    has_moved: bool,
) -> Result<(), u32>
    requires few { length slots.items < 2 ^ 32 }
    requires room { length slots.items + vec_len regions.old ≤ vec_capacity regions.old }
    ensures regions { OnOk result (regions.new.items ≡ map (final_block has_moved) slots.items ++ regions.old.items) }
    ensures number { IfErr result (λ r. r < length slots.items) }
{
    let others = regions.len();
    for (r, slot) in slots.into_iter().enumerate() {
        let Some(region) = final_region(slot, has_moved) else {
            return Err(r as u32);
        };
        add(regions, region);
    }
    regions.rotate_left(others);
    Ok(())
}

/// Pushes an item for which room is reserved.
fn add<T: Drop>(items: &mut Vec<T>, item: T)
    requires { vec_len items.old < vec_capacity items.old }
    ensures items { items.new.items ≡ items.old.items ++ item ∷ [] }
    ensures capacity { vec_capacity items.old ≤ vec_capacity items.new }
{
    if items.push(item).is_err() {
        unreachable!();
    }
}
