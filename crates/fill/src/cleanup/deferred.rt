//! The update of deferred objects, those whose new words cross the end of the region in which they begin.
ghost use Rattle.std.specs.Prelude.{◌≡◌, ℕ, ◌+◌, ◌*◌, ◌<◌, ◌≤◌, false, List, length, IsTrue, Some};
ghost use Rattle.std.specs.List.{concat};
ghost use Rattle.object_heap.specs.HeapImage.{FormHeap, AreBlocks, region_of, region_words, start_of, region_count, is_null_or_live};
ghost use Rattle.summary.specs.NewAddresses.{new_top};
ghost use Rattle.summary.specs.RegionData.{deferred};
ghost use Rattle.summary.specs.Compaction.{compact, moved_word};
ghost use Rattle.fill.specs.MovedHeap.{moved_regions, cleared, words_from, updated_words, is_late_before, is_reference_behind, last_reference, IsCut, IsMovedPart, IsUpdatedPart};

use super::heap::{redirect_within, word};
use super::updater::Updater;
use heap_image::header::references;
use raw_region::Region;
use summary::laws::compaction::blocks_of_regions;
use summary::laws::deferred_objects::{moved_objects, one_deferred_object, update_then_clear};
use summary::laws::new_addresses::objects_keep_their_order;
use summary::laws::plans::{planned_image_is_own, planned_image_is_valid};
use summary::laws::region_data::regions_to_fill;
use summary::{Plan, Survey};

/// Redirects the references of the deferred objects, once all regions are filled. `regions` are all regions of the
/// heap, in order, with their moved words. The updater's threads do this.
///
/// Afterwards they hold the compacted words, except from the new top up, where [`clear_above`](crate::clear_above) puts
/// the zeros. Allocates nothing apart from the threads.
pub fn update_deferred<U: Updater>(regions: &mut [Region], survey: &Survey, updater: &U)
    requires start { U.may_start }
    requires moved { regions.old ≡ moved_regions survey.now }
    ensures blocks { AreBlocks survey.now.region_log regions.new }
    ensures updated { concat regions.new ≡ updated_words survey.now }
    ensures compacted { cleared (new_top survey.now) (concat regions.new) ≡ (compact survey.now).words }
{
    let plan = survey.plan();
    whole_heap(plan);
    updater.update(regions, plan);
}

/// A law: the whole heap is one part, and once that part is updated the heap is.
fn whole_heap(plan: &Plan)
    ensures moved { (blocks : List (List ℕ)) → blocks ≡ moved_regions plan.now → IsMovedPart plan.now 0 blocks }
    ensures updated { (blocks done : List (List ℕ)) → blocks ≡ moved_regions plan.now → IsUpdatedPart plan.now 0 (length blocks) done → concat done ≡ updated_words plan.now }
    ensures compacted { cleared (new_top plan.now) (updated_words plan.now) ≡ (compact plan.now).words }
{
    planned_image_is_valid(plan);
    one_deferred_object();
    moved_objects();
    objects_keep_their_order();
    regions_to_fill();
    update_then_clear();
}

/// Redirects the references of the deferred objects that begin in a part of the heap. `first` is its first region.
pub(crate) fn update_regions(regions: &mut [Region], plan: &Plan, first: u32)
    requires { IsMovedPart plan.now first regions.old }
    ensures { IsUpdatedPart plan.now first (length regions.old) regions.new }
{
    planned_image_is_valid(plan);
    one_deferred_object();
    update_then_clear();
    for d in first..first + regions.len() as u32 {
        update_region(regions, plan, first, d);
    }
}

/// Redirects the references of the deferred object that begins in region `d`, if one does. `regions` are a part of the
/// heap, and `first` is its first region.
fn update_region(regions: &mut [Region], plan: &Plan, first: u32, d: u32)
    requires inside { (first ≤ d) × (d < first + length regions.old) × (first + length regions.old ≤ region_count plan.now) }
    requires heap { FormHeap plan.now.region_log regions.old }
    requires ends { IsCut plan.now (first + length regions.old) }
    requires words { concat regions.old ≡ words_from plan.now first (length regions.old) (is_late_before plan.now d) }
    ensures heap { FormHeap plan.now.region_log regions.new }
    ensures words { concat regions.new ≡ words_from plan.now first (length regions.old) (is_late_before plan.now (d + 1)) }
{
    let log = plan.region_log();
    planned_image_is_valid(plan);
    planned_image_is_own(plan);
    if let Some(begin) = plan.deferred(d) {
        late_references(plan, d, begin);
        references_in_part(plan, regions, first, d, begin);
        let header = begin - part_start(plan, first);
        let mut at = header + 1;
        let end = at + u64::from(references(word(regions, log, header)));
        while at < end {
            at = redirect_within(regions, plan, at, end);
        }
    }
}

/// A law: the deferred object that begins in region `d` of a part has its header and its references in that part.
fn references_in_part(plan: &Plan, regions: &[Region], first: u32, d: u32, begin: u64)
    requires inside { (first ≤ d) × (d < first + length regions.now) }
    requires ends { IsCut plan.now (first + length regions.now) }
    requires begins { deferred plan.now d ≡ Some begin }
    ensures { (start_of plan.now first ≤ begin) × (last_reference plan.now begin < start_of plan.now first + length regions.now * region_words plan.now) }
{
    late_references(plan, d, begin);
}

/// The first address of the part that begins with region `first`.
#[inline]
pub(crate) fn part_start(plan: &Plan, first: u32) -> u64
    requires { first ≤ region_count plan.now }
    ensures { result ≡ start_of plan.now first }
{
    planned_image_is_valid(plan);
    u64::from(first) * plan.region_words()
}

/// A law about the deferred object whose new address is `begin`, in region `d`: its references belong to no deferred
/// object of an earlier region, and each is null or leads to a live object. If they end in region `d`, the heap can be
/// split after that region.
pub(crate) fn late_references(plan: &Plan, d: u32, begin: u64)
    requires begins { deferred plan.now d ≡ Some begin }
    ensures region { region_of plan.now begin ≡ d }
    ensures header { is_late_before plan.now d begin ≡ false }
    ensures once { (p : ℕ) → IsTrue (is_reference_behind plan.now begin p) → is_late_before plan.now d p ≡ false }
    ensures sound { (p : ℕ) → IsTrue (is_reference_behind plan.now begin p) → IsTrue (is_null_or_live plan.now (moved_word plan.now p)) }
    ensures cut { last_reference plan.now begin < start_of plan.now (d + 1) → IsCut plan.now (d + 1) }
{
    planned_image_is_valid(plan);
    planned_image_is_own(plan);
    moved_objects();
    objects_keep_their_order();
    one_deferred_object();
    regions_to_fill();
    update_then_clear();
}
