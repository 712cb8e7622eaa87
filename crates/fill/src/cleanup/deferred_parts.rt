//! The parallel update of deferred objects: the heap is split into parts, one per thread.
ghost use Rattle.std.specs.Prelude.{◌≡◌, ◌+◌, ◌<◌, ◌≤◌, length, IsSome, IfSome, IsTrue};
ghost use Rattle.fill.specs.MovedHeap.{IsCut, IsMovedPart, IsUpdatedPart};

use super::deferred::{late_references, part_start, update_regions};
use super::heap::word;
use heap_image::header::references;
use raw_region::Region;
use std::thread::{Threads, join_mut};
use summary::Plan;
use summary::laws::plans::{planned_image_is_own, planned_image_is_valid};

/// The least number of regions to fill that is worth a thread.
const LEAST_REGIONS: usize = 512;

/// What the threads share while they update the deferred objects of a heap.
#[derive(Drop)]
pub(crate) struct DeferredParts<'a, T: Threads + Sync> {
    pub(crate) plan: &'a Plan,
    pub(crate) threads: &'a T,
}

impl<T: Threads + Sync> DeferredParts<'_, T> {
    /// Redirects the references of the deferred objects of a heap with at most `most` threads, and an extra one that
    /// does nothing: the system delays the first thread that the caller starts.
    pub(crate) fn start(&self, regions: &mut [Region], most: usize)
        requires { IsMovedPart self.now.plan.now 0 regions.old }
        ensures { IsUpdatedPart self.now.plan.now 0 (length regions.old) regions.new }
    {
        if first_cut(regions, self.plan, 0, most).is_none() {
            update_regions(regions, self.plan, 0);
            return;
        }
        let mut update = ||
            requires { IsMovedPart self.now.plan.now 0 regions.now }
            ensures { IsUpdatedPart self.entry.now.plan.now 0 (length regions.entry.now) regions.exit.now }
        { self.update(regions, 0, most) };
        join_mut(self.threads, &mut || {}, &mut update);
    }

    /// Redirects the references of the deferred objects that begin in the part from region `first`, with at most `most`
    /// threads.
    #[cycle(parts)]
    pub(crate) fn update(&self, regions: &mut [Region], first: u32, most: usize)
        requires { IsMovedPart self.now.plan.now first regions.old }
        ensures { IsUpdatedPart self.now.plan.now first (length regions.old) regions.new }
    {
        match first_cut(regions, self.plan, first, most) {
            Some(cut) => {
                let (low, high) = regions.split_at_mut(cut);
                self.update_both(low, high, first, most);
            }
            None => update_regions(regions, self.plan, first),
        }
    }

    /// Redirects the references of the deferred objects that begin in two adjacent parts, each in a thread of its own.
    #[cycle(parts)]
    fn update_both(&self, low: &mut [Region], high: &mut [Region], first: u32, most: usize)
        requires most { 1 < most }
        requires low { IsMovedPart self.now.plan.now first low.old }
        requires high { IsMovedPart self.now.plan.now (first + length low.old) high.old }
        ensures low { IsUpdatedPart self.now.plan.now first (length low.old) low.new }
        ensures high { IsUpdatedPart self.now.plan.now (first + length low.old) (length high.old) high.new }
    {
        planned_image_is_valid(self.plan);
        let middle = first + low.len() as u32;
        let others = most - 1;
        let mut lower = ||
            requires { IsMovedPart self.now.plan.now first low.now }
            ensures { IsUpdatedPart self.entry.now.plan.now first (length low.entry.now) low.exit.now }
        { self.update(low, first, 1) };
        let mut upper = ||
            requires { IsMovedPart self.now.plan.now middle high.now }
            ensures { IsUpdatedPart self.entry.now.plan.now middle (length high.entry.now) high.exit.now }
        { self.update(high, middle, others) };
        join_mut(self.threads, &mut lower, &mut upper);
    }
}

/// Where to split a part: the number of its regions that come before the cut. They are one thread's share, or more if
/// the part cannot be cut there. None if the part has too few regions to fill for two threads, or cannot be cut at all.
fn first_cut(regions: &[Region], plan: &Plan, first: u32, most: usize) -> Option<usize>
    requires { IsMovedPart plan.now first regions.now }
    ensures most { IsSome result → 1 < most }
    ensures cut { IfSome result (λ cut. (cut ≤ length regions.now) × IsCut plan.now (first + cut)) }
{
    let filled = plan.fill_regions().saturating_sub(first) as usize;
    let filled = filled.min(regions.len());
    let most = most.min(filled / LEAST_REGIONS);
    if most < 2 {
        return None;
    }
    for cut in filled / most..filled {
        if is_cut(regions, plan, first, cut) {
            return Some(cut);
        }
    }
    None
}

/// Whether an object is deferred in the last region before `cut`, and all its references lie before `cut`.
fn is_cut(regions: &[Region], plan: &Plan, first: u32, cut: usize) -> bool
    requires part { IsMovedPart plan.now first regions.now }
    requires place { (0 < cut) × (cut ≤ length regions.now) }
    ensures { IsTrue result → IsCut plan.now (first + cut) }
{
    planned_image_is_valid(plan);
    planned_image_is_own(plan);
    let last = first + (cut - 1) as u32;
    match plan.deferred(last) {
        Some(begin) => {
            late_references(plan, last, begin);
            let header = begin - part_start(plan, first);
            let count = references(word(regions, plan.region_log(), header));
            begin + u64::from(count) < part_start(plan, last + 1)
        }
        None => false,
    }
}
