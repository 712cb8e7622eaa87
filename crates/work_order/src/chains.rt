//! Computes the longest chains of regions that wait for each other.
ghost use Rattle.std.specs.Prelude.{◌≡◌, ◌*◌, ◌<◌, ◌≤◌, IfOk, IfSome, MatchOption, length, slice_index_or};
ghost use Rattle.object_heap.specs.HeapImage.{IsValid, region_count};
ghost use Rattle.summary.specs.RegionData.{data_words, fill_count, first_target, last_target};
ghost use Rattle.work_order.specs.Chains.{AreLongest, IsLongestAfter, fill_words};

use std::alloc::{AllocError, Global};
use summary::Plan;
use summary::laws::plans::planned_image_is_valid;
use summary::laws::readers::{reads_by_destination, reads_by_words};
use summary::laws::region_data::regions_to_fill;

/// For each region to fill, the words of the longest chain that begins with it.
pub(crate) fn longest_chains(alloc: Global, plan: &Plan) -> Result<Vec<u64>, AllocError>
    ensures longest { IfOk result (λ chains. AreLongest plan.now chains.items) }
    ensures all { IfOk result (λ chains. length chains.items ≡ fill_count plan.now) }
    ensures valid { IsValid plan.now }
{
    regions_to_fill();
    planned_image_is_valid(plan);
    let mut chains = Vec::new(alloc);
    for region in 0..plan.fill_regions() {
        let after = longest_after(plan, chains.as_slice(), region);
        chains.push(fill_words(plan, region) + after)?;
    }
    Ok(chains)
}

/// The words of the longest chain that begins with a region that `region` waits for, or 0 if it waits for none.
/// `chains` has the longest chains of all lower regions.
fn longest_after(plan: &Plan, chains: &[u64], region: u32) -> u64
    requires here { region < region_count plan.now }
    requires below { AreLongest plan.now chains.now }
    requires all { length chains.now ≡ region }
    ensures longest { IsLongestAfter plan.now region result }
    ensures few { result ≤ region * 1048576 }
{
    reads_by_words();
    reads_by_destination();
    let Some(Targets { first, last }) = targets_of(plan, region) else {
        return 0;
    };
    chain_from(chains, first).max(chain_from(chains, last))
}

/// The regions to which the live words of a region move.
#[derive(Clone, Copy)]
struct Targets {
    /// The region of the first live word.
    first: u64,
    /// The region of the last live word: the same, or the next.
    last: u64,
}

/// The regions to which the live words of a region move, if it has any.
fn targets_of(plan: &Plan, region: u32) -> Option<Targets>
    requires { region < region_count plan.now }
    ensures valid { IsValid plan.now }
    ensures some { MatchOption result (data_words plan.now region ≡ 0) (λ targets. 0 < data_words plan.now region) }
    ensures first { IfSome result (λ targets. targets.first ≡ first_target plan.now region) }
    ensures last { IfSome result (λ targets. targets.last ≡ last_target plan.now region) }
{
    reads_by_destination();
    let region_words = plan.region_words();
    let data = plan.region(region);
    let words = u64::from(data.partial) + u64::from(data.live);
    if words == 0 {
        return None;
    }
    Some(Targets {
        first: data.destination / region_words,
        last: (data.destination + words - 1) / region_words,
    })
}

/// The words of the longest chain that begins with a region, or 0 if `chains` doesn't have it.
fn chain_from(chains: &[u64], region: u64) -> u64
    ensures { result ≡ slice_index_or chains.now region 0 }
{
    chains.get(region as usize).copied().unwrap_or(0)
}

/// The number of words of a region below the new top: those that its fill leaves in it.
fn fill_words(plan: &Plan, region: u32) -> u64
    ensures value { result ≡ fill_words plan.now region }
    ensures few { result ≤ 1048576 }
{
    let start = u64::from(region) * plan.region_words();
    plan.new_top()
        .saturating_sub(start)
        .min(plan.region_words())
}
