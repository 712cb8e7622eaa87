//! How a board takes over the regions of an image.
ghost use Rattle.std.specs.Prelude.{◌≡◌, ℕ, ◌<◌, ◌≤◌, [], length, slice_index_or, vec_len, IfOk, IfErr};
ghost use Rattle.object_heap.specs.HeapImage.{region_count, block_of};
ghost use Rattle.claim_board.specs.Boards.{ArePasses, AllBare};
ghost use Rattle.claim_board.specs.RegionBoards.{worker_count, identity};
ghost use Rattle.fill.specs.KeptImages.{KeepsImage};
ghost use Rattle.collector.specs.Regions.{IsWithoutRegions};

use claim_board::{Pass, RegionBoard};
use heap_image::{Image, ImageParts};
use raw_region::Region;
use scheduler::moves_of_images;
use std::alloc::Global;
use std::marker::Brand;
use std::mem;
use summary::Plan;
use summary::laws::plans::planned_image_is_valid;
use summary::laws::region_data::regions_to_fill;

/// Makes a board of the plan's moves, which keeps the regions of the plan's image, and a pass for each of 1 to 64 workers.
/// Returns the rest of the image as well. If memory runs out, the image comes back unchanged.
pub(crate) fn keep_regions(
    alloc: Global,
    image: Image,
    plan: &Plan,
    workers: u32,
) -> Result<(RegionBoard, Vec<Pass>, ImageParts), Image>
    requires same { plan.now ≡ image }
    requires some { 1 ≤ workers }
    requires few { workers ≤ 64 }
    ensures keeps { IfOk result (λ made. KeepsImage image made.0) }
    ensures workers { IfOk result (λ made. worker_count made.0 ≡ workers) }
    ensures passes { IfOk result (λ made. (vec_len made.1 ≡ workers) × ArePasses (identity made.0) made.1.items × AllBare made.1.items) }
    ensures rest { IfOk result (λ made. IsWithoutRegions image made.2) }
    ensures back { IfErr result (λ back. back ≡ image) }
{
    moves_of_images();
    regions_to_fill();
    planned_image_is_valid(plan);
    let mut parts = image.into_parts();
    let regions = mem::replace(&mut parts.regions, Vec::new(alloc));
    match RegionBoard::new::<_, Brand>(alloc, plan, workers, regions) {
        Ok((board, passes)) => Ok((board, passes, parts)),
        Err(regions) => Err(with_regions(parts, regions, plan)),
    }
}

/// The plan's image again, from its regions and its other parts.
pub(crate) fn with_regions(parts: ImageParts, regions: Vec<Region>, plan: &Plan) -> Image
    requires parts { IsWithoutRegions plan.now parts }
    requires count { length regions.items ≡ region_count plan.now }
    requires words { (r : ℕ) → r < region_count plan.now → slice_index_or regions.items r [] ≡ block_of plan.now r }
    ensures { result ≡ plan.now }
{
    planned_image_is_valid(plan);
    ImageParts { regions, ..parts }.into_image()
}
