ghost use Rattle.std.specs.Prelude.{◌≡◌, ◌<◌, ℕ, [], length, map, slice_index_or, option_map, if◌then◌else◌};
ghost use Rattle.std.specs.List.{range_with_len};
ghost use Rattle.object_heap.specs.HeapImage.{IsValid, region_count as image_regions};
ghost use Rattle.summary.specs.Compaction.{redirected, compact};
ghost use Rattle.scheduler.specs.MoveTable.{region_count, to_fill};
ghost use Rattle.claim_board.specs.declared.regions.region_board.RegionBoard.{RegionBoard};
ghost use Rattle.claim_board.specs.RegionBoards.{moves as moves_of, original_words, moved_words};
ghost use Rattle.region_cells.specs.Blocks.{moved_block};
ghost use Rattle.fill.specs.KeptImages.{KeepsImage};
ghost use Rattle.collector.specs.Collections.{figures_of};
ghost use Rattle.collector.specs.Regions.{IsWithoutRegions};

use super::redirector::Redirector;
use crate::outcome::{Figures, Outcome};
use fill::{clear_above, update_deferred};
use heap_image::{Image, ImageParts, roots_are_null_or_live};
use raw_region::Region;
use scheduler::moves_of_images;
use summary::laws::compaction::{blocks_of_regions, compaction_is_valid};
use summary::laws::plans::planned_image_is_valid;
use summary::laws::region_data::regions_to_fill;
use summary::{Plan, Survey};

/// Ends a collection whose board has returned its regions, in which all that were to be filled are, and returns its outcome.
/// The redirector's threads update the deferred objects and redirect the live list and the roots. Allocates nothing apart from
/// the threads.
pub(crate) fn clean_up<R: Redirector>(
    parts: ImageParts,
    moved: Vec<Region>,
    survey: &Survey,
    redirector: &R,
) -> Outcome
    requires start { R.may_start }
    requires parts { IsWithoutRegions survey.now parts }
    requires moved { (board : RegionBoard) × KeepsImage survey.now board × (length moved.items ≡ region_count (moves_of board))
        × ((r : ℕ) → r < region_count (moves_of board) → slice_index_or moved.items r [] ≡ (if to_fill (moves_of board) r then moved_words board r else original_words board r)) }
    ensures image { result.image ≡ compact survey.now }
    ensures figures { result.figures ≡ figures_of survey.now }
{
    blocks_of_regions();
    moves_of_images();
    regions_to_fill();
    planned_image_is_valid(survey.plan());
    let image = compaction_of(parts, moved, survey, redirector);
    let figures = Figures::of(survey.plan());
    Outcome { image, figures }
}

/// The compaction, once all regions have moved.
fn compaction_of<R: Redirector>(
    parts: ImageParts,
    moved: Vec<Region>,
    survey: &Survey,
    redirector: &R,
) -> Image
    requires start { R.may_start }
    requires parts { IsWithoutRegions survey.now parts }
    requires moved { moved.items ≡ map (moved_block survey.now) (range_with_len 0 (image_regions survey.now)) }
    ensures { result ≡ compact survey.now }
{
    compaction_is_valid();
    let plan = survey.plan();
    planned_image_is_valid(plan);
    let mut parts = ImageParts {
        regions: moved,
        ..parts
    };
    update_deferred(parts.regions.as_mut_slice(), survey, redirector);
    clear_above(parts.regions.as_mut_slice(), plan.new_top());
    redirector.redirect_live(parts.live.as_mut_slice(), survey);
    let parts = ImageParts {
        roots: redirected_roots(parts.roots, plan, redirector),
        ..parts
    };
    parts.into_image()
}

/// The redirected roots, if the image has roots.
fn redirected_roots<R: Redirector>(
    roots: Option<Vec<u64>>,
    plan: &Plan,
    redirector: &R,
) -> Option<Vec<u64>>
    requires start { R.may_start }
    requires valid { IsValid plan.now }
    requires roots { option_map (λ v. v.items) roots ≡ plan.now.roots }
    ensures { option_map (λ v. v.items) result ≡ option_map (map (redirected plan.now)) plan.now.roots }
{
    roots_are_null_or_live();
    match roots {
        Some(mut roots) => {
            redirector.redirect_all(roots.as_mut_slice(), plan);
            Some(roots)
        }
        None => None,
    }
}
