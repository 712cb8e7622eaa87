//! The end of a session that slides opaque objects.
ghost use Rattle.std.specs.Prelude.{◌≡◌, [], IfSome};
ghost use Rattle.claim_board.specs.Boards.{board_of, held};
ghost use Rattle.claim_board.specs.RegionBoards.{identity};
ghost use Rattle.collector.specs.Collections.{figures_of};
ghost use Rattle.collector.specs.SessionIds.{SessionHeap};
ghost use Rattle.collector.specs.Slides.{slid_regions};
ghost use Rattle.collector.specs.Stakes.{IsOfHeap};

use super::Session;
use crate::outcome::Figures;
use crate::workers::shared::Shared;
use claim_board::Pass;
use fill::opaque_regions_slide;
use raw_region::Region;
use scheduler::moves_of_images;
use summary::laws::plans::planned_image_is_valid;
use summary::laws::region_data::regions_to_fill;

impl Session {
    /// The regions and figures of a slide of opaque objects, if all regions to fill are settled. Uses the pass of the last
    /// worker.
    pub(super) fn finish_slide(self, pass: Pass) -> Option<(Vec<Region>, Figures)>
        requires seat { board_of pass ≡ identity self.shared.desk }
        requires bare { held pass ≡ [] }
        ensures words { (heap : SessionHeap) → IsOfHeap heap self
            → IfSome result (λ done. IfSome heap.held (λ blocks. done.0.items ≡ slid_regions heap.image blocks)) }
        ensures figures { IfSome result (λ done. done.1 ≡ figures_of self.shared.survey) }
    {
        let Session { shared, .. } = self;
        let Shared {
            survey,
            desk,
            parts,
            ..
        } = shared;
        if parts.is_some() {
            return None;
        }
        moves_of_images();
        regions_to_fill();
        opaque_regions_slide();
        planned_image_is_valid(survey.plan());
        let regions = desk.into_settled(pass)?;
        Some((regions, Figures::of(survey.plan())))
    }
}
