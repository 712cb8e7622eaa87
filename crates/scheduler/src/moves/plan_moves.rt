//! `Moves` of a plan.

use super::Moves;
use summary::Plan;
use summary::laws::plan_laws;

/// The moves of the image that the plan was made of. Each call takes as long as a query of the plan.
impl Moves for Plan {
    ghost use Rattle.scheduler.specs.ImageMoves.{image_table};

    ghost table = { image_table };

    fn regions(&self) -> u32 {
        plan_laws();
        Plan::regions(self)
    }

    fn to_fill(&self, region: u32) -> bool {
        plan_laws();
        region < self.fill_regions()
    }

    fn count(&self, source: u32) -> u32 {
        self.region(source).count
    }

    fn next_source(&self, destination: u32, from: u32) -> Option<u32> {
        plan_laws();
        if from >= Plan::regions(self) {
            return None;
        }
        self.reads_from(destination, from.max(destination + 1))
            .next()
    }
}
