//! Updating deferred objects in one thread or in several, for code that serves both.
ghost use Rattle.std.specs.Prelude.{length};
ghost use Rattle.fill.specs.MovedHeap.{IsMovedPart, IsUpdatedPart};

use super::deferred::update_regions;
use super::deferred_parts::DeferredParts;
use raw_region::Region;
use std::thread::Threads;
use summary::Plan;
use thread_row::{Alone, Hands, Many};

/// The threads that update deferred objects.
pub trait Updater: Hands {
    /// Redirects the references of the deferred objects of a heap. `regions` are all its regions, with their moved words.
    fn update(&self, regions: &mut [Region], plan: &Plan)
        requires start { Self.may_start }
        requires moved { IsMovedPart plan.now 0 regions.old }
        ensures { IsUpdatedPart plan.now 0 (length regions.old) regions.new };
}

impl Updater for Alone {
    fn update(&self, regions: &mut [Region], plan: &Plan) {
        update_regions(regions, plan, 0);
    }
}

/// Splits the heap between regions where no deferred object has references on both sides.
impl<T: Threads + Sync> Updater for Many<'_, T> {
    fn update(&self, regions: &mut [Region], plan: &Plan) {
        let threads = self.threads;
        DeferredParts { plan, threads }.start(regions, self.most);
    }
}
