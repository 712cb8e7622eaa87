ghost use Rattle.std.specs.Prelude.{◌≡◌};
ghost use Rattle.collector.specs.Halts.{met_fault};

use super::end::End;
use claim_board::{Pass, Seat};
use heap_image::Fault;
use ready_queues::Ready;

/// One worker of a collection, which fills regions and calls the desk from a seat of its own.
#[derive(Drop)]
pub(crate) struct Worker {
    pub(crate) seat: Seat,
    /// The regions that it has found ready.
    pub(crate) ready: Ready,
    /// It has seen all regions to fill below this one filled.
    pub(crate) lowest: u32,
    /// How it ended: refused a region itself, or stopped because another was.
    pub(crate) result: Result<(), End>,
}

impl Worker {
    /// The fault that this worker has met itself, if any.
    #[tactic(auto, unfolding(crate::specs::Halts::met_fault))]
    pub(crate) fn fault(&self) -> Option<Fault>
        ensures { result ≡ met_fault self.now.result }
    {
        match &self.result {
            Err(End::Failed(fault)) => Some(*fault),
            Ok(()) | Err(End::Stopped(_)) => None,
        }
    }

    /// The pass of this worker, which is no more.
    pub(crate) fn into_pass(self) -> Pass
        ensures { result ≡ self.seat.pass }
    {
        self.seat.pass
    }
}
