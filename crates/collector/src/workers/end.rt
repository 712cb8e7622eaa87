ghost use Rattle.std.specs.Prelude.{◌≡◌};
ghost use Rattle.collector.specs.declared.workers.end.End.TheVariants.{Failed};

use super::held_region::HeldRegion;
use heap_image::Fault;

/// Why a worker ends before all regions to fill are settled.
#[derive(Drop)]
pub(crate) enum End {
    /// The gate has refused another worker. If this one has a region, it was claimed and admitted, and nothing of it is written.
    Stopped(Option<HeldRegion>),
    /// The gate has refused this worker.
    Failed(Fault),
}

impl From<Fault> for End {
    ghost from_gives = { λ fault end. end ≡ Failed fault };

    fn from(fault: Fault) -> End {
        End::Failed(fault)
    }
}
