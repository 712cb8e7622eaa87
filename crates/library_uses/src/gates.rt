//! A gate that refuses one region.
ghost use Rattle.std.specs.Prelude.{◌≡◌, ◌<◌, IfOk, Err};
ghost use Rattle.summary.specs.Compaction.{compact};
ghost use Rattle.summary.specs.RegionData.{fill_count};
ghost use Rattle.collector.specs.declared.outcome.Refusal.TheVariants.{Lost};

use collector::{Gate, Refusal, collect_alone};
use heap_image::{Fault, Image};
use std::alloc::Global;

/// Lets no worker fill this region.
#[derive(Drop)]
pub struct Spares(pub u32);

impl Gate for Spares {
    ghost use Rattle.std.specs.Prelude.{◌≡◌};

    ghost may_refuse = { λ gate _ region. region ≡ gate.0 };

    fn before_fill(&self, _worker: u32, region: u32) -> bool {
        region != self.0
    }

    fn after_complete(&self, _worker: u32, _region: u32) {}
}

/// Collects an image in the caller's thread, unless `region` would be filled, which loses the image with fault 16.
pub fn collect_unless_filled(alloc: Global, image: Image, region: u32) -> Result<Image, Refusal>
    ensures compacted { IfOk result (λ after. after ≡ compact image) }
    ensures filled { result ≡ Err (Lost Fault.Gate) → region < fill_count image }
{
    let (outcome, _history) = collect_alone(alloc, image, &Spares(region))?;
    Ok(outcome.image)
}
