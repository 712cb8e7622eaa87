ghost use Rattle.std.specs.Prelude.{◌≡◌};
ghost use Rattle.collector.specs.declared.outcome.Refusal.TheVariants.{Lost};

use heap_image::{Fault, Image};
use summary::Plan;

/// The result of a collection.
#[derive(Drop)]
pub struct Outcome {
    /// The compaction of the image that was collected.
    pub image: Image,
    pub figures: Figures,
}

/// The figures of a collection.
#[derive(Debug, Clone, Copy, PartialEq, Eq)]
pub struct Figures {
    /// The address at which the dense prefix ends.
    pub prefix_end: u64,
    /// The first free address after the collection.
    pub new_top: u64,
    /// The number of regions that were filled.
    pub filled: u32,
}

impl Figures {
    ghost use Rattle.collector.specs.Collections.{figures_of};

    pub(crate) fn of(plan: &Plan) -> Figures
        ensures { result ≡ figures_of plan.now }
    {
        Figures {
            prefix_end: plan.prefix_end(),
            new_top: plan.new_top(),
            filled: plan.fill_regions(),
        }
    }
}

/// Why a collection failed.
#[derive(Drop)]
pub enum Refusal {
    /// No worker has begun; this is the unchanged image.
    Kept(Image, Fault),
    /// Some worker has begun; the image is lost.
    Lost(Fault),
}

impl From<Fault> for Refusal {
    ghost from_gives = { λ fault refusal. refusal ≡ Lost fault };

    /// The fault of a worker, or of what follows the workers.
    fn from(fault: Fault) -> Refusal {
        Refusal::Lost(fault)
    }
}

impl Refusal {
    ghost use Rattle.collector.specs.Collections.{fault_of};

    pub fn fault(&self) -> Fault
        ensures { result ≡ fault_of self.now }
    {
        match self {
            Refusal::Kept(_, fault) | Refusal::Lost(fault) => *fault,
        }
    }
}
