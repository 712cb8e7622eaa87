ghost use Rattle.std.specs.Prelude.{◌≡◌, is_some};
ghost use Rattle.std.specs.Option.{ForSome};
ghost use Rattle.fill.specs.KeptImages.{Keeps};
ghost use Rattle.std.proofs.Props.{props};
ghost use Rattle.collector.specs.Regions.{IsWithoutRegions};

use claim_board::HasBoard;
use heap_image::ImageParts;
use ready_queues::Thief;
use std::sync::atomic::AtomicBool;
use summary::Survey;

/// What the workers of a collection share.
#[derive(Drop)]
pub(crate) struct Shared<D: HasBoard + Drop> {
    pub(crate) survey: Survey,
    /// It keeps the regions.
    pub(crate) desk: D,
    /// The rest of the image. Opaque objects have no more than the words of their regions.
    pub(crate) parts: Option<ImageParts>,
    /// A handle to each worker's queue, by worker number.
    pub(crate) thieves: Vec<Thief>,
    /// Set once the gate has refused some worker.
    pub(crate) stop: AtomicBool,
    ghost keeps: { Keeps (is_some parts) survey (D.keeps desk) } by { Prim.hlevel props },
    ghost rest: { ForSome parts (IsWithoutRegions survey) },
}
