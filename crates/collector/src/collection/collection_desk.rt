ghost use Rattle.std.specs.Prelude.{◌≡◌, ◌<◌, ◌≤◌};

use claim_board::{HasBoard, RegionBoard};
use std::alloc::{AllocError, Global};
use summary::Plan;

/// A desk of a collection: a board that keeps the regions, or a recorder around it.
pub(crate) trait CollectionDesk: HasBoard {
    /// What it needs besides the board.
    type Equipment: Drop;

    /// What it has recorded.
    type Record: Drop;

    /// Makes what it needs besides the board, for 1 to 64 workers. Fails if memory runs out.
    fn equip(alloc: Global, plan: &Plan, workers: u32) -> Result<Self::Equipment, AllocError>
        requires some { 1 ≤ workers }
        requires few { workers ≤ 64 };

    /// What contracts see of the record.
    ghost recorded: { Self.Record → Type 0 };

    /// The desk of a board on which no call was made.
    fn of(board: RegionBoard, equipment: Self::Equipment) -> Self
        ensures { Self.keeps result ≡ board };

    /// The board, and what was recorded.
    fn into_parts(self) -> (RegionBoard, Self::Record)
        ensures board { result.0 ≡ Self.keeps self }
        ensures record { recorded result.1 };
}

impl CollectionDesk for RegionBoard {
    type Equipment = ();

    type Record = ();

    ghost recorded = { λ _. Unit {0} };

    fn equip(_alloc: Global, _plan: &Plan, _workers: u32) -> Result<(), AllocError> {
        Ok(())
    }

    fn of(board: RegionBoard, _equipment: ()) -> RegionBoard {
        board
    }

    fn into_parts(self) -> (RegionBoard, ()) {
        (self, ())
    }
}
