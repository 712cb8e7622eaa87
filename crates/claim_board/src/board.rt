ghost use Rattle.std.specs.Prelude.{◌≡◌, ◌<◌, suc};
ghost use Rattle.scheduler.specs.MoveTable.{IsMoveTable, region_count};
ghost use Rattle.scheduler.specs.Scheduler.{ArePairCounts};
ghost use Rattle.claim_board.specs.Slots.{slots};

use crate::rule::table_key::TableKey;
use crate::rule::view::View;
use crate::rule::{Held, Law};
use atomic_table::Table;
use scheduler::GivenMoves;
use std::alloc::Global;

/// An atomic word for each region, by which workers claim it, and one that counts the regions to be
/// filled that aren't settled. Threads share the board by `&Board`; each calls it with its own pass.
pub struct Board {
    pub(crate) table: Table<Option<Held>, View, TableKey<Held>, Law, Global>,
    pub(crate) moves: GivenMoves,
    /// For each region, the number of other regions that it reads.
    pub(crate) sources: Vec<usize>,
    pub(crate) workers: u32,
    ghost manned: { (0 < workers) × (workers ≡ table.shared.key.workers) },
    ghost same: { moves ≡ table.shared.key.moves },
    ghost lawful: { IsMoveTable table.shared.key.moves },
    ghost slotless: { (table.shared.table_id.slots ≡ 0) × (slots table.shared.key ≡ 0) },
    ghost sized: { table.shared.table_id.words ≡ suc (region_count table.shared.key.moves) },
    ghost counted: { ArePairCounts table.shared.key.moves (λ pair. pair.0) table.shared.key.moves.pairs sources.items },
}

impl Drop for Board {
    fn drop(self) {
        let Self {
            table,
            moves,
            sources,
            workers,
        } = self;
    }
}
