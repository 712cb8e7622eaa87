ghost use Rattle.std.specs.Prelude.{◌≡◌, ◌<◌, ◌≤◌, suc, []};
ghost use Rattle.box_row.specs.Rows.{items, spot};
ghost use Rattle.scheduler.specs.MoveTable.{IsMoveTable, region_count};
ghost use Rattle.scheduler.specs.Scheduler.{ArePairCounts};
ghost use Rattle.claim_board.specs.Holdings.{AreRegions, AreMoved, AreLaid, LieIn};
ghost use Rattle.claim_board.specs.Places.{ArePlaces};
ghost use Rattle.claim_board.specs.Slots.{slots, all_slots};

use super::places::Places;
use crate::rule::table_key::TableKey;
use crate::rule::view::View;
use crate::rule::{Held, Law};
use atomic_table::Table;
use box_row::Row;
use raw_region::Region;
use scheduler::GivenMoves;
use std::alloc::Global;

/// A board that keeps the regions, and for each pair of its moves the right to read the source. A granted claim takes the
/// region and those rights in its one atomic step.
pub struct RegionBoard {
    pub(crate) table: Table<Option<Held>, View, TableKey<Held>, Law, Global>,
    pub(crate) moves: GivenMoves,
    /// For each region, the number of other regions that it reads.
    pub(crate) sources: Vec<usize>,
    pub(crate) places: Places,
    /// The row in which all regions lie. All of them are out.
    pub(crate) row: Row<Region>,
    pub(crate) workers: u32,
    ghost manned: { (0 < workers) × (workers ≡ table.shared.key.workers) },
    ghost few: { workers ≤ 64 },
    ghost same: { moves ≡ table.shared.key.moves },
    ghost lawful: { IsMoveTable table.shared.key.moves },
    ghost sized: { table.shared.table_id.words ≡ suc (region_count table.shared.key.moves) },
    ghost slotted: { (table.shared.table_id.slots ≡ all_slots table.shared.key.moves) × (slots table.shared.key ≡ all_slots table.shared.key.moves) },
    ghost counted: { ArePairCounts table.shared.key.moves (λ pair. pair.0) table.shared.key.moves.pairs sources.items },
    ghost placed: { ArePlaces table.shared.key.moves places },
    ghost regions: { AreRegions table.shared.key.moves table.shared.key.values.value.items },
    ghost moved: { AreMoved table.shared.key.moves table.shared.key.moved.items },
    ghost small: { all_slots table.shared.key.moves < 18446744073709551616 },
    ghost out: { (items row ≡ []) × (row.count ≡ region_count table.shared.key.moves) },
    ghost laid: { LieIn table.shared.key.moves (spot row) table.shared.key.values.value.items × AreLaid table.shared.key.moves (spot row) table.shared.key.moved.items },
}

impl Drop for RegionBoard {
    fn drop(self) {
        let _back = self.take_back();
    }
}

/// What is left of a board at its end.
pub(crate) struct Remains {
    pub(crate) table: Table<Option<Held>, View, TableKey<Held>, Law, Global>,
    pub(crate) places: Places,
    pub(crate) row: Row<Region>,
}

impl RegionBoard {
    /// Takes the board apart.
    pub(crate) fn take_apart(self) -> Remains
        ensures { (result.table ≡ self.table) × (result.places ≡ self.places) × (result.row ≡ self.row) }
    {
        let Self {
            table,
            moves: _moves,
            sources: _sources,
            places,
            row,
            workers: _,
        } = self;
        Remains { table, places, row }
    }
}
