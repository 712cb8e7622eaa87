use super::foreseen::Foreseen;
use scheduler::GivenMoves;
use std::snapshot::Snapshot;

/// What the rule of a board's table refers to: the moves, the number of workers, and what the slots hold. After the board
/// is made, only proofs read it.
#[derive(Drop)]
pub struct TableKey<X> {
    pub(crate) moves: GivenMoves,
    pub(crate) workers: u32,
    /// The first value of each slot: none, or one for each pair of the moves and then one for each region.
    pub(crate) values: Snapshot<Vec<Option<X>>>,
    /// For each region, the value of its slot once it is filled.
    pub(crate) moved: Foreseen<X>,
}
