use scheduler::GivenMoves;

/// The moves and the number of workers to which the rule of a board's words refers. After the board is
/// made, only proofs read it.
#[derive(Drop)]
pub struct Key {
    pub(crate) moves: GivenMoves,
    pub(crate) workers: u32,
}
