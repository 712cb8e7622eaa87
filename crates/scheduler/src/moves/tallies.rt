ghost use Rattle.std.specs.Prelude.{IfOk};
ghost use Rattle.scheduler.specs.Scheduler.{ArePairCounts};

use super::Moves;
use super::given_moves::GivenMoves;
use std::alloc::{AllocError, Global};

/// For each region, the number of other regions that read it. Linear in the number of pairs.
pub fn count_readers(alloc: Global, moves: &GivenMoves) -> Result<Vec<usize>, AllocError>
    ensures { IfOk result (λ counts. ArePairCounts moves.now (λ pair. pair.1) moves.now.pairs counts.items) }
{
    let mut counts = vec![in alloc; 0; moves.regions() as usize]?;
    for &(_, source) in moves.pairs() {
        counts[source as usize] += 1;
    }
    Ok(counts)
}

/// For each region, the number of other regions that it reads. Linear in the number of pairs.
pub fn count_sources(alloc: Global, moves: &GivenMoves) -> Result<Vec<usize>, AllocError>
    ensures { IfOk result (λ counts. ArePairCounts moves.now (λ pair. pair.0) moves.now.pairs counts.items) }
{
    let mut counts = vec![in alloc; 0; moves.regions() as usize]?;
    for &(destination, _) in moves.pairs() {
        counts[destination as usize] += 1;
    }
    Ok(counts)
}
