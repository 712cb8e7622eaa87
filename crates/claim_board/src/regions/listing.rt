//! How the places of a table's pairs are found, once, when a board is made.
ghost use Rattle.std.specs.Prelude.{◌≡◌, ◌<◌, ℕ, length, slice_index_or, IfOk};
ghost use Rattle.scheduler.specs.MoveTable.{IsMoveTable, region_count};
ghost use Rattle.claim_board.specs.Places.{ArePlaces, AreReaders, with_reader};

use super::places::Places;
use scheduler::{GivenMoves, Moves, first_places};
use std::alloc::{AllocError, Global};

/// Adds the index of a pair to those of its source.
fn and_reader(two: (usize, usize), pairs: usize, place: usize) -> (usize, usize)
    ensures { result ≡ with_reader pairs two place }
{
    if two.0 == pairs {
        (place, two.1)
    } else {
        (two.0, place)
    }
}

/// For each region, the indices of the pairs of which it is the source.
fn readers_of(
    alloc: Global,
    moves: &GivenMoves,
    pairs: &[(u32, u32)],
) -> Result<Vec<(usize, usize)>, AllocError>
    requires lawful { IsMoveTable moves.now }
    requires pairs { pairs.now ≡ moves.now.pairs }
    ensures all { IfOk result (λ readers. length readers.items ≡ region_count moves.now) }
    ensures are { IfOk result (λ readers. (s : ℕ) → s < region_count moves.now → AreReaders moves.now s (slice_index_or readers.items s (0, 0))) }
{
    let none = pairs.len();
    let mut readers = vec![in alloc; (none, none); moves.regions() as usize]?;
    for place in 0..none {
        let source = pairs[place].1 as usize;
        readers[source] = and_reader(readers[source], none, place);
    }
    Ok(readers)
}

impl Places {
    /// Finds the places of a table's pairs, in time linear in its regions and pairs. Fails only if memory runs out.
    pub(crate) fn find(alloc: Global, moves: &GivenMoves) -> Result<Places, AllocError>
        requires { IsMoveTable moves.now }
        ensures { IfOk result (λ places. ArePlaces moves.now places) }
    {
        let pairs = moves.pairs();
        let first = first_places(alloc, moves)?;
        let readers = readers_of(alloc, moves, pairs)?;
        Ok(Places {
            pairs: pairs.len(),
            first,
            readers,
        })
    }
}
