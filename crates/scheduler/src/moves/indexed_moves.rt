//! `IndexedMoves`: a table of moves with an index.

ghost use Rattle.std.specs.Prelude.{◌≡◌, ◌≢◌, ◌+◌, ◌<◌, ◌≤◌, length, slice_index_or, IfOk, IfSome, IfNone, false};
ghost use Rattle.scheduler.specs.MoveTable.{region_count, reads, IsAscending, IsFirstPlace};
ghost use Rattle.scheduler.specs.MoveIndex.{AreReaders, AreFirstPlaces, AreReaderPlaces, IsPlaceOf};

use super::Moves;
use super::given_moves::GivenMoves;
use super::readers::Readers;
use std::alloc::{AllocError, Global};
use std::marker::Model;

/// A table of moves with an index. Each look-up takes constant time, except the next source from a
/// number that is neither at most one above the destination nor one above one of its sources: that
/// takes a binary search.
pub struct IndexedMoves {
    moves: GivenMoves,
    /// For each region, the index of the first pair whose destination isn't below it.
    first: Vec<usize>,
    /// For each region, the pairs of which it is the source.
    readers: Vec<Readers>,
}

impl Drop for IndexedMoves {
    fn drop(self) {
        let Self {
            moves,
            first,
            readers,
        } = self;
    }
}

impl Model for IndexedMoves {
    ghost use Rattle.scheduler.specs.MoveTable.{MoveTable};
    ghost use Rattle.scheduler.specs.MoveIndex.{IsIndexed};

    ghost Value = { MoveTable };

    ghost view = { λ indexed. indexed.moves };

    ghost invariant = { λ indexed. IsIndexed indexed.moves indexed.first.items indexed.readers.items };
}

impl IndexedMoves {
    /// Indexes a table, in time linear in the number of regions and pairs.
    pub fn new(alloc: Global, moves: GivenMoves) -> Result<IndexedMoves, AllocError>
        ensures { IfOk result (λ indexed. indexed ≡ moves) }
    {
        let first = first_places(alloc, &moves)?;
        let readers = reader_places(alloc, &moves)?;
        Ok(IndexedMoves {
            moves,
            first,
            readers,
        })
    }

    /// Copies the table of `moves` and indexes it.
    pub fn of<M: Moves>(alloc: Global, moves: &M) -> Result<IndexedMoves, AllocError>
        ensures { IfOk result (λ indexed. indexed ≡ M.table moves.now) }
    {
        IndexedMoves::new(alloc, GivenMoves::copy_of(alloc, moves)?)
    }

    /// The index of a pair, if the table has it.
    pub(crate) fn place(&self, destination: u32, source: u32) -> Option<usize>
        ensures found { IfSome result (λ at. IsPlaceOf self.now.pairs destination source at) }
        ensures fits { IfSome result (λ at. at < usize.MAX) }
        ensures none { IfNone result (reads self.now destination source ≡ false) }
    {
        match self.readers_of(source) {
            Readers::Nobody => None,
            Readers::One(at) => self.reader_at(at, destination),
            Readers::Two(first, second) => self
                .reader_at(first, destination)
                .or(self.reader_at(second, destination)),
        }
    }

    /// The indices of the pairs with this source.
    fn readers_of(&self, source: u32) -> Readers
        ensures { AreReaders self.now.pairs (length self.now.pairs) source result }
    {
        self.readers
            .get(source as usize)
            .copied()
            .unwrap_or(Readers::Nobody)
    }

    /// The index `at`, if the pair there has this destination.
    fn reader_at(&self, at: usize, destination: u32) -> Option<usize>
        requires { at < length self.now.pairs }
        ensures some { IfSome result (λ found. (found ≡ at) × ((slice_index_or self.now.pairs at (0, 0)).0 ≡ destination)) }
        ensures fits { at < usize.MAX }
        ensures none { IfNone result ((slice_index_or self.now.pairs at (0, 0)).0 ≢ destination) }
    {
        if self.moves.pairs()[at].0 == destination {
            Some(at)
        } else {
            None
        }
    }

    /// The index of the first pair that isn't before this one.
    fn first_from(&self, destination: u32, source: u32) -> usize
        requires { destination < region_count self.now }
        ensures { IsFirstPlace self.now.pairs destination source result }
    {
        let last = source.saturating_sub(1);
        if last <= destination {
            return self.first[destination as usize];
        }
        match self.place(destination, last) {
            Some(at) => at + 1,
            None => self.moves.first_from(destination, source),
        }
    }
}

impl Moves for IndexedMoves {
    ghost table = { λ indexed. indexed };

    fn regions(&self) -> u32 {
        self.moves.regions()
    }

    fn to_fill(&self, region: u32) -> bool {
        self.moves.to_fill(region)
    }

    fn count(&self, source: u32) -> u32 {
        self.readers_of(source).count()
    }

    fn next_source(&self, destination: u32, from: u32) -> Option<u32> {
        self.moves
            .source_at(self.first_from(destination, from), destination)
    }
}

/// For each region, the index of the first pair whose destination isn't below it. Linear in the number of regions and pairs;
/// fails only if memory runs out.
pub fn first_places(alloc: Global, moves: &GivenMoves) -> Result<Vec<usize>, AllocError>
    ensures { IfOk result (λ first. AreFirstPlaces moves.now first.items) }
{
    let mut first = Vec::with_capacity(alloc, moves.regions() as usize)?;
    let mut place = 0;
    for destination in 0..moves.regions() {
        first.push(place)?;
        place = end_of_pairs(moves.pairs(), place, destination);
    }
    Ok(first)
}

/// The index after the pairs of this destination, which begin at index `first`.
fn end_of_pairs(pairs: &[(u32, u32)], first: usize, destination: u32) -> usize
    requires ascending { IsAscending pairs.now }
    requires first { IsFirstPlace pairs.now destination 0 first }
    ensures { IsFirstPlace pairs.now (destination + 1) 0 result }
{
    let mut place = first;
    while place < pairs.len() && pairs[place].0 == destination {
        place += 1;
    }
    place
}

/// For each region, the pairs of which it is the source.
fn reader_places(alloc: Global, moves: &GivenMoves) -> Result<Vec<Readers>, AllocError>
    ensures { IfOk result (λ readers. AreReaderPlaces moves.now readers.items) }
{
    let mut readers = vec![in alloc; Readers::Nobody; moves.regions() as usize]?;
    for (place, pair) in moves.pairs().iter().enumerate() {
        let source = pair.1 as usize;
        readers[source] = readers[source].and(place);
    }
    Ok(readers)
}
