ghost use Rattle.std.specs.Prelude.{◌≡◌, ℕ, ◌+◌, ◌<◌, ◌≤◌, ◌↔◌, ◌==◌, length, All, take, count_by, SomeIff, IsTrue, IfOk, IfSome, OnOk, true, false};
ghost use Rattle.scheduler.specs.State.{opening, unsettled};
ghost use Rattle.scheduler.specs.MoveTable.{MoveTable, IsMoveTable, IsAscending, IsFirstPlace, IsNextSource, Slides, table_of, is_before, has_source, region_count, pairs_before};

use super::Moves;
use heap_image::limits;
use std::alloc::{AllocError, Global};
use std::marker::Model;

/// The most regions of a table that `GivenMoves::new` checks. Its counts of readers are on the stack.
const MAX_REGIONS: usize = limits::MAX_REGIONS_V2 as usize;

/// A table of moves as plain lists, checked when it is made. It has no index: a count goes over all
/// pairs, and a source is found by binary search. `IndexedMoves` does both in constant time.
pub struct GivenMoves {
    fill: Vec<bool>,
    pairs: Vec<(u32, u32)>,
}

impl Drop for GivenMoves {
    fn drop(self) {
        let Self { fill, pairs } = self;
    }
}

impl Model for GivenMoves {
    ghost use Rattle.scheduler.specs.MoveTable.{MoveTable, IsMoveTable, table_of};

    ghost Value = { MoveTable };

    ghost view = { λ g. table_of g.fill.items g.pairs.items };

    ghost invariant = { λ g. IsMoveTable (table_of g.fill.items g.pairs.items) };
}

impl GivenMoves {
    /// Makes a table from a flag for each region, which says whether it is to be filled, and pairs
    /// (destination, source). `None` unless there are 1 to 16,384 regions, the pairs are strictly
    /// ascending and in range, each leads down to a region to be filled, and no source has more
    /// than two readers. A larger table is copied from a plan.
    pub fn new(fill: Vec<bool>, pairs: Vec<(u32, u32)>) -> Option<GivenMoves>
        ensures { let table = table_of fill.items pairs.items in SomeIff result (IsMoveTable table × (region_count table ≤ 16384)) table }
    {
        if !is_move_table(&fill, &pairs) {
            return None;
        }
        Some(GivenMoves { fill, pairs })
    }

    /// Copies the table of `moves`.
    pub fn copy_of<M: Moves>(alloc: Global, moves: &M) -> Result<GivenMoves, AllocError>
        ensures { IfOk result (λ given. given ≡ M.table moves.now) }
    {
        let regions = moves.regions();
        let fill = fill_of(alloc, moves, regions)?;
        let pairs = pairs_of(alloc, moves, regions)?;
        Ok(GivenMoves { fill, pairs })
    }

    /// All pairs (destination, source), by destination and then by source.
    pub fn pairs(&self) -> &[(u32, u32)]
        ensures { result.now ≡ self.now.pairs }
    {
        &self.pairs
    }

    /// The number of regions to be filled.
    pub fn fill_count(&self) -> usize
        ensures flags { result ≡ count_by (λ fills. fills) self.now.fill }
        ensures opening { result ≡ unsettled self.now opening }
    {
        count_set(&self.fill)
    }

    /// The index of the first pair that isn't before this one, by binary search.
    pub(crate) fn first_from(&self, destination: u32, source: u32) -> usize
        ensures { IsFirstPlace self.now.pairs destination source result }
    {
        self.pairs.as_slice().partition_point(
            |pair: &(u32, u32)| -> bool
                ensures { result ≡ is_before pair.now (destination, source) }
            { is_before(*pair, (destination, source)) },
        )
    }

    /// The source of the pair at index `place`, if the pair has this destination. If `place` comes from
    /// `first_from`, it is the destination's next source.
    pub(crate) fn source_at(&self, place: usize, destination: u32) -> Option<u32>
        ensures least { (from : ℕ) → IsFirstPlace self.now.pairs destination from place → IsNextSource self.now destination from result }
        ensures inside { IfSome result (λ source. source < region_count self.now) }
    {
        let (d, s) = *self.pairs.get(place)?;
        if d == destination { Some(s) } else { None }
    }
}

impl Moves for GivenMoves {
    ghost table = { λ given. given };

    fn regions(&self) -> u32 {
        self.fill.len() as u32
    }

    fn to_fill(&self, region: u32) -> bool {
        self.fill[region as usize]
    }

    fn count(&self, source: u32) -> u32 {
        count_of(&self.pairs, source) as u32
    }

    fn next_source(&self, destination: u32, from: u32) -> Option<u32> {
        self.source_at(self.first_from(destination, from), destination)
    }
}

/// Whether a pair comes before another, by destination and then by source.
fn is_before(one: (u32, u32), other: (u32, u32)) -> bool
    ensures { result ≡ is_before one other }
{
    one.0 < other.0 || (one.0 == other.0 && one.1 < other.1)
}

/// Whether the lists form a table that is not too large, as `GivenMoves::new` requires.
fn is_move_table(fill: &[bool], pairs: &[(u32, u32)]) -> bool
    ensures { let table = table_of fill.now pairs.now in IsTrue result ↔ (IsMoveTable table × (region_count table ≤ 16384)) }
{
    if fill.is_empty() || fill.len() > MAX_REGIONS {
        return false;
    }
    are_ascending(pairs) && all_slide(fill, pairs) && have_two_readers_at_most(pairs)
}

/// The number of pairs with this source.
fn count_of(pairs: &[(u32, u32)], source: u32) -> usize
    ensures { result ≡ count_by (has_source source) pairs.now }
{
    pairs.iter().filter(|pair| source == pair.1).count()
}

fn are_ascending(pairs: &[(u32, u32)]) -> bool
    ensures { IsTrue result ↔ IsAscending pairs.now }
{
    for i in 1..pairs.len() {
        if !is_before(pairs[i - 1], pairs[i]) {
            return false;
        }
    }
    true
}

fn all_slide(fill: &[bool], pairs: &[(u32, u32)]) -> bool
    ensures { IsTrue result ↔ All (Slides fill.now) pairs.now }
{
    for &(d, s) in pairs {
        if d >= s || (s as usize) >= fill.len() || !fill[d as usize] {
            return false;
        }
    }
    true
}

/// Whether no source has more than two readers. Keeps its counts on the stack, so that making a table
/// allocates nothing. Linear in the number of pairs.
fn have_two_readers_at_most(pairs: &[(u32, u32)]) -> bool
    requires { All (λ pair. pair.1 < 16384) pairs.now }
    ensures { IsTrue result ↔ ((s : ℕ) → count_by (has_source s) pairs.now ≤ 2) }
{
    let mut readers = [0u8; MAX_REGIONS];
    for &(_, source) in pairs {
        if readers[source as usize] == 2 {
            return false;
        }
        readers[source as usize] += 1;
    }
    true
}

/// The number of flags that are set.
fn count_set(flags: &[bool]) -> usize
    ensures { result ≡ count_by (λ flag. flag) flags.now }
{
    flags.iter().filter(|flag| **flag).count()
}

/// For each region, whether it is to be filled.
fn fill_of<M: Moves>(alloc: Global, moves: &M, regions: u32) -> Result<Vec<bool>, AllocError>
    requires { regions ≡ region_count (M.table moves.now) }
    ensures { IfOk result (λ fill. fill.items ≡ (M.table moves.now).fill) }
{
    let mut fill = Vec::with_capacity(alloc, regions as usize)?;
    for region in 0..regions {
        fill.push(moves.to_fill(region))?;
    }
    Ok(fill)
}

/// All pairs, by destination and then by source. A region has at most two readers, so there are at most twice as many
/// pairs as regions; the room that they leave is given back.
fn pairs_of<M: Moves>(alloc: Global, moves: &M, regions: u32) -> Result<Vec<(u32, u32)>, AllocError>
    requires number { regions ≡ region_count (M.table moves.now) }
    requires lawful { IsMoveTable (M.table moves.now) }
    ensures { IfOk result (λ pairs. pairs.items ≡ (M.table moves.now).pairs) }
{
    let mut pairs = Vec::with_capacity(alloc, 2 * regions as usize)?;
    for destination in 0..regions {
        push_pairs(&mut pairs, moves, destination)?;
    }
    pairs.shrink_to_fit();
    Ok(pairs)
}

/// Appends the pairs of one destination.
fn push_pairs<M: Moves>(
    pairs: &mut Vec<(u32, u32)>,
    moves: &M,
    destination: u32,
) -> Result<(), AllocError>
    requires lawful { IsMoveTable (M.table moves.now) }
    requires inside { destination < region_count (M.table moves.now) }
    requires before { pairs.old.items ≡ pairs_before (M.table moves.now) destination 0 }
    ensures { OnOk result (pairs.new.items ≡ pairs_before (M.table moves.now) (destination + 1) 0) }
{
    let mut from = 0;
    while let Some(source) = moves.next_source(destination, from) {
        pairs.push((destination, source))?;
        from = source + 1;
    }
    Ok(())
}
