ghost use Rattle.std.specs.Prelude.{◌≡◌, ◌<◌, IfSome};
ghost use Rattle.scheduler.specs.MoveTable.{MoveTable, IsMoveTable, IsNextSource, region_count, to_fill, readers_of};

pub(crate) mod given_moves;
pub(crate) mod indexed_moves;
mod plan_moves;
mod readers;
pub(crate) mod tallies;

/// The regions to be filled, and the other regions from which each of them takes words. Contracts see
/// one table of plain data: a flag for each region and a list of pairs (destination, source).
pub trait Moves {
    /// The table that contracts see.
    ghost table: { Self → MoveTable };

    /// The number of regions. The contract also says that words slide down into regions to be filled,
    /// and that at most two other regions read one.
    fn regions(&self) -> u32
        ensures number { result ≡ region_count (table self.now) }
        ensures lawful { IsMoveTable (table self.now) };

    /// Whether the region is to be filled.
    fn to_fill(&self, region: u32) -> bool
        requires { region < region_count (table self.now) }
        ensures { result ≡ to_fill (table self.now) region };

    /// The number of other regions that take words from this one.
    fn count(&self, source: u32) -> u32
        requires { source < region_count (table self.now) }
        ensures { result ≡ readers_of (table self.now) source };

    /// The first other region at or after `from` from which the destination takes words.
    fn next_source(&self, destination: u32, from: u32) -> Option<u32>
        requires { destination < region_count (table self.now) }
        ensures least { IsNextSource (table self.now) destination from result }
        ensures inside { IfSome result (λ source. source < region_count (table self.now)) };
}
