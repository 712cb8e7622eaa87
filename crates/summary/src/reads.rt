//! `Reads`: the regions that a region reads.

ghost use Rattle.std.specs.Prelude.{◌≡◌, ◌<◌, position};
ghost use Rattle.std.specs.Iterator.{YieldsFirst, item_count};
ghost use Rattle.object_heap.specs.HeapImage.{region_count};
ghost use Rattle.summary.specs.Plan.{sources_from};
ghost use Rattle.summary.specs.Reads.{has_words, BeginAt};

use crate::region_row::RegionRow;
use crate::region_table::RegionTable;
use std::marker::Model;

/// The regions that a region reads, ascending, including the region itself if it takes words from itself.
///
/// A contract sees the list of the regions that are left.
#[derive(Drop)]
pub struct Reads<'a> {
    regions: &'a [RegionRow],
    next: usize,
    end: u64,
}

impl<'a> Model for Reads<'a> {
    ghost use Rattle.std.specs.Prelude.{List, ℕ, ◌≤◌, length};
    ghost use Rattle.summary.specs.Reads.{AreInOrder, sources_below};

    ghost Value = { List ℕ };

    ghost view = { λ r. sources_below r.end r.next r.regions.now };

    ghost invariant = { λ r. (r.next ≤ length r.regions.now) × AreInOrder r.regions.now };
}

impl<'a> Reads<'a> {
    /// The regions at or after region `from` that region `d` reads; none if there is no region `d`.
    ///
    /// The first region that `d` reads is its source, or `d` itself in the dense prefix. From there on, `d` reads each
    /// region with live words whose destination is below the end of `d`.
    pub(crate) fn of(table: &'a RegionTable, d: u32, from: u32) -> Reads<'a>
        ensures { result ≡ sources_from table.now d from }
    {
        let regions = table.regions();
        let first = first_read(table, d).max(from as usize);
        Reads {
            regions,
            next: first.min(regions.len()),
            end: (u64::from(d) + 1) * table.region_words(),
        }
    }
}

impl Iterator for Reads<'_> {
    type Item = u32;

    ghost next_gives = { YieldsFirst (λ rest. rest) };

    ghost remaining = { item_count (λ rest. rest) };

    fn next(&mut self) -> Option<u32> {
        let source = self.next + first_with_words(&self.regions[self.next..])?;
        if self.regions[source].destination() >= self.end {
            return None;
        }
        self.next = source + 1;
        Some(source as u32)
    }
}

/// The index of the first region with live words.
fn first_with_words(regions: &[RegionRow]) -> Option<usize>
    ensures { result ≡ position has_words regions.now }
{
    regions.iter().position(|region| region.words() > 0)
}

/// The first region that region `d` reads: `d` itself in the dense prefix, otherwise its source. The number of regions
/// if `d` reads none or doesn't exist.
fn first_read(table: &RegionTable, d: u32) -> usize
    ensures { BeginAt table.now d result }
{
    let regions = table.regions();
    if d as usize >= regions.len() {
        return regions.len();
    }
    if u64::from(d) * table.region_words() < table.prefix_end() {
        return d as usize;
    }
    match regions[d as usize].source() {
        Some(source) => source as usize,
        None => regions.len(),
    }
}
