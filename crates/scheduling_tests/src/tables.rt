//! Tables of moves: which lists are refused, and the look-ups of plain and indexed tables.
ghost use Rattle.std.specs.Prelude.{◌≡◌, ◌<◌};
ghost use Rattle.scheduler.specs.MoveTable.{region_count};

use crate::checks::{equal, equal_at, holds};
use scheduler::{GivenMoves, IndexedMoves, Moves};
use std::alloc::{AllocError, Global};
use std::process::Abort;
use std::test::Fail;

/// Makes the table of these flags and pairs, if they form one.
pub fn try_table(
    alloc: Global,
    fill: &[bool],
    pairs: &[(u32, u32)],
) -> Result<Option<GivenMoves>, AllocError> {
    let fill = Vec::from_slice(alloc, fill)?;
    let pairs = Vec::from_slice(alloc, pairs)?;
    Ok(GivenMoves::new(fill, pairs))
}

/// Makes the table of these flags and pairs.
pub fn table_of(alloc: Global, fill: &[bool], pairs: &[(u32, u32)]) -> Result<GivenMoves, Fail> {
    Ok(try_table(alloc, fill, pairs)?.ok_or("a table")?)
}

fn is_table(alloc: Global, fill: &[bool], pairs: &[(u32, u32)]) -> Result<bool, AllocError> {
    Ok(try_table(alloc, fill, pairs)?.is_some())
}

/// Whether this number of regions, all to be filled, form a table without pairs.
fn is_table_of(alloc: Global, regions: usize) -> Result<bool, AllocError> {
    let fill = vec![in alloc; true; regions]?;
    Ok(GivenMoves::new(fill, Vec::new(alloc)).is_some())
}

const FOUR: [bool; 4] = [true, true, true, true];

/// Flags and pairs that don't form a table.
const REFUSED: [(&[bool], &[(u32, u32)]); 8] = [
    (&[], &[]),
    (&FOUR, &[(0, 0)]),
    (&FOUR, &[(1, 0)]),
    (&[true, true, true], &[(0, 3)]),
    (&FOUR, &[(1, 2), (0, 1)]),
    (&FOUR, &[(0, 1), (0, 1)]),
    (&[false, true], &[(0, 1)]),
    (&FOUR, &[(0, 3), (1, 3), (2, 3)]),
];

#[test]
fn lists_that_form_no_table_are_refused(rt: HostRuntime) -> Result<(), Fail> {
    for (row, (fill, pairs)) in REFUSED.iter().enumerate() {
        equal_at(&rt, is_table(rt.alloc(), fill, pairs)?, false, row);
    }
    let pairs = [(0, 2), (0, 3), (1, 2), (1, 3)];
    holds(&rt, is_table(rt.alloc(), &FOUR, &pairs)?);
    Ok(())
}

#[test]
fn a_table_has_16384_regions_at_most(rt: HostRuntime) -> Result<(), Fail> {
    for (regions, is) in [(16384, true), (16385, false)] {
        equal_at(&rt, is_table_of(rt.alloc(), regions)?, is, regions);
    }
    Ok(())
}

/// Region 0 reads four others, and each of the last two has two readers.
const MANY_SOURCES: [(u32, u32); 6] = [(0, 1), (0, 2), (0, 4), (0, 5), (1, 5), (3, 4)];

/// For each region of that table, whether it is to be filled.
const FILLED: [bool; 6] = [true, true, false, true, false, false];

/// Fails the test if the two tables differ in a look-up of this region.
fn compare_region(rt: &impl Abort, one: &GivenMoves, other: &IndexedMoves, region: u32)
    requires one { region < region_count one.now }
    requires other { region < region_count other.now }
{
    equal(rt, other.to_fill(region), one.to_fill(region));
    equal(rt, other.count(region), one.count(region));
    for from in 0..8 {
        equal(
            rt,
            other.next_source(region, from),
            one.next_source(region, from),
        );
    }
}

/// Indexes a copy of an index of the table.
fn index_twice(alloc: Global, table: &GivenMoves) -> Result<IndexedMoves, AllocError> {
    let indexed = IndexedMoves::of(alloc, table)?;
    IndexedMoves::new(alloc, GivenMoves::copy_of(alloc, &indexed)?)
}

#[test]
fn an_index_has_the_same_look_ups(rt: HostRuntime) -> Result<(), Fail> {
    let table = table_of(rt.alloc(), &FILLED, &MANY_SOURCES)?;
    let indexed = index_twice(rt.alloc(), &table)?;
    holds(&rt, table.regions() == 6 && indexed.regions() == 6);
    for region in 0..6 {
        compare_region(&rt, &table, &indexed, region);
    }
    Ok(())
}

/// The next source of region 0 from each number on.
const SOURCES: [Option<u32>; 7] = [Some(1), Some(1), Some(2), Some(4), Some(4), Some(5), None];

/// Fails the test if the index finds another source of region 0.
fn check_sources(rt: &impl Abort, indexed: &IndexedMoves)
    requires { 0 < region_count indexed.now }
{
    for (from, source) in SOURCES.iter().enumerate() {
        equal_at(rt, indexed.next_source(0, from as u32), *source, from);
    }
}

/// The next sources of regions 1, 2 and 3, the numbers of readers of regions 0, 2 and 5, and whether regions 1 and 2 are
/// to be filled.
fn look_up_others(indexed: &IndexedMoves) -> ([Option<u32>; 3], [u32; 3], [bool; 2])
    requires { region_count indexed.now ≡ 6 }
{
    let sources = [
        indexed.next_source(1, 0),
        indexed.next_source(2, 0),
        indexed.next_source(3, 5),
    ];
    let counts = [indexed.count(0), indexed.count(2), indexed.count(5)];
    let fills = [indexed.to_fill(1), indexed.to_fill(2)];
    (sources, counts, fills)
}

#[test]
fn an_index_finds_each_source_from_anywhere(rt: HostRuntime) -> Result<(), Fail> {
    let table = table_of(rt.alloc(), &FILLED, &MANY_SOURCES)?;
    let indexed = IndexedMoves::new(rt.alloc(), table)?;
    holds(&rt, indexed.regions() == 6);
    check_sources(&rt, &indexed);
    equal(
        &rt,
        look_up_others(&indexed),
        ([Some(5), None, None], [0, 1, 2], [true, false]),
    );
    Ok(())
}
