//! Fault 15: reads and writes of a base-heap region in a cell that has moved or was given up, and the ends of such cells.
//! The moved words are those of fills over a board. The rights and openings come from other boards.
ghost use Rattle.std.specs.Prelude.{◌≡◌, ◌<◌, ◌≤◌, length, IfOk};
ghost use Rattle.object_heap.specs.HeapImage.{region_words, region_count};
ghost use Rattle.region_cells.specs.Blocks.{moved_block};
ghost use Rattle.fill.specs.MovedHeap.{moved_regions};

use crate::checks::{equal, holds};
use crate::heaps::{fill_below, heap_of};
use crate::setups::{base_of_four, cells_of, end_fault, read_and_write_faults, right, write_fault};
use heap_image::Fault;
use heap_samples::BASE_LIVE;
use raw_region::Region;
use region_cells::{Cells, Target};
use std::alloc::Global;
use std::sync::Wait;
use std::test::Fail;
use std::thread::Threads;

/// The base heap in cells, and its regions once they have moved.
#[derive(Drop)]
struct Base {
    cells: Cells,
    moved: Vec<Region>,
    ghost four: { region_count cells ≡ 4 },
    ghost are_moved: { moved.items ≡ moved_regions cells },
}

/// Puts the base heap into cells, and fills copies of its regions.
fn base_in_cells<T: Threads + Sync>(alloc: Global, threads: &T) -> Result<Base, Fail> {
    let image = base_of_four(alloc, 0, &BASE_LIVE)?;
    let (heap, mut seat) = heap_of(alloc, &image, threads)?;
    let end = heap.survey.plan().fill_regions();
    fill_below(&heap, &mut seat, alloc, end);
    let (survey, moved) = heap.into_moved(alloc, seat)?;
    let cells = cells_of(alloc, image, survey.plan())?;
    Ok(Base { cells, moved })
}

/// Writes the words of a region over those of a target.
fn write_words(target: &mut Target<'_>, words: &Region)
    requires target { length target.old.words ≡ region_words target.old.image }
    requires words { length words.now ≡ region_words target.old.image }
    ensures words { target.new.words ≡ words.now }
    ensures same { (target.new.image ≡ target.old.image) × (target.new.right ≡ target.old.right) }
{
    for i in 0..words.len() {
        target.set(i, words.get(i));
    }
}

/// The moved words of a region.
fn moved_words(base: &Base, region: u32) -> &Region
    requires { region < 4 }
    ensures words { result.now ≡ moved_block base.now.cells region }
    ensures length { length result.now ≡ region_words base.now.cells }
{
    &base.moved[region as usize]
}

/// Writes the moved words of a region and puts it back. Returns whether it is that region.
fn move_region<W: Wait>(base: &Base, alloc: Global, region: u32, wait: &W) -> Result<bool, Fail>
    requires { region < 4 }
{
    let mut target = base.cells.write(right(alloc, region)?, wait)?;
    write_words(&mut target, moved_words(base, region));
    let (written, placed) = target.put();
    written.give_up();
    Ok(placed.region() == region)
}

/// Moves the regions below `end`, and returns the faults of a read and a write of a region afterwards.
fn move_and_open<W: Wait>(
    base: &Base,
    alloc: Global,
    end: u32,
    region: u32,
    wait: &W,
) -> Result<(bool, [Option<Fault>; 2]), Fail>
    requires { (end ≤ 4) × (region < 4) }
{
    let mut are_moved = true;
    for number in 0..end {
        are_moved &= move_region(base, alloc, number, wait)?;
    }
    let faults = read_and_write_faults(&base.cells, alloc, region, wait)?;
    Ok((are_moved, faults))
}

/// Whether all regions below `end` were moved, the faults of a read and a write of a region afterwards, and the fault with
/// which the cells end.
type Moved = ((bool, [Option<Fault>; 2]), Option<Fault>);

fn move_base<R: AllocGlobal + Threads + Wait + Sync>(
    end: u32,
    region: u32,
    rt: &R,
) -> Result<Moved, Fail>
    requires { (end ≤ 4) × (region < 4) }
{
    let base = base_in_cells(rt.alloc(), rt)?;
    let found = move_and_open(&base, rt.alloc(), end, region, rt)?;
    let Base { cells, moved: _ } = base;
    Ok((found, end_fault(cells)))
}

#[test]
fn a_region_that_has_moved_cannot_be_opened(rt: HostRuntime) -> Result<(), Fail> {
    equal(
        &rt,
        move_base(2, 1, &rt)?,
        (
            (true, [Some(Fault::Overwritten(1)); 2]),
            Some(Fault::Overwritten(2)),
        ),
    );
    Ok(())
}

#[test]
fn cells_end_although_another_region_was_opened(rt: HostRuntime) -> Result<(), Fail> {
    equal(
        &rt,
        move_base(3, 3, &rt)?,
        ((true, [None, Some(Fault::Overwritten(3))]), None),
    );
    Ok(())
}

/// The fault of a write of region 1 that is given up, and of a read and a write of it afterwards; and whether region 0 is
/// moved then.
type Spoiled = (Option<Fault>, [Option<Fault>; 2], bool);

fn spoil<W: Wait>(base: &Base, alloc: Global, wait: &W) -> Result<Spoiled, Fail> {
    let given_up = write_fault(&base.cells, alloc, 1, wait)?;
    let faults = read_and_write_faults(&base.cells, alloc, 1, wait)?;
    Ok((given_up, faults, move_region(base, alloc, 0, wait)?))
}

/// The same, and the fault with which the cells end.
fn spoil_base<R: Threads + Wait + Sync>(
    alloc: Global,
    rt: &R,
) -> Result<(Spoiled, Option<Fault>), Fail> {
    let base = base_in_cells(alloc, rt)?;
    let found = spoil(&base, alloc, rt)?;
    let Base { cells, moved: _ } = base;
    Ok((found, end_fault(cells)))
}

#[test]
fn a_region_that_was_given_up_is_lost(rt: HostRuntime) -> Result<(), Fail> {
    let spoiled = Some(Fault::Overwritten(1));
    equal(
        &rt,
        spoil_base(rt.alloc(), &rt)?,
        ((None, [spoiled; 2], true), spoiled),
    );
    Ok(())
}

/// The regions that come out of the cells once each that is to be filled has moved.
fn end_moved<R: AllocGlobal + Threads + Wait + Sync>(rt: &R) -> Result<bool, Fail> {
    let base = base_in_cells(rt.alloc(), rt)?;
    let (are_moved, _faults) = move_and_open(&base, rt.alloc(), 3, 3, rt)?;
    let Base { cells, moved } = base;
    let parts = cells.into_regions()?;
    Ok(are_moved && are_same(parts.regions.as_slice(), moved.as_slice()))
}

/// Whether the regions of both lists have the same words.
fn are_same(one: &[Region], other: &[Region]) -> bool {
    let mut pairs = one.iter().zip(other);
    one.len() == other.len() && pairs.all(|(a, b)| a.words() == b.words())
}

#[test]
fn cells_end_with_the_moved_regions(rt: HostRuntime) -> Result<(), Fail> {
    holds(&rt, end_moved(&rt)?);
    Ok(())
}
