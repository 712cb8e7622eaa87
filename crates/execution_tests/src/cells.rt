//! Reading, writing and putting back regions of the base heap.
ghost use Rattle.std.specs.Prelude.{◌≡◌, IfOk};
ghost use Rattle.object_heap.specs.HeapImage.{region_count};

use crate::checks::{equal, equal_items, holds};
use crate::setups::{
    base_of_four, cells_and_plan, end_fault, opening, read_and_write_faults, read_fault, right,
    write_fault,
};
use heap_image::{Fault, all_processors, decode};
use heap_samples::{BASE_LIVE, BASE_WORDS, DEAD, Settings, rooted_text};
use region_cells::{Cells, Parts, Target};
use std::alloc::Global;
use std::process::Abort;
use std::sync::Wait;
use std::test::Fail;
use std::thread::Threads;
use summary::Plan;

/// The cells and the plan of the base heap with these live objects.
pub fn base_cells<T: Threads + Sync>(
    alloc: Global,
    live: &[u64],
    threads: &T,
) -> Result<(Cells, Plan), Fail>
    ensures plan { IfOk result (λ made. made.1 ≡ made.0) }
    ensures regions { IfOk result (λ made. region_count made.0 ≡ 4) }
    ensures region_log { IfOk result (λ made. made.0.region_log ≡ 3) }
{
    Ok(cells_and_plan(alloc, base_of_four(alloc, 0, live)?, threads)?)
}

/// The words of region 1 as a source shows them, and the fault of a write while the source is open.
fn words_and_fault_while_read<W: Wait>(
    cells: &Cells,
    alloc: Global,
    wait: &W,
) -> Result<([u64; 8], Option<Fault>), Fail>
    requires regions { region_count cells.now ≡ 4 }
    requires region_log { cells.now.region_log ≡ 3 }
{
    let source = cells.read(opening(alloc, 1)?, wait)?;
    let fault = write_fault(cells, alloc, 1, wait);
    let mut words = [0; 8];
    for i in 0..8 {
        words[i] = source.get(i);
    }
    source.close().give_up();
    Ok((words, fault?))
}

/// The words of region 0 after a slide, a fill, a set and a copy from region 1.
fn written_words<W: Wait>(cells: &Cells, alloc: Global, wait: &W) -> Result<[u64; 8], Fail>
    requires regions { region_count cells.now ≡ 4 }
    requires region_log { cells.now.region_log ≡ 3 }
{
    let mut target = cells.write(right(alloc, 0)?, wait)?;
    target.slide(5, 3, 2);
    target.fill(0, 2, 7);
    target.set(2, 9);
    let copied = copy_words(cells, &mut target, alloc, wait);
    let mut words = [0; 8];
    for i in 0..8 {
        words[i] = target.get(i);
    }
    target.give_up();
    copied?;
    Ok(words)
}

/// Copies three words from region 1 to the end of the target.
fn copy_words<W: Wait>(
    cells: &Cells,
    target: &mut Target<'_>,
    alloc: Global,
    wait: &W,
) -> Result<(), Fail>
    requires image { target.old.image ≡ cells.now }
    requires regions { region_count cells.now ≡ 4 }
    requires region_log { cells.now.region_log ≡ 3 }
    ensures { target.new.image ≡ target.old.image }
{
    let source = cells.read(opening(alloc, 1)?, wait)?;
    source.copy_into(target, 3, 5, 3);
    source.close().give_up();
    Ok(())
}

/// The faults of a read and a write of region 1, while it is open for writing and after it was given up.
fn faults_while_written_and_after<W: Wait>(
    cells: &Cells,
    alloc: Global,
    wait: &W,
) -> Result<[[Option<Fault>; 2]; 2], Fail>
    requires { region_count cells.now ≡ 4 }
{
    let target = cells.write(right(alloc, 1)?, wait)?;
    let meanwhile = read_and_write_faults(cells, alloc, 1, wait);
    target.give_up();
    Ok([meanwhile?, read_and_write_faults(cells, alloc, 1, wait)?])
}

/// The results of reads and writes of the base heap, one after the other.
#[derive(Clone, Copy)]
struct Found {
    read: [u64; 8],
    fault_while_read: Option<Fault>,
    written: [u64; 8],
    faults_while_written_and_after: [[Option<Fault>; 2]; 2],
}

fn read_and_write<W: Wait>(cells: &Cells, alloc: Global, wait: &W) -> Result<Found, Fail>
    requires regions { region_count cells.now ≡ 4 }
    requires region_log { cells.now.region_log ≡ 3 }
{
    let (read, fault_while_read) = words_and_fault_while_read(cells, alloc, wait)?;
    Ok(Found {
        read,
        fault_while_read,
        written: written_words(cells, alloc, wait)?,
        faults_while_written_and_after: faults_while_written_and_after(cells, alloc, wait)?,
    })
}

fn read_and_write_base<R: Threads + Wait + Sync>(alloc: Global, rt: &R) -> Result<Found, Fail> {
    let (cells, _plan) = base_cells(alloc, BASE_LIVE.as_slice(), rt)?;
    read_and_write(&cells, alloc, rt)
}

#[test]
fn a_region_is_read_by_many_or_written_by_one(rt: HostRuntime) -> Result<(), Fail> {
    let found = read_and_write_base(rt.alloc(), &rt)?;
    let overwritten = Some(Fault::Overwritten(1));
    equal_items(&rt, found.read.as_slice(), &BASE_WORDS[8..16]);
    equal(&rt, found.fault_while_read, overwritten);
    let written = [
        7,
        7,
        9,
        0x0100_0001_0000_0004,
        13,
        DEAD,
        0x0100_0001_0000_0002,
        1,
    ];
    equal_items(&rt, found.written.as_slice(), written.as_slice());
    equal(
        &rt,
        found.faults_while_written_and_after,
        [[overwritten; 2]; 2],
    );
    Ok(())
}

/// The faults of a read and a write of region 3, which is not to be filled, and the fault with which the cells end.
fn faults_of_another_region<R: Threads + Wait + Sync>(
    alloc: Global,
    live: &[u64],
    rt: &R,
) -> Result<([Option<Fault>; 2], Option<Fault>), Fail> {
    let (cells, _plan) = base_cells(alloc, live, rt)?;
    let faults = read_and_write_faults(&cells, alloc, 3, rt)?;
    Ok((faults, end_fault(cells)))
}

#[test]
fn a_region_that_is_not_to_be_filled_is_only_read(rt: HostRuntime) -> Result<(), Fail> {
    let faults = [None, Some(Fault::Overwritten(3))];
    equal(
        &rt,
        faults_of_another_region(rt.alloc(), BASE_LIVE.as_slice(), &rt)?,
        (faults, Some(Fault::Overwritten(0))),
    );
    equal(
        &rt,
        faults_of_another_region(rt.alloc(), [].as_slice(), &rt)?,
        (faults, None),
    );
    Ok(())
}

#[test]
fn cells_do_not_end_if_nothing_is_filled(rt: HostRuntime) -> Result<(), Fail> {
    let (cells, _plan) = base_cells(rt.alloc(), BASE_LIVE.as_slice(), &rt)?;
    equal(&rt, end_fault(cells), Some(Fault::Overwritten(0)));
    Ok(())
}

/// The fault of a read in a heap without live objects, and the parts of the heap afterwards.
fn parts_once_read<R: Threads + Wait + Sync>(
    alloc: Global,
    rt: &R,
) -> Result<(Option<Fault>, Parts), Fail> {
    let (cells, _plan) = base_cells(alloc, [].as_slice(), rt)?;
    let fault = read_fault(&cells, alloc, 1, rt)?;
    Ok((fault, cells.into_regions()?))
}

/// Fails unless these are the parts of the base heap without live objects.
fn are_of_dead_base(rt: &impl Abort, parts: &Parts) {
    equal(rt, (parts.region_log, parts.allowance), (3, 0));
    equal(rt, (parts.regions.len(), parts.live.len()), (4, 0));
    holds(rt, parts.roots.is_none());
    for (region, words) in parts.regions.iter().zip(BASE_WORDS.chunks_exact(8)) {
        equal_items(rt, region.words(), words);
    }
}

#[test]
fn a_heap_without_live_objects_stays_unchanged(rt: HostRuntime) -> Result<(), Fail> {
    let (fault, parts) = parts_once_read(rt.alloc(), &rt)?;
    equal(&rt, fault, None);
    are_of_dead_base(&rt, &parts);
    Ok(())
}

/// The parts of the image with this text after it was put into cells.
fn parts_of<T: Threads + Sync>(alloc: Global, text: &[u8], threads: &T) -> Result<Parts, Fault> {
    let image = decode(alloc, text, &all_processors(threads))?;
    let (cells, _plan) = cells_and_plan(alloc, image, threads)?;
    cells.into_regions()
}

#[test]
fn roots_are_kept(rt: HostRuntime) -> Result<(), Fail> {
    let text = rooted_text(rt.alloc(), Settings::of_base(0), &BASE_WORDS, &[0, 0])?;
    let parts = parts_of(rt.alloc(), text.as_slice(), &rt)?;
    match &parts.roots {
        Some(roots) => equal_items(&rt, roots.as_slice(), [0, 0].as_slice()),
        None => return Err(Fail::from("no roots")),
    }
    Ok(())
}
