//! Tests of marks of known heaps.
ghost use Rattle.std.specs.Prelude.{◌≡◌, ◌≤◌, IfOk};
ghost use Rattle.object_heap.specs.HeapImage.{heap_words};

mod marking;

use crate::answers::are_right;
use crate::checks::{equal, holds};
use crate::images::texts::regions_of;
use heap_image::{Alone, Fault, Image, decode};
use heap_samples::{BASE_LIVE, Base, Object, base_image, image_of, image_text, plain_words};
use mark_bitmap::Marks;
use std::alloc::{AllocError, Global};
use std::process::Abort;
use std::test::Fail;
use std::thread::Threads;
use thread_row::Many;

/// The marks of the base heap.
fn base_marks(rt: &impl Abort, alloc: Global) -> Result<Marks, Fail>
    ensures { IfOk result (λ marks. heap_words marks ≡ 32) }
{
    let image = base_image(alloc, 0, &BASE_LIVE)?;
    holds(rt, image.len() == 32);
    Ok(Marks::of(alloc, &image, &Alone)?)
}

/// The image of a heap with this region log and number of words, whose objects have no references and only zeros after
/// their headers.
fn plain_image(
    threads: &(impl Threads + Sync),
    alloc: Global,
    (region_log, len): (u64, u64),
    objects: &[Object],
) -> Result<Image, Fail> {
    let words = plain_words(alloc, len, objects)?;
    let live: Vec<u64> = objects.iter().map(|object| object.0).collect(alloc)?;
    image_of(
        alloc,
        regions_of(region_log),
        words.as_slice(),
        live.as_slice(),
        threads,
    )
}

/// The marks of such a heap.
fn plain_marks(
    rt: &(impl Abort + Threads + Sync),
    alloc: Global,
    sizes: (u64, u64),
    objects: &[Object],
) -> Result<Marks, Fail>
    ensures { IfOk result (λ marks. heap_words marks ≡ sizes.1) }
{
    let image = plain_image(rt, alloc, sizes, objects)?;
    holds(rt, image.len() == sizes.1);
    Ok(Marks::of(alloc, &image, &Alone)?)
}

/// Whether exactly these are the addresses below 600 at which objects begin.
fn are_begins(marks: &Marks, wanted: &[u64]) -> bool {
    let begins = (0..600).filter(|a| marks.is_begin(*a));
    begins.eq(wanted.iter().copied())
}

/// Whether exactly these are the addresses below 600 of last words of objects.
fn are_ends(marks: &Marks, wanted: &[u64]) -> bool {
    let ends = (0..600).filter(|a| marks.is_end(*a));
    ends.eq(wanted.iter().copied())
}

#[test]
fn base_heap_has_its_bits(rt: HostRuntime) -> Result<(), Fail> {
    let marks = base_marks(&rt, rt.alloc())?;
    holds(&rt, are_begins(&marks, &BASE_LIVE));
    holds(&rt, are_ends(&marks, &[2, 8, 13, 29]));
    Ok(())
}

#[test]
fn queries_of_the_base_heap(rt: HostRuntime) -> Result<(), Fail> {
    check_answers(&rt, &base_marks(&rt, rt.alloc())?);
    Ok(())
}

/// Fails if a query of the base heap's marks has another result.
fn check_answers(rt: &impl Abort, marks: &Marks)
    requires { heap_words marks.now ≡ 32 }
{
    let counts = [
        marks.live_words(0, 32),
        marks.live_words(7, 13),
        marks.live_words(25, 25),
    ];
    equal(rt, counts, [19, 3, 0]);
    let begins = [marks.next_begin(13), marks.next_begin(21)];
    equal(rt, begins, [Some(20), None]);
    let over = [
        marks.object_over(20),
        marks.object_over(29),
        marks.object_over(31),
    ];
    equal(rt, over, [Some(20), Some(20), None]);
    let live = [marks.next_live(3), marks.next_live(30)];
    equal(rt, live, [Some(5), None]);
    holds(rt, marks.is_begin(20));
    equal(rt, marks.size_at(20), 10);
}

/// By the marks that this number of workers makes of a heap of 512 words: the number of live words, and whether these
/// are the addresses of last words.
fn count_by_workers(
    threads: &(impl Threads + Sync),
    alloc: Global,
    image: &Image,
    workers: usize,
    ends: &[u64],
) -> Result<(u64, bool), AllocError>
    requires { heap_words image.now ≡ 512 }
{
    let many = Many {
        threads,
        most: workers,
    };
    let marks = Marks::of(alloc, image, &many)?;
    Ok((marks.live_words(0, 512), are_ends(&marks, ends)))
}

#[test]
fn several_workers_make_the_same_marks(rt: HostRuntime) -> Result<(), Fail> {
    let image = plain_image(&rt, rt.alloc(), (9, 512), &[(60, 200), (260, 252)])?;
    holds(&rt, image.len() == 512);
    for workers in [0, 1, 3] {
        let seen = count_by_workers(&rt, rt.alloc(), &image, workers, &[259, 511])?;
        equal(&rt, seen, (452, true));
    }
    Ok(())
}

/// Whether both have the same bits.
fn are_alike(marks: &Marks, others: &Marks, len: u64) -> bool
    requires inside { len ≤ heap_words marks.now }
    requires others_inside { len ≤ heap_words others.now }
{
    for a in 0..len {
        if marks.is_begin(a) != others.is_begin(a) || marks.is_end(a) != others.is_end(a) {
            return false;
        }
    }
    true
}

/// Whether two workers make the same marks of an image as one.
fn are_made_alike(
    threads: &(impl Threads + Sync),
    alloc: Global,
    image: &Image,
) -> Result<bool, Fault> {
    let marks = Marks::of(alloc, image, &Alone)?;
    Ok(are_shared_alike(threads, alloc, image, &marks)?)
}

/// Whether two workers make these marks of their image.
fn are_shared_alike(
    threads: &(impl Threads + Sync),
    alloc: Global,
    image: &Image,
    marks: &Marks,
) -> Result<bool, AllocError>
    requires { marks.now ≡ image.now }
{
    let shared = Marks::of(alloc, image, &Many { threads, most: 2 })?;
    Ok(are_alike(marks, &shared, image.len()))
}

/// Whether two threads make the same marks of a large heap as one. An object crosses the border of their parts,
/// 1,048,640.
fn large_comes_through(alloc: Global, threads: &(impl Threads + Sync)) -> Result<bool, Fault> {
    let objects = [
        (5, 700_000),
        (800_000, 500_000),
        (1_300_001, 1),
        (2_000_000, 97_152),
    ];
    let live = objects.map(|object| object.0);
    let words = plain_words(alloc, 2_097_152, &objects)?;
    let text = image_text(alloc, regions_of(16), words.as_slice(), &live)?;
    are_made_alike(threads, alloc, &decode(alloc, text.as_slice(), &Alone)?)
}

/// A script runs this with each allocation refused in turn.
#[test]
fn two_threads_make_the_same_marks_and_refused_memory_is_reported(rt: HostRuntime) {
    let answers = [
        large_comes_through(rt.alloc(), &rt),
        large_comes_through(rt.alloc(), &rt),
    ];
    holds(&rt, are_right(&answers));
}

/// Whether two workers make the same marks of the base heap with allowance 2 as one.
fn base_comes_through(alloc: Global, threads: &(impl Threads + Sync)) -> Result<bool, Fault> {
    let text = Base::WithLiveList.text(alloc, 2)?;
    are_made_alike(threads, alloc, &decode(alloc, text.as_slice(), &Alone)?)
}

/// A script runs this with each allocation refused in turn.
#[test]
fn refused_memory_is_reported(rt: HostRuntime) {
    let answers = [
        base_comes_through(rt.alloc(), &rt),
        base_comes_through(rt.alloc(), &rt),
    ];
    holds(&rt, are_right(&answers));
}

#[test]
fn a_search_ends_at_its_bound(rt: HostRuntime) -> Result<(), Fail> {
    check_bounds(&rt, &base_marks(&rt, rt.alloc())?);
    Ok(())
}

/// Fails if a search in the base heap doesn't end at its bound.
fn check_bounds(rt: &impl Abort, marks: &Marks) {
    let begins = [
        marks.next_begin_before(13, 21),
        marks.next_begin_before(13, 20),
        marks.next_begin_before(20, 20),
    ];
    equal(rt, begins, [Some(20), None, None]);
    let live = [
        marks.next_live_before(3, 32),
        marks.next_live_before(3, 5),
        marks.next_live_before(30, 32),
    ];
    equal(rt, live, [Some(5), None, None]);
    let dead = [
        marks.next_dead_before(5, 10),
        marks.next_dead_before(5, 9),
        marks.next_dead_before(30, 32),
        marks.next_dead_before(9, 5),
        marks.next_dead_before(99, 100),
    ];
    equal(rt, dead, [Some(9), None, Some(30), None, Some(99)]);
}

#[test]
fn a_search_over_several_words_of_bits_ends_at_its_bound(rt: HostRuntime) -> Result<(), Fail> {
    check_run(
        &rt,
        &plain_marks(&rt, rt.alloc(), (9, 512), &[(60, 200), (260, 252)])?,
    );
    Ok(())
}

/// Fails if a search in that heap doesn't end at its bound.
fn check_run(rt: &impl Abort, marks: &Marks) {
    let live = [
        marks.next_live_before(0, 60),
        marks.next_live_before(0, 61),
        marks.next_live_before(0, 512),
    ];
    equal(rt, live, [None, Some(60), Some(60)]);
    let dead = [
        marks.next_dead_before(60, 128),
        marks.next_dead_before(60, 512),
        marks.next_dead_before(60, 513),
    ];
    equal(rt, dead, [None, None, Some(512)]);
    let begins = [
        marks.next_begin_before(61, 260),
        marks.next_begin_before(61, 261),
    ];
    equal(rt, begins, [None, Some(260)]);
}
