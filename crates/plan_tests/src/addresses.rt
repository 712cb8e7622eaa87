//! Tests of new addresses.
ghost use Rattle.std.specs.Prelude.{◌≡◌};

use crate::checks::{equal, holds, holds_at};
use crate::known_heaps::{BASE, BASE_SIZES, Sizes, image_of};
use heap_image::{Fault, Image};
use heap_samples::Object;
use std::alloc::Global;
use std::test::Fail;
use std::thread::Threads;
use summary::Survey;
use thread_row::Many;

/// A heap and its figures: the prefix end, the new top, the number of regions to fill, and the new addresses.
type Row = (Sizes, &'static [Object], &'static [u64]);

/// The figures of an image by its survey.
fn figures(alloc: Global, image: &Image, survey: &Survey) -> Result<Vec<u64>, Fault>
    requires { survey.now ≡ image.now }
{
    let plan = survey.plan();
    let mut figures = Vec::new(alloc);
    figures.push(plan.prefix_end())?;
    figures.push(plan.new_top())?;
    figures.push(u64::from(plan.fill_regions()))?;
    for a in image.live() {
        figures.push(plan.new_address(*a))?;
    }
    Ok(figures)
}

fn image_figures<T: Threads + Sync>(
    threads: &T,
    alloc: Global,
    image: &Image,
) -> Result<Vec<u64>, Fault> {
    let survey = Survey::of(alloc, image, &Many { threads, most: 2 })?;
    figures(alloc, image, &survey)
}

/// Whether the heap of a row has its figures.
fn slides<T: Threads + Sync>(threads: &T, alloc: Global, row: &Row) -> Result<bool, Fail> {
    let (sizes, objects, expected) = *row;
    let image = image_of(threads, alloc, sizes, objects)?;
    let found = image_figures(threads, alloc, &image)?;
    Ok(found.as_slice() == expected)
}

/// The base heap with some allowances.
const BASE_ROWS: [Row; 4] = [
    ((3, 32, 0), &BASE, &[0, 19, 3, 0, 3, 7, 9]),
    ((3, 32, 1), &BASE, &[0, 19, 3, 0, 3, 7, 9]),
    ((3, 32, 2), &BASE, &[8, 21, 3, 0, 5, 9, 11]),
    ((3, 32, u64::MAX), &BASE, &[24, 30, 4, 0, 5, 12, 20]),
];

#[test]
fn objects_of_the_base_heap_slide(rt: HostRuntime) -> Result<(), Fail> {
    for (row, heap) in BASE_ROWS.iter().enumerate() {
        holds_at(&rt, slides(&rt, rt.alloc(), heap)?, row);
    }
    Ok(())
}

/// Heaps whose prefix ends at or before the region of their last live word.
const PREFIX_ROWS: [Row; 4] = [
    ((3, 16, 8), &[(0, 4), (10, 2)], &[8, 10, 2, 0, 8]),
    ((3, 24, 14), &[(2, 2), (20, 3)], &[16, 19, 3, 2, 16]),
    ((3, 24, 13), &[(2, 2), (20, 3)], &[8, 11, 2, 2, 8]),
    ((3, 32, 5), &[], &[0, 0, 0]),
];

#[test]
fn prefixes_are_cut_at_the_last_live_end(rt: HostRuntime) -> Result<(), Fail> {
    for (row, heap) in PREFIX_ROWS.iter().enumerate() {
        holds_at(&rt, slides(&rt, rt.alloc(), heap)?, row);
    }
    Ok(())
}

/// Heaps of one object or one region, and heaps with blocks that begin within objects.
const BLOCK_ROWS: [Row; 6] = [
    ((3, 32, 0), &[(0, 32)], &[32, 32, 4, 0]),
    ((3, 8, 0), &[(0, 1), (2, 1), (3, 5)], &[0, 7, 1, 0, 1, 2]),
    ((3, 8, 1), &[(0, 1), (2, 1), (3, 5)], &[8, 8, 1, 0, 2, 3]),
    (
        (9, 512, 0),
        &[(0, 1), (130, 2), (300, 4), (511, 1)],
        &[0, 8, 1, 0, 1, 3, 7],
    ),
    ((9, 1024, 0), &[(10, 700), (900, 3)], &[0, 703, 2, 0, 700]),
    ((3, 32, 0), &[(1, 20)], &[0, 20, 3, 0]),
];

#[test]
fn blocks_and_whole_heaps(rt: HostRuntime) -> Result<(), Fail> {
    for (row, heap) in BLOCK_ROWS.iter().enumerate() {
        holds_at(&rt, slides(&rt, rt.alloc(), heap)?, row);
    }
    Ok(())
}

/// From the survey of an image: the new top, and the first address from 6 on at which an object begins.
fn survey_findings<T: Threads + Sync>(
    threads: &T,
    alloc: Global,
    image: &Image,
) -> Result<(u64, Option<u64>), Fault> {
    let survey = Survey::of(alloc, image, &Many { threads, most: 2 })?;
    Ok((survey.plan().new_top(), survey.marks().next_begin(6)))
}

#[test]
fn a_survey_has_marks_and_plan(rt: HostRuntime) -> Result<(), Fail> {
    let image = image_of(&rt, rt.alloc(), BASE_SIZES, &BASE)?;
    let found = survey_findings(&rt, rt.alloc(), &image)?;
    equal(&rt, found, (19, Some(12)));
    Ok(())
}

/// The words of the base heap, and where those at 6, 13, 30 and 32 go: the second of an object, the last of one, a dead one, and
/// none.
fn places_found<T: Threads + Sync>(
    threads: &T,
    alloc: Global,
    image: &Image,
) -> Result<(u64, [Option<u64>; 4]), Fault> {
    let survey = Survey::of(alloc, image, &Many { threads, most: 2 })?;
    let places = survey.plan().word_places();
    let found = [
        places.get(6),
        places.get(13),
        places.get(30),
        places.get(32),
    ];
    Ok((places.words(), found))
}

#[test]
fn interior_words_slide_with_their_objects(rt: HostRuntime) -> Result<(), Fail> {
    let image = image_of(&rt, rt.alloc(), BASE_SIZES, &BASE)?;
    let found = places_found(&rt, rt.alloc(), &image)?;
    equal(&rt, found, (32, [Some(4), Some(8), None, None]));
    Ok(())
}

#[test]
fn an_object_has_its_size_and_references(rt: HostRuntime) -> Result<(), Fail> {
    let image = image_of(&rt, rt.alloc(), BASE_SIZES, &BASE)?;
    holds(&rt, image.len() == 32);
    equal(&rt, (image.size_at(20), image.references_at(20)), (10, 0));
    Ok(())
}
