//! Tests of redirected references.
ghost use Rattle.std.specs.Prelude.{◌≡◌};

use crate::checks::{holds, holds_at};
use crate::known_heaps::{BASE, BASE_SIZES, Sizes, image_of, image_plan};
use heap_image::{Fault, Image};
use heap_samples::Object;
use raw_region::Region;
use std::alloc::Global;
use std::test::Fail;
use std::thread::Threads;
use summary::Plan;

/// A heap, and what null and a reference to each live object become.
type Row = (Sizes, &'static [Object], &'static [u64]);

/// What null and a reference to each live object become by this plan.
fn references(alloc: Global, image: &Image, plan: &Plan) -> Result<Vec<u64>, Fault>
    requires { plan.now ≡ image.now }
{
    let mut references = Vec::new(alloc);
    references.push(plan.redirected(0))?;
    for a in image.live() {
        references.push(plan.redirected(*a + 1))?;
    }
    Ok(references)
}

/// What they become by the plan of an image.
fn image_references<T: Threads + Sync>(
    threads: &T,
    alloc: Global,
    image: &Image,
) -> Result<Vec<u64>, Fault> {
    let plan = image_plan(threads, alloc, image)?;
    references(alloc, image, &plan)
}

/// Whether the references of a row's heap become those of the row.
fn redirects<T: Threads + Sync>(threads: &T, alloc: Global, row: &Row) -> Result<bool, Fail> {
    let (sizes, objects, expected) = *row;
    let image = image_of(threads, alloc, sizes, objects)?;
    let found = image_references(threads, alloc, &image)?;
    Ok(found.as_slice() == expected)
}

/// The base heap without a prefix, and with one.
const BASE_ROWS: [Row; 2] = [
    ((3, 32, 0), &BASE, &[0, 1, 4, 8, 10]),
    ((3, 32, 2), &BASE, &[0, 1, 6, 10, 12]),
];

#[test]
fn references_follow_their_objects(rt: HostRuntime) -> Result<(), Fail> {
    for (row, heap) in BASE_ROWS.iter().enumerate() {
        holds_at(&rt, redirects(&rt, rt.alloc(), heap)?, row);
    }
    Ok(())
}

/// Heaps whose last word is an object.
const LAST_WORD_ROWS: [Row; 6] = [
    ((3, 8, 0), &[(7, 1)], &[0, 1]),
    ((3, 8, 7), &[(7, 1)], &[0, 8]),
    ((6, 64, 0), &[(0, 1), (63, 1)], &[0, 1, 2]),
    ((6, 64, 62), &[(0, 1), (63, 1)], &[0, 1, 64]),
    ((6, 128, 0), &[(0, 64), (127, 1)], &[0, 1, 65]),
    ((6, 128, 63), &[(0, 64), (127, 1)], &[0, 1, 128]),
];

#[test]
fn references_to_the_last_word(rt: HostRuntime) -> Result<(), Fail> {
    for (row, heap) in LAST_WORD_ROWS.iter().enumerate() {
        holds_at(&rt, redirects(&rt, rt.alloc(), heap)?, row);
    }
    Ok(())
}

/// Whether `redirect` gives a reference to each live object in a region the same value as `redirected`.
fn redirects_in_regions(alloc: Global, image: &Image, plan: &Plan) -> Result<bool, Fault>
    requires { plan.now ≡ image.now }
{
    for a in image.live() {
        let mut region = Region::new(alloc, 1)?;
        region.set(0, *a + 1);
        plan.redirect(&mut region, 0, 1);
        if region.get(0) != plan.redirected(*a + 1) {
            return Ok(false);
        }
    }
    Ok(true)
}

fn image_redirects_in_regions<T: Threads + Sync>(
    threads: &T,
    alloc: Global,
    image: &Image,
) -> Result<bool, Fault> {
    let plan = image_plan(threads, alloc, image)?;
    redirects_in_regions(alloc, image, &plan)
}

#[test]
fn references_of_a_region_follow_their_objects(rt: HostRuntime) -> Result<(), Fail> {
    let image = image_of(&rt, rt.alloc(), BASE_SIZES, &BASE)?;
    holds(&rt, image_redirects_in_regions(&rt, rt.alloc(), &image)?);
    Ok(())
}
