//! A heap made smaller by a step, and where the words of a heap go. `tests/cli/test_shrink.py` and `tests/cli/test_map.py` have the
//! rest.
use crate::checks::equal;
use heap_image::{Alone, Image};
use heap_maker::{HeapSize, Smaller, next_smaller};
use heap_map::{Band, Bands, MAX_BANDS};
use heap_samples::{BASE_LIVE, base_image};
use std::alloc::Global;
use std::test::Fail;
use summary::Survey;

/// What is left of the base heap without its objects.
const WITHOUT_OBJECTS: HeapSize = HeapSize {
    words: 16,
    region_log: 3,
    allowance: 0,
    roots: 0,
    live: 0,
    end: 0,
    references: 0,
};

/// The step from this number on that makes the heap smaller, and the counts of what it makes.
fn step_from(alloc: Global, image: &Image, from: u64) -> Result<Option<(u64, HeapSize)>, Fail> {
    match next_smaller(alloc, image, from)? {
        Some(Smaller { step, size, .. }) => Ok(Some((step, size))),
        None => Ok(None),
    }
}

#[test]
fn a_step_leaves_all_objects_out(rt: HostRuntime) -> Result<(), Fail> {
    let image = base_image(rt.alloc(), 0, &BASE_LIVE)?;
    equal(
        &rt,
        step_from(rt.alloc(), &image, 0)?,
        Some((1, WITHOUT_OBJECTS)),
    );
    equal(&rt, step_from(rt.alloc(), &image, u64::MAX)?, None);
    Ok(())
}

/// Where the objects of a heap go.
fn targets(alloc: Global, image: &Image) -> Result<Vec<u64>, Fail> {
    let survey = Survey::of(alloc, image, &Alone)?;
    let bands = Bands::of(alloc, image, &survey, MAX_BANDS)?;
    let mut targets = Vec::new(alloc);
    for Band { target, .. } in &bands.bands {
        targets.push(*target)?;
    }
    Ok(targets)
}

#[test]
fn objects_go_to_the_low_end(rt: HostRuntime) -> Result<(), Fail> {
    let image = base_image(rt.alloc(), 0, &BASE_LIVE)?;
    let targets = targets(rt.alloc(), &image)?;
    equal(&rt, targets.as_slice() == [0, 3, 7, 9].as_slice(), true);
    Ok(())
}
