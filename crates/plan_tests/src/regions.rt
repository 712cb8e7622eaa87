//! Tests of what plans say about single regions.
use crate::checks::{equal, holds, holds_at};
use crate::known_heaps::{BASE, BASE_SIZES, Sizes, plan_of};
use heap_samples::Object;
use std::alloc::Global;
use std::test::Fail;
use std::thread::Threads;
use summary::{Plan, RegionData};

/// A heap, and the deferred addresses of its regions.
type Row = (Sizes, &'static [Object], &'static [Option<u64>]);

/// Whether these are the deferred addresses of the regions.
fn defers(plan: &Plan, expected: &[Option<u64>]) -> bool {
    for d in 0..plan.regions() {
        if expected.get(d as usize) != Some(&plan.deferred(d)) {
            return false;
        }
    }
    true
}

/// Whether the plan of a row's heap has its deferred addresses.
fn heap_defers<T: Threads + Sync>(threads: &T, alloc: Global, row: &Row) -> Result<bool, Fail> {
    let (sizes, objects, expected) = *row;
    let plan = plan_of(threads, alloc, sizes, objects)?;
    Ok(defers(&plan, expected))
}

/// Heaps with objects that cross the ends of regions.
const DEFERRED_ROWS: [Row; 4] = [
    ((3, 32, 0), &BASE, &[Some(7), Some(9), None, None]),
    ((3, 32, 2), &BASE, &[Some(5), Some(11), None, None]),
    ((3, 32, 0), &[(0, 32)], &[Some(0), None, None, None]),
    ((3, 32, 0), &[(1, 20)], &[Some(0), None, None, None]),
];

#[test]
fn deferred_addresses(rt: HostRuntime) -> Result<(), Fail> {
    for (row, heap) in DEFERRED_ROWS.iter().enumerate() {
        holds_at(&rt, heap_defers(&rt, rt.alloc(), heap)?, row);
    }
    Ok(())
}

/// Whether these are the regions that region `d` reads.
fn reads(plan: &Plan, d: u32, expected: &[u32]) -> bool {
    d < plan.regions() && plan.reads(d).eq(expected.iter().copied())
}

/// For an object of 20 words at address 1: each region, and the regions that it reads.
const READS: [(u32, &[u32]); 4] = [(0, &[0, 1]), (1, &[1, 2]), (2, &[2]), (3, &[])];

#[test]
fn regions_that_an_object_crosses_read_the_next(rt: HostRuntime) -> Result<(), Fail> {
    let plan = plan_of(&rt, rt.alloc(), BASE_SIZES, &[(1, 20)])?;
    for (d, expected) in READS {
        holds_at(&rt, reads(&plan, d, expected), d as usize);
    }
    Ok(())
}

/// The data of region 1, if there is one.
fn second_region(plan: &Plan) -> Option<RegionData> {
    if plan.regions() > 1 {
        Some(plan.region(1))
    } else {
        None
    }
}

#[test]
fn one_region_of_the_base_heap(rt: HostRuntime) -> Result<(), Fail> {
    let plan = plan_of(&rt, rt.alloc(), BASE_SIZES, &BASE)?;
    let sizes = (plan.regions(), plan.region_log(), plan.region_words());
    equal(&rt, sizes, (4, 3, 8));
    let source = second_region(&plan).map(|region| region.source);
    equal(&rt, source, Some(Some(1)));
    holds(&rt, plan.reads_from(1, 2).eq([2, 3]));
    Ok(())
}

#[test]
fn the_second_half_of_a_large_heap(rt: HostRuntime) -> Result<(), Fail> {
    let plan = plan_of(&rt, rt.alloc(), (9, 1024, 0), &[(10, 700), (900, 3)])?;
    let region = second_region(&plan).map(|region| (region.partial, region.destination));
    equal(&rt, (plan.regions(), region), (2, Some((198, 502))));
    Ok(())
}
