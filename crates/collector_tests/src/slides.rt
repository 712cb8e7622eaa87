//! Plans of slides of opaque objects, in regions of 8 words. That words slide as planned is tested in `tests/c/slide.c`.
use crate::checks::equal;
use collector::{NewPlace, Slide};
use heap_image::Fault;
use mark_bitmap::{OpaqueHeap, OpaqueObjects};
use std::alloc::Global;
use std::test::Fail;

/// A heap of so many words, with this allowance.
const fn heap(words: u64, allowance: u64) -> OpaqueHeap {
    OpaqueHeap {
        region_log: 3,
        allowance,
        words,
    }
}

/// Four objects in 24 words.
const LIVE: [u64; 4] = [1, 9, 13, 20];

const SIZES: [u32; 4] = [2, 3, 6, 4];

/// The slide of these objects.
fn plan(alloc: Global, heap: OpaqueHeap, live: &[u64], sizes: &[u32]) -> Result<Slide, Fault> {
    if live.len() != sizes.len() {
        return Err(Fault::Length);
    }
    Slide::plan(alloc, &OpaqueObjects::new(heap, live, sizes)?)
}

#[test]
fn places_are_known_before(rt: HostRuntime) -> Result<(), Fail> {
    let slide = plan(rt.alloc(), heap(24, 0), &LIVE, &SIZES)?;
    let places = [0, 1, 2, 3, 9, 18, 19, 23, 24].map(|address: u64| slide.new_place(address));
    let known = [
        NewPlace::NotLive,
        NewPlace::At(0),
        NewPlace::At(1),
        NewPlace::NotLive,
        NewPlace::At(2),
        NewPlace::At(10),
        NewPlace::NotLive,
        NewPlace::At(14),
        NewPlace::Outside,
    ];
    equal(&rt, places == known, true);
    Ok(())
}

/// The fault of a plan, if there is one.
fn fault_of(alloc: Global, heap: OpaqueHeap, live: &[u64], sizes: &[u32]) -> Option<Fault> {
    plan(alloc, heap, live, sizes).err()
}

#[test]
fn the_first_wrong_object_is_named(rt: HostRuntime) {
    let found = [
        fault_of(rt.alloc(), heap(24, 0), &[1, 24], &[1, 1]),
        fault_of(rt.alloc(), heap(24, 0), &[5, 5], &[1, 1]),
        fault_of(rt.alloc(), heap(24, 0), &[5, 6], &[0, 1]),
        fault_of(rt.alloc(), heap(24, 0), &[5, 20], &[1, 5]),
        fault_of(rt.alloc(), heap(24, 0), &[5, 6], &[2, 1]),
        fault_of(rt.alloc(), heap(24, 0), &[5, 6, 3], &[2, 1, 1]),
        fault_of(rt.alloc(), heap(0, 0), &[], &[]),
        fault_of(rt.alloc(), heap(23, 0), &[20], &[4]),
        fault_of(rt.alloc(), heap(23, 0), &[20], &[3]),
    ];
    let named = [
        Some(Fault::LiveOrder(1)),
        Some(Fault::LiveOrder(1)),
        Some(Fault::Header(5)),
        Some(Fault::Header(20)),
        Some(Fault::Overlap(6)),
        Some(Fault::Overlap(6)),
        Some(Fault::Length),
        Some(Fault::Header(20)),
        None,
    ];
    equal(&rt, found == named, true);
}

#[test]
fn regions_are_3_to_20_bits_large(rt: HostRuntime) {
    for (region_log, fault) in [
        (2, Some(Fault::RegionLog)),
        (3, None),
        (20, None),
        (21, Some(Fault::RegionLog)),
    ] {
        let heap = OpaqueHeap {
            region_log,
            allowance: 0,
            words: 24,
        };
        equal(&rt, fault_of(rt.alloc(), heap, &LIVE, &SIZES), fault);
    }
}
