//! Tests of `thread_row`.
ghost use Rattle.std.specs.Prelude.{◌≡◌, ◌+◌, ◌<◌};

use crate::checks::equal;
use std::thread::Threads;
use thread_row::{behind_an_empty_thread, for_each_mut, for_each_mut_alone};

/// A list of ones after at most `most` threads have added to each element its index.
fn numbered(threads: &(impl Threads + Sync), most: usize) -> [usize; 10]
    requires { 0 < most }
{
    let mut places = [1usize; 10];
    for_each_mut(
        threads,
        &mut places,
        most,
        &|i: usize, it: &mut usize|
            requires { (i < 10) × (it.old ≡ 1) }
            ensures { it.new ≡ 1 + i }
        { *it = 1 + i },
    );
    places
}

#[test]
fn each_element_is_changed_once(rt: HostRuntime) {
    for threads in [1, 2, 3, 4, 64] {
        equal(&rt, numbered(&rt, threads), [1, 2, 3, 4, 5, 6, 7, 8, 9, 10]);
    }
}

#[test]
fn each_element_is_changed_by_the_caller_alone(rt: HostRuntime) {
    let mut places = [1usize; 3];
    for_each_mut_alone(
        &mut places,
        &|i: usize, it: &mut usize|
            requires { (i < 3) × (it.old ≡ 1) }
            ensures { it.new ≡ 1 + i }
        { *it = 1 + i },
    );
    equal(&rt, places, [1, 2, 3]);
}

#[test]
fn a_call_beside_an_empty_thread_returns_its_result(rt: HostRuntime) {
    equal(&rt, behind_an_empty_thread(&rt, || 7u32), 7);
}
