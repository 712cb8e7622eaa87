//! Replays over heaps with roots.
use crate::checks::expect_memory_fault;
use crate::replays::{BY_TWO, RECORDED, WITH_PREFIX, finishes};
use heap_image::Fault;
use heap_samples::{BASE_WORDS, MOVED_WORDS, Settings, rooted_text};
use std::alloc::Global;
use std::thread::Threads;

/// The words of a heap with regions of 8 words, and its roots.
type Rooted<'a> = (&'a [u64; 32], &'a [u64]);

/// A schedule, an allowance, and a heap with it before and after the replay.
type Slide<'a> = ((&'a str, u64), Rooted<'a>, Rooted<'a>);

const SLIDES: [Slide<'_>; 4] = [
    (
        (BY_TWO, 2),
        (&BASE_WORDS, &[21, 0]),
        (&WITH_PREFIX, &[12, 0]),
    ),
    (
        (RECORDED, 0),
        (&BASE_WORDS, &[1, 21, 0, 1, 13]),
        (&MOVED_WORDS, &[1, 10, 0, 1, 8]),
    ),
    (("schedule 1 1\n", 0), (&BASE_WORDS, &[]), (&[0; 32], &[])),
    (("schedule 1 1\n", 0), (&BASE_WORDS, &[0]), (&[0; 32], &[0])),
];

/// Whether a replay of a schedule over the first heap ends with the second, both with this allowance.
fn slides(
    alloc: Global,
    threads: &(impl Threads + Sync),
    (lines, allowance): (&str, u64),
    (words, roots): Rooted<'_>,
    (new_words, new_roots): Rooted<'_>,
) -> Result<bool, Fault> {
    let settings = Settings::of_base(allowance);
    let before = rooted_text(alloc, settings, words, roots)?;
    let after = rooted_text(alloc, settings, new_words, new_roots)?;
    finishes(alloc, threads, lines, before.as_slice(), after.as_slice())
}

/// Whether each of these replays ends with its heap.
fn comes_through(alloc: Global, threads: &(impl Threads + Sync)) -> Result<bool, Fault> {
    let mut all = true;
    for (schedule, old, new) in &SLIDES {
        all &= slides(alloc, threads, *schedule, *old, *new)?;
    }
    Ok(all)
}

/// The script tests/build/test_crate_allocations.sh runs this with each allocation refused in turn.
#[test]
fn refused_memory_is_reported(rt: HostRuntime) {
    let first = comes_through(rt.alloc(), &rt);
    let second = comes_through(rt.alloc(), &rt);
    expect_memory_fault(&rt, [first, second], Fault::Memory);
}
