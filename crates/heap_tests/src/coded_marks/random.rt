//! Heaps at random, whose marks are those of the slow program whatever the size of the stack.
ghost use Rattle.std.specs.Prelude.{◌≡◌, ◌<◌, ◌≤◌};
ghost use Rattle.object_heap.specs.HeapImage.{heap_words};

use crate::checks::{equal_at, holds, holds_at};
use crate::coded_marks::hosts::Host;
use crate::coded_marks::slow::reached;
use coded_marking::{CodedHeap, Marking};
use object_coding::ObjectCoding;
use std::alloc::{AllocError, Global};
use std::process::Abort;
use std::test::Fail;

/// Pseudo-random numbers.
#[derive(Drop)]
struct Numbers {
    state: u64,
}

impl Numbers {
    fn next(&mut self) -> u64 {
        self.state = self.state.wrapping_add(0x9E37_79B9_7F4A_7C15);
        let mixed = (self.state ^ self.state >> 30).wrapping_mul(0xBF58_476D_1CE4_E5B9);
        mixed ^ mixed >> 27
    }

    fn below(&mut self, bound: u64) -> u64
        requires { 0 < bound }
        ensures { result < bound }
    {
        self.next() % bound
    }
}

/// A word that often leads to one of these addresses.
fn word_at_random(numbers: &mut Numbers, host: Host, starts: &[u64]) -> u64 {
    if numbers.below(4) == 0 || starts.is_empty() {
        return numbers.next();
    }
    let place = numbers.below(starts.len() as u64);
    host.word_to(starts[place as usize])
}

/// The addresses of objects that lie side by side, and after them the number of their words.
fn starts_at_random(
    alloc: Global,
    numbers: &mut Numbers,
    most: u64,
) -> Result<Vec<u64>, AllocError> {
    let mut starts = vec![in alloc; 0]?;
    let mut end: u64 = 0;
    for _ in 0..1 + numbers.next() % most.max(1) {
        end = end.saturating_add(1 + numbers.below(5));
        starts.push(end)?;
    }
    Ok(starts)
}

/// The words of objects at these addresses. The last address is where the heap ends.
fn words_at_random(
    alloc: Global,
    numbers: &mut Numbers,
    host: Host,
    starts: &[u64],
) -> Result<Vec<u64>, AllocError> {
    let mut words = Vec::new(alloc);
    for pair in starts.windows(2) {
        let size = pair[1].saturating_sub(pair[0]);
        words.push(host.header(size, numbers.below(5) != 0))?;
        for _ in 1..size {
            words.push(word_at_random(numbers, host, starts))?;
        }
    }
    Ok(words)
}

/// Words as roots, some of which lead nowhere.
fn roots_at_random(
    alloc: Global,
    numbers: &mut Numbers,
    host: Host,
    starts: &[u64],
) -> Result<Vec<u64>, AllocError> {
    let mut roots = Vec::new(alloc);
    for _ in 0..numbers.below(4) {
        roots.push(word_at_random(numbers, host, starts))?;
    }
    Ok(roots)
}

/// Checks what is asked of a marking against the flags of the slow program.
fn check_marks(
    rt: &impl Abort,
    alloc: Global,
    marking: &Marking,
    heap: &CodedHeap<'_>,
    flags: &[bool],
) -> Result<(), Fail>
    requires { heap_words heap.now ≡ marking.now.words }
{
    let mut count: usize = 0;
    let Ok(live) = marking.live(alloc, heap) else {
        holds(rt, false);
        return Ok(());
    };
    for a in 0..flags.len() {
        equal_at(rt, marking.is_reached(a as u64), flags[a], a);
        if flags[a] {
            let listed = live.addresses.get(count) == Some(&(a as u64));
            holds_at(rt, listed, a);
            count = count.saturating_add(1);
        }
    }
    holds(rt, marking.count() == count as u64);
    holds(rt, live.sizes.len() == count);
    holds(rt, !marking.is_reached(flags.len() as u64));
    holds(rt, !marking.is_reached(u64::MAX));
    Ok(())
}

/// Marks from the roots in two calls, with a stack of this size, and checks the marks.
fn check(
    rt: &impl Abort,
    alloc: Global,
    host: Host,
    words: &[u64],
    roots: &[u64],
    most: usize,
) -> Result<(), Fail>
    requires { 0 < most }
{
    if words.len() > 100_000 {
        return Ok(());
    }
    let flags = reached(alloc, host, words, roots)?;
    let Ok(coding) = ObjectCoding::new(host.layout(), words.len() as u64) else {
        holds(rt, false);
        return Ok(());
    };
    let Some(heap) = CodedHeap::new(words, &coding) else {
        holds(rt, false);
        return Ok(());
    };
    let mut marking = Marking::with_stack(alloc, words.len() as u64, most)?;
    let (first, second) = roots.split_at(roots.len() / 2);
    holds(rt, marking.mark(&heap, first).is_ok());
    holds(rt, marking.mark(&heap, second).is_ok());
    check_marks(rt, alloc, &marking, &heap, flags.as_slice())
}

/// Checks heaps of a host with at most this number of objects, with stacks of several sizes.
fn check_host(rt: &impl Abort, alloc: Global, host: Host, most: u64) -> Result<(), Fail> {
    let mut numbers = Numbers { state: most };
    for _ in 0..60 {
        let starts = starts_at_random(alloc, &mut numbers, most)?;
        let words = words_at_random(alloc, &mut numbers, host, starts.as_slice())?;
        let roots = roots_at_random(alloc, &mut numbers, host, starts.as_slice())?;
        for most in [1, 2, 5, 16_384] {
            check(rt, alloc, host, words.as_slice(), roots.as_slice(), most)?;
        }
    }
    Ok(())
}

#[test]
fn marks_of_ocaml_are_those_of_the_slow_program(rt: HostRuntime) -> Result<(), Fail> {
    check_host(&rt, rt.alloc(), Host::OCaml, 6)?;
    check_host(&rt, rt.alloc(), Host::OCaml, 60)
}

#[test]
fn marks_of_scheme_48_are_those_of_the_slow_program(rt: HostRuntime) -> Result<(), Fail> {
    check_host(&rt, rt.alloc(), Host::Scheme48, 6)?;
    check_host(&rt, rt.alloc(), Host::Scheme48, 60)
}
