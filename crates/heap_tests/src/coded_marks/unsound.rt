//! What stops a marking, and what its list refuses.
ghost use Rattle.std.specs.Prelude.{◌≡◌, IfOk};

use crate::checks::{equal, holds};
use crate::coded_marks::hosts::Host;
use coded_marking::{CodedHeap, ListError, Marking};
use object_coding::ObjectCoding;
use std::alloc::Global;
use std::process::Abort;
use std::test::Fail;

/// The coding of a heap of OCaml of 7 words.
fn coding_of(rt: &impl Abort) -> ObjectCoding
    ensures { result.count ≡ 7 }
{
    match ObjectCoding::new(Host::OCaml.layout(), 7) {
        Ok(coding) => coding,
        Err(_) => panic!(rt; "a coding"),
    }
}

/// Three objects: a pair that leads to the other two, a float at address 3, and what is said to be one of 5 words at
/// address 5.
fn words() -> [u64; 7] {
    let to = |a: u64| Host::OCaml.word_to(a);
    [2 << 10, to(3), to(5), 1 << 10 | 253, 0, 4 << 10, 0]
}

/// Marks from these roots and then from the others, and returns the address at which that stops.
fn stops_at(
    rt: &impl Abort,
    alloc: Global,
    first: &[u64],
    others: &[u64],
) -> Result<Option<u64>, Fail> {
    let words = words();
    let coding = coding_of(rt);
    let Some(heap) = CodedHeap::new(&words, &coding) else {
        holds(rt, false);
        return Ok(None);
    };
    let mut marking = Marking::new(alloc, 7)?;
    holds(rt, marking.mark(&heap, first).is_ok());
    match marking.mark(&heap, others) {
        Ok(()) => Ok(None),
        Err(unsound) => {
            holds(rt, marking.is_reached(unsound.address));
            Ok(Some(unsound.address))
        }
    }
}

#[test]
fn a_reached_object_that_ends_beyond_the_heap_stops_a_marking(rt: HostRuntime) -> Result<(), Fail> {
    let to = |a: u64| Host::OCaml.word_to(a);
    equal(&rt, stops_at(&rt, rt.alloc(), &[to(3)], &[to(7), 1])?, None);
    equal(&rt, stops_at(&rt, rt.alloc(), &[], &[to(5)])?, Some(5));
    equal(&rt, stops_at(&rt, rt.alloc(), &[to(3)], &[to(0)])?, Some(5));
    Ok(())
}

#[test]
fn a_heap_has_the_words_of_its_coding(rt: HostRuntime) {
    let words = words();
    let coding = coding_of(&rt);
    holds(&rt, CodedHeap::new(&words, &coding).is_some());
    holds(&rt, CodedHeap::new(&words[..6], &coding).is_none());
}

/// A marking of the object at address 3 of that heap.
fn float_alone(rt: &impl Abort, alloc: Global) -> Result<Marking, Fail>
    ensures { IfOk result (λ marking. marking.words ≡ 7) }
{
    let words = words();
    let coding = coding_of(rt);
    let mut marking = Marking::new(alloc, 7)?;
    let Some(heap) = CodedHeap::new(&words, &coding) else {
        holds(rt, false);
        return Ok(marking);
    };
    holds(rt, marking.mark(&heap, &[Host::OCaml.word_to(3)]).is_ok());
    Ok(marking)
}

/// The address that is refused where that object is listed by the header in these words.
fn refusal(rt: &impl Abort, alloc: Global, words: &[u64; 7]) -> Result<Option<u64>, Fail> {
    let marking = float_alone(rt, alloc)?;
    let coding = coding_of(rt);
    let Some(heap) = CodedHeap::new(words, &coding) else {
        holds(rt, false);
        return Ok(None);
    };
    match marking.live(alloc, &heap) {
        Err(ListError::TooLarge { address }) => Ok(Some(address)),
        _ => Ok(None),
    }
}

#[test]
fn a_list_refuses_an_object_of_2_to_the_32_words(rt: HostRuntime) -> Result<(), Fail> {
    let mut others = words();
    equal(&rt, refusal(&rt, rt.alloc(), &others)?, None);
    others[3] = ((1 << 32) - 2) << 10;
    equal(&rt, refusal(&rt, rt.alloc(), &others)?, None);
    others[3] = ((1 << 32) - 1) << 10;
    equal(&rt, refusal(&rt, rt.alloc(), &others)?, Some(3));
    Ok(())
}
