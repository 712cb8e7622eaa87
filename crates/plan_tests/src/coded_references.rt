//! Tests of `coded_redirection`, in a heap of OCaml's layout and regions of 8 words, of which everything slides.
use crate::checks::holds_at;
use coded_redirection::redirect_objects;
use heap_image::{Alone, Fault};
use mark_bitmap::{OpaqueHeap, OpaqueObjects};
use object_coding::{ObjectCoding, ObjectLayout};
use std::alloc::Global;
use std::process::Abort;
use std::test::Fail;
use summary::Survey;

/// The number of words.
const WORDS: usize = 17;

/// The machine address of the first word.
const START: u64 = 0x7f00_0000_1000;

/// What takes the place of a reference to a dead word.
const DEAD: u64 = 1;

/// Where the planned objects lie.
const LIVE: [u64; 3] = [2, 8, 12];

/// The word that leads to address `a`.
fn to(a: u64) -> u64 {
    START.wrapping_add(8).wrapping_add(a.wrapping_mul(8))
}

/// Objects of 4, 3 and 5 words, of which the second has no references. Words between them and of data look like references, too.
fn words() -> [u64; WORDS] {
    let mut words = [to(8); WORDS];
    words[2] = 3 << 10;
    words[4] = 7;
    words[5] = to(0);
    words[8] = 2 << 10 | 252;
    words[12] = 4 << 10;
    words[13] = to(2);
    words[14] = to(9);
    words[15] = to(17);
    words[16] = to(12);
    words
}

/// What the word at an address becomes, if it is redirected. That at 15 leads behind the heap, and stays.
fn becomes(a: usize, word: u64) -> u64 {
    match a {
        3 => to(4),
        5 => DEAD,
        13 => to(0),
        14 => to(5),
        16 => to(7),
        _ => word,
    }
}

/// The size of the last object by the plan, the addresses of the first word that is handed over and of the one behind the last, and
/// of those that change.
type Row = (u32, usize, usize, &'static [usize]);

const ROWS: [Row; 9] = [
    (5, 0, 17, &[3, 5, 13, 14, 16]),
    (5, 0, 8, &[3, 5]),
    (5, 8, 17, &[13, 14, 16]),
    (5, 0, 15, &[3, 5, 13, 14]),
    (5, 3, 17, &[13, 14, 16]),
    (5, 12, 13, &[]),
    (5, 13, 17, &[]),
    (5, 2, 2, &[]),
    (3, 0, 17, &[3, 5, 13, 14]),
];

/// What is known of the objects, of which the last has this size.
fn survey(alloc: Global, last: u32) -> Result<Survey, Fault> {
    let heap = OpaqueHeap {
        region_log: 3,
        allowance: 0,
        words: WORDS as u64,
    };
    let sizes = [4, 3, last];
    let objects = OpaqueObjects::new(heap, &LIVE, &sizes)?;
    Survey::of_objects(alloc, &objects, &Alone)
}

fn coding(rt: &impl Abort) -> ObjectCoding {
    match ObjectCoding::new(ObjectLayout::ocaml(START), WORDS as u64) {
        Ok(coding) => coding,
        Err(_) => panic!(rt; "a coding"),
    }
}

/// The words once those at these addresses are redirected.
fn wanted(changed: &[usize]) -> [u64; WORDS] {
    let mut wanted = words();
    for a in 0..WORDS {
        if changed.contains(&a) {
            wanted[a] = becomes(a, wanted[a]);
        }
    }
    wanted
}

/// Whether the words of a row change as it says, and no others do.
fn redirects(rt: &impl Abort, alloc: Global, row: &Row) -> Result<bool, Fault> {
    let (last, first, end, changed) = *row;
    let survey = survey(alloc, last)?;
    let mut found = words();
    let Some(part) = found.get_mut(first..end) else {
        return Ok(false);
    };
    redirect_objects(&survey, &coding(rt), DEAD, first as u64, part);
    Ok(found == wanted(changed))
}

#[test]
fn references_of_planned_objects_follow(rt: HostRuntime) -> Result<(), Fail> {
    for (row, heap) in ROWS.iter().enumerate() {
        holds_at(&rt, redirects(&rt, rt.alloc(), heap)?, row);
    }
    Ok(())
}
