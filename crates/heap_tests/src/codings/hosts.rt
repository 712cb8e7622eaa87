//! Headers and references as OCaml and Scheme 48 write them.
ghost use Rattle.std.specs.Prelude.{◌≡◌};

use crate::checks::{equal, holds};
use object_coding::{ObjectCoding, ObjectLayout};
use std::process::Abort;

/// Where word 0 lies.
const START: u64 = 0x7f00_0000_1000;

/// The coding of a heap of 100 words.
fn coding_of(rt: &impl Abort, layout: ObjectLayout) -> ObjectCoding
    ensures { result.count ≡ 100 }
{
    match ObjectCoding::new(layout, 100) {
        Ok(coding) => coding,
        Err(_) => panic!(rt; "a coding"),
    }
}

/// The size and the number of references that a header says.
fn shape(coding: &ObjectCoding, header: u64) -> (u64, u64) {
    (coding.size(header), coding.references(header))
}

#[test]
fn ocaml_writes_such_words(rt: HostRuntime) {
    let coding = coding_of(&rt, ObjectLayout::ocaml(START));
    equal(&rt, coding.words(), 100);
    // A pair, a double, a string of two words, a value of a type with two words of tag 3, and an atom.
    equal(&rt, shape(&coding, 2 << 10), (3, 2));
    equal(&rt, shape(&coding, 1 << 10 | 253), (2, 0));
    equal(&rt, shape(&coding, 2 << 10 | 252), (3, 0));
    equal(&rt, shape(&coding, 2 << 10 | 3 << 8 | 3), (3, 2));
    equal(&rt, shape(&coding, 0), (1, 0));
    equal(&rt, coding.reference(START + 8), 1);
    equal(&rt, coding.reference(START + 8 * 100), 100);
    equal(&rt, coding.reference(START + 8 * 101), 0);
    equal(&rt, coding.reference(START), 0);
    equal(&rt, coding.reference(START + 17), 0);
    equal(&rt, coding.redirected(START + 16, 11), START + 88);
    equal(&rt, coding.redirected(17, 11), 17);
    equal(&rt, coding.filler(1), 251);
    equal(&rt, coding.filler(5), 4 << 10 | 251);
    check_soundness(&rt, &coding, 2 << 10);
}

#[test]
fn scheme_48_writes_such_words(rt: HostRuntime) {
    let coding = coding_of(&rt, ObjectLayout::scheme48(START));
    // A pair, a byte vector of 5 bytes, and a weak pointer. Headers have the tag 2 in their lowest bits.
    equal(&rt, shape(&coding, 16 << 8 | 2), (3, 2));
    equal(&rt, shape(&coding, 5 << 8 | 17 << 2 | 2), (2, 0));
    equal(&rt, shape(&coding, 8 << 8 | 13 << 2 | 2), (2, 0));
    equal(&rt, coding.reference(START + 11), 1);
    equal(&rt, coding.reference(START + 8), 0);
    equal(&rt, coding.redirected(START + 19, 1), START + 11);
    equal(&rt, coding.filler(1), 0x46);
    equal(&rt, coding.filler(3), 16 << 8 | 0x46);
    check_soundness(&rt, &coding, 16 << 8 | 2);
}

/// Checks where the header of an object of 3 words is sound.
fn check_soundness(rt: &impl Abort, coding: &ObjectCoding, header: u64) {
    holds(rt, !coding.is_unsound(header, 0));
    holds(rt, !coding.is_unsound(header, 97));
    holds(rt, coding.is_unsound(header, 98));
}
