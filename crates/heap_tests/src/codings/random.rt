//! Layouts at random, whose numbers fit each other.
ghost use Rattle.std.specs.Prelude.{◌<◌, ◌≤◌};

use crate::checks::{holds, holds_at};
use crate::codings::slow::SlowCoding;
use object_coding::{ObjectCoding, ObjectLayout};
use std::process::Abort;

/// Pseudo-random numbers.
#[derive(Drop)]
struct Numbers {
    state: u64,
}

impl Numbers {
    fn next(&mut self) -> u64 {
        self.state = self.state.wrapping_add(0x9E37_79B9_7F4A_7C15);
        let mixed = (self.state ^ self.state >> 30).wrapping_mul(0xBF58_476D_1CE4_E5B9);
        mixed ^ mixed >> 27
    }

    fn below(&mut self, bound: u64) -> u64
        requires { 0 < bound }
        ensures { result < bound }
    {
        self.next() % bound
    }
}

/// A layout whose addresses end at most at 2^64.
fn layout_at_random(numbers: &mut Numbers) -> ObjectLayout {
    let size_unit = numbers.below(4);
    let size_bits = 35 + numbers.below(20);
    let size_shift = numbers.below(65 - size_bits);
    let size_mask = ((1u64 << size_bits) - 1) << size_shift;
    let filler_less = numbers.below((1u64 << size_unit) + 1);
    let mut modes = [0; 256];
    for mode in &mut modes {
        *mode = numbers.below(3) as u8;
    }
    ObjectLayout {
        size_shift: size_shift as u8,
        size_bits: size_bits as u8,
        size_unit: size_unit as u8,
        type_shift: numbers.below(57) as u8,
        type_bits: numbers.below(9) as u8,
        first_shift: numbers.below(50) as u8,
        first_bits: numbers.below(15) as u8,
        unit: numbers.below(7) as u8,
        size_more: filler_less + numbers.below(1u64 << size_unit),
        base: numbers.next() >> numbers.below(64) & !(1 << 63),
        filler_tag: numbers.next() & !size_mask,
        filler_less,
        modes,
    }
}

/// A word that leads to an address of a small heap, or lies close to such a word.
fn word_near(numbers: &mut Numbers, layout: &ObjectLayout) -> u64 {
    let steps = numbers.below(60).wrapping_sub(10);
    let distance = steps.wrapping_mul(1 << (layout.unit % 64));
    let off = match numbers.below(3) {
        0 => numbers.below(9),
        _ => 0,
    };
    layout.base.wrapping_add(distance).wrapping_add(off)
}

/// Whether each call answers the same by both for some words.
fn agree(slow: &SlowCoding, coding: &ObjectCoding, numbers: &mut Numbers) -> bool {
    let header = numbers.next() >> numbers.below(64);
    let word = word_near(numbers, &slow.layout);
    let reference = numbers.below(coding.words() + 1);
    let a = numbers.below(coding.words() + 1);
    let small = slow.layout.filler_tag | numbers.below(64) << (slow.layout.size_shift % 64);
    slow.reads(coding, header)
        && slow.reads(coding, numbers.next())
        && slow.leads(coding, word)
        && slow.redirects(coding, word, reference)
        && slow.judges(coding, header, a)
        && slow.judges(coding, small, a)
        && slow.fills(coding, 1 + numbers.below(2_147_483_648))
}

/// Checks each call for some words of a heap with this layout and number of words.
fn check(rt: &impl Abort, layout: ObjectLayout, words: u64, numbers: &mut Numbers)
    requires { words ≤ 68719476736 }
{
    let Ok(coding) = ObjectCoding::new(layout, words) else {
        return holds(rt, false);
    };
    let slow = SlowCoding { layout, words };
    for turn in 0..50 {
        holds_at(rt, agree(&slow, &coding, numbers), turn);
    }
}

#[test]
fn layouts_at_random_say_what_the_slow_program_says(rt: HostRuntime) {
    let mut numbers = Numbers { state: 7 };
    for _ in 0..100 {
        let layout = layout_at_random(&mut numbers);
        let words = numbers.below(50);
        check(&rt, layout, words, &mut numbers);
    }
}

#[test]
fn hosts_say_what_the_slow_program_says(rt: HostRuntime) {
    let mut numbers = Numbers { state: 11 };
    check(&rt, ObjectLayout::ocaml(4096), 40, &mut numbers);
    check(&rt, ObjectLayout::scheme48(1 << 40), 40, &mut numbers);
}
