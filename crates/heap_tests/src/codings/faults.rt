//! Each fault of a layout.
use crate::checks::equal;
use object_coding::{LayoutFault, ObjectCoding, ObjectLayout};

/// What is wrong with a layout for a heap of 100 words, if anything is.
fn fault_of(layout: ObjectLayout) -> Option<LayoutFault> {
    ObjectCoding::new(layout, 100).err()
}

#[test]
fn each_fault_is_told(rt: HostRuntime) {
    let good = ObjectLayout::ocaml(4096);
    let mut modes = good.modes;
    modes[255] = 3;
    let cases = [
        (good, None),
        (
            ObjectLayout {
                size_shift: 11,
                ..good
            },
            Some(LayoutFault::SizeField),
        ),
        (
            ObjectLayout {
                size_unit: 23,
                ..good
            },
            Some(LayoutFault::NarrowSize),
        ),
        (
            ObjectLayout {
                type_bits: 9,
                ..good
            },
            Some(LayoutFault::TypeField),
        ),
        (
            ObjectLayout {
                first_shift: 64,
                ..good
            },
            Some(LayoutFault::FirstField),
        ),
        (ObjectLayout { modes, ..good }, Some(LayoutFault::Mode)),
        (
            ObjectLayout {
                base: u64::MAX - 798,
                ..good
            },
            Some(LayoutFault::Addresses),
        ),
        (
            ObjectLayout {
                filler_tag: 1 << 10,
                ..good
            },
            Some(LayoutFault::FillerTag),
        ),
        (
            ObjectLayout {
                filler_less: 2,
                ..good
            },
            Some(LayoutFault::FillerSize),
        ),
    ];
    for (layout, fault) in cases {
        equal(&rt, fault_of(layout), fault);
    }
}

#[test]
fn addresses_may_end_at_the_last(rt: HostRuntime) {
    let layout = ObjectLayout {
        base: u64::MAX - 799,
        ..ObjectLayout::ocaml(4096)
    };
    equal(&rt, fault_of(layout), None);
}

#[test]
fn the_first_fault_is_told(rt: HostRuntime) {
    let good = ObjectLayout::scheme48(4096);
    let layout = ObjectLayout {
        size_bits: 64,
        unit: 64,
        ..good
    };
    equal(&rt, fault_of(layout), Some(LayoutFault::SizeField));
}
