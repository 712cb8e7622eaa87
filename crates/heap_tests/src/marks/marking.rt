//! Marking by several threads finds the objects that one thread finds.
use crate::answers::are_right;
use crate::checks::{equal, equal_words, holds, holds_at};
use crate::images::roots::object;
use crate::images::texts::regions_of;
use heap_image::{Alone, Fault, FromRead, Many, decode, mark_from_roots, read_image};
use heap_samples::{BASE_LIVE, BASE_ROOTS, Base, rooted_text};
use std::alloc::{AllocError, Global};
use std::test::Fail;
use std::thread::Threads;

/// The number of words of an object: its header, three references, and four words of data.
const SIZE: u64 = 8;

/// The number of objects of a large heap. It has 2^20 words, which are four parts.
const OBJECTS: u64 = 1 << 17;

/// The shape of a graph of objects.
#[derive(Clone, Copy)]
enum Shape {
    /// Each object refers to three others at random.
    Random,
    /// Each object refers to the next ones of a binary tree.
    Tree,
    /// Each object refers to the next one.
    List,
    /// Each object refers to one that lies far away, so that the list leads from part to part.
    HoppingList,
    /// As `Random`, but one object has a reference out of the heap.
    Dangling,
    /// As `Random`, but one object has no sound header.
    Unsound,
    /// As `List`, but one object is a word too large, the last of 64 that one thread checks.
    Overlapping,
}

const SHAPES: [Shape; 6] = [
    Shape::Random,
    Shape::Tree,
    Shape::List,
    Shape::HoppingList,
    Shape::Dangling,
    Shape::Unsound,
];

/// A pseudo-random number of an object.
fn mixed(number: u64) -> u64 {
    let mixed = number.wrapping_mul(0x9E37_79B9_7F4A_7C15);
    (mixed ^ mixed >> 29).wrapping_mul(0xBF58_476D_1CE4_E5B9) >> 47
}

/// The reference to the object with this number, or null if there is none.
const fn reference_to(number: u64) -> u64 {
    if number < OBJECTS {
        number * SIZE + 1
    } else {
        0
    }
}

impl Shape {
    /// The header of the object with this number.
    fn header(self, number: u64) -> u64 {
        match self {
            Shape::Unsound if number == OBJECTS / 2 => 7,
            Shape::Overlapping if number == OBJECTS / 2 - 1 => object(SIZE + 1, 3),
            _ => object(SIZE, 3),
        }
    }

    /// The reference in this field, from 0 to 2, of the object with this number.
    fn reference(self, number: u64, field: u64) -> u64 {
        match (self, field) {
            (Shape::Dangling, 0) if number == OBJECTS / 2 => OBJECTS * SIZE + 9,
            (Shape::Unsound, 0) if number == OBJECTS / 4 => reference_to(OBJECTS / 2),
            (Shape::Dangling, 1) if number == OBJECTS / 4 => reference_to(OBJECTS / 2),
            (Shape::Random | Shape::Dangling | Shape::Unsound, _) => {
                reference_to(mixed(number.wrapping_mul(3).wrapping_add(field)) % OBJECTS)
            }
            (Shape::Tree, 0 | 1) => {
                reference_to(number.wrapping_mul(2).wrapping_add(1).wrapping_add(field))
            }
            (Shape::List | Shape::Overlapping, 0) => reference_to(number.wrapping_add(1)),
            (Shape::HoppingList, 0) => {
                reference_to(number.wrapping_add(OBJECTS / 2).wrapping_add(3) % OBJECTS)
            }
            _ => 0,
        }
    }

    /// The text of a heap of this shape with three roots.
    fn text(self, alloc: Global) -> Result<Vec<u8>, AllocError> {
        let mut words = Vec::new(alloc);
        for number in 0..OBJECTS {
            words.push(self.header(number))?;
            for field in 0..3 {
                words.push(self.reference(number, field))?;
            }
            for data in 4..SIZE {
                words.push(data)?;
            }
        }
        let roots = [1, 0, reference_to(OBJECTS / 4)];
        rooted_text(alloc, regions_of(16), words.as_slice(), &roots)
    }
}

/// The live objects of a text, found by this number of workers, or its fault.
fn live_by(
    rt: &(impl Threads + Sync),
    alloc: Global,
    text: &[u8],
    workers: usize,
) -> Result<Result<Vec<u64>, Fault>, AllocError> {
    match read_image(
        alloc,
        &mut FromRead::new(text),
        &Many {
            threads: rt,
            most: workers,
        },
    ) {
        Ok(image) => Ok(Ok(Vec::from_iter(alloc, image.live().iter().copied())?)),
        Err(fault) => Ok(Err(fault)),
    }
}

/// Whether this number of workers finds the same objects, or the same fault, as `decode`.
fn agrees(
    rt: &(impl Threads + Sync),
    alloc: Global,
    text: &[u8],
    workers: usize,
) -> Result<bool, AllocError> {
    let found = live_by(rt, alloc, text, workers)?;
    Ok(match (decode(alloc, text, &Alone), found) {
        (Ok(image), Ok(live)) => image.live() == live.as_slice(),
        (Err(fault), Err(found)) => fault == found,
        _ => false,
    })
}

#[test]
fn several_threads_mark_what_one_marks(rt: HostRuntime) -> Result<(), Fail> {
    for (row, shape) in SHAPES.iter().enumerate() {
        let text = shape.text(rt.alloc())?;
        for workers in [1, 2, 3, 8] {
            holds_at(
                &rt,
                agrees(&rt, rt.alloc(), text.as_slice(), workers)?,
                10 * row + workers,
            );
        }
    }
    Ok(())
}

#[test]
fn several_threads_find_an_overlap(rt: HostRuntime) -> Result<(), Fail> {
    let text = Shape::Overlapping.text(rt.alloc())?;
    for workers in [1, 4] {
        holds_at(
            &rt,
            agrees(&rt, rt.alloc(), text.as_slice(), workers)?,
            workers,
        );
    }
    Ok(())
}

/// Whether two workers find all objects of a list that leads through all parts.
fn list_comes_through(rt: &(impl Threads + Sync), alloc: Global) -> Result<bool, Fault> {
    let text = Shape::List.text(alloc)?;
    let image = read_image(
        alloc,
        &mut FromRead::new(text.as_slice()),
        &Many {
            threads: rt,
            most: 2,
        },
    )?;
    let objects = (0..OBJECTS).map(|number| number * SIZE);
    Ok(image.live().iter().copied().eq(objects))
}

/// A script runs this with each allocation refused in turn.
#[test]
fn refused_memory_is_reported(rt: HostRuntime) {
    let answers = [
        list_comes_through(&rt, rt.alloc()),
        list_comes_through(&rt, rt.alloc()),
    ];
    holds(&rt, are_right(&answers));
}

/// Marks the base heap by two workers, from at most as many roots as it has live objects.
fn mark_base(rt: &(impl Threads + Sync), alloc: Global, roots: &[u64]) -> Result<Vec<u64>, Fault> {
    let text = Base::WithLiveList.text(alloc, 0)?;
    let parts = decode(alloc, text.as_slice(), &Alone)?.into_parts();
    if roots.len() <= parts.live.len() {
        let (log, regions) = (parts.region_log, parts.regions.as_slice());
        mark_from_roots(
            alloc,
            log,
            regions,
            roots,
            &Many {
                threads: rt,
                most: 2,
            },
        )
    } else {
        Err(Fault::Length)
    }
}

#[test]
fn workers_mark_a_small_heap(rt: HostRuntime) -> Result<(), Fail> {
    let live = mark_base(&rt, rt.alloc(), &BASE_ROOTS)?;
    equal_words(&rt, live.as_slice(), &BASE_LIVE);
    let found = mark_base(&rt, rt.alloc(), &[4, 33]).err();
    equal(&rt, found, Some(Fault::Root(1)));
    Ok(())
}
