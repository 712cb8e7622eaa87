//! Tests of invalid images that several threads check.
use super::texts::regions_of;
use crate::answers::expect_fault;
use crate::checks::equal;
use heap_image::{Fault, all_processors, decode, header};
use heap_samples::image_text;
use std::alloc::{AllocError, Global};
use std::test::Fail;

/// The header of an object of two words, of which the second is a reference.
const PAIR: u64 = 0x0100_0001_0000_0002;

/// The text of a heap of 4,096 such objects, each with a reference to itself, with one number replaced. Numbers count
/// through the 8,192 words and then the live addresses. There are enough objects for several threads.
fn pairs_but(alloc: Global, at: u64, number: u64) -> Result<Vec<u8>, AllocError> {
    let own_word = |a: u64| if a % 2 == 0 { PAIR } else { a };
    let word = |a: u64| if a == at { number } else { own_word(a) };
    let words = Vec::from_iter(alloc, (0..8192u64).map(word))?;
    let live = Vec::from_iter(
        alloc,
        (0..4096u64).map(|i| if 8192 + i == at { number } else { 2 * i }),
    )?;
    image_text(alloc, regions_of(3), words.as_slice(), live.as_slice())
}

#[test]
fn many_objects_are_checked_by_several_threads(rt: HostRuntime) -> Result<(), Fail> {
    let sound = pairs_but(rt.alloc(), 6000, PAIR)?;
    let image = decode(rt.alloc(), sound.as_slice(), &all_processors(&rt))?;
    equal(&rt, image.live().len(), 4096);
    let changes = [
        (6000, header::filler(2), Fault::Header(6000)),
        (6000, PAIR + 1, Fault::Overlap(6002)),
        (6001, 6000, Fault::Reference(6000, 0)),
        (8191, u64::MAX, Fault::Reference(8190, 0)),
        (8192 + 3000, 5998, Fault::LiveOrder(3000)),
    ];
    for (at, number, fault) in changes {
        let text = pairs_but(rt.alloc(), at, number)?;
        let found = expect_fault(
            &rt,
            decode(rt.alloc(), text.as_slice(), &all_processors(&rt)),
        );
        equal(&rt, found, fault);
    }
    Ok(())
}
