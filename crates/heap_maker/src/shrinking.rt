//! Makes a heap smaller, a step at a time.
ghost use Rattle.std.specs.Prelude.{◌≡◌, IfOk, IfSome};
ghost use Rattle.heap_maker.specs.Shrinking.{IsSmallerFrom};
ghost use Rattle.heap_maker.specs.HeapSize.{size_of_heap};

mod cut;
mod part;
mod remainder;
mod step;
mod units;

use crate::heap_size::HeapSize;
use crate::shrinking::remainder::image_without;
use crate::shrinking::step::Step;
use crate::shrinking::units::Units;
use heap_image::Image;
use std::alloc::{AllocError, Global};

/// A heap that was made smaller.
#[derive(Drop)]
pub struct Smaller {
    /// The step that made it.
    pub step: u64,
    /// The image.
    pub image: Image,
    /// Its counts.
    pub size: HeapSize,
}

/// The heap that the first step from number `from` on makes of this one. None if no step makes a smaller one.
///
/// Each step leaves out a part of the heap: roots, live objects, dead words, whole regions, words of objects or
/// references, which become null; or it has a smaller region log or allowance. The first steps leave out all of a kind,
/// later ones halves, and the last ones single words or objects. What a step leaves out depends on the heap and the
/// number alone. Refused memory is the only error.
pub fn next_smaller(alloc: Global, image: &Image, from: u64) -> Result<Option<Smaller>, AllocError>
    ensures { IfOk result (λ found. IfSome found (IsSmallerFrom image.now from)) }
{
    let units = Units::of(alloc, image)?;
    let size = HeapSize::of(image);
    for number in from..u64::MAX {
        let step = Step::numbered(number);
        if units.are_done_before(step) {
            break;
        }
        if let Some(smaller) = smaller_by(alloc, &units, size, step)? {
            return Ok(Some(smaller));
        }
    }
    Ok(None)
}

/// The heap that this step makes of one of this size, if it is smaller.
fn smaller_by(
    alloc: Global,
    units: &Units<'_>,
    size: HeapSize,
    step: Step,
) -> Result<Option<Smaller>, AllocError>
    requires { size ≡ size_of_heap units.now.image.now }
    ensures { IfOk result (λ found. IfSome found (IsSmallerFrom units.now.image.now step.number)) }
{
    let Some(cut) = units.cut(step) else {
        return Ok(None);
    };
    let Some(image) = image_without(alloc, units.image(), cut)? else {
        return Ok(None);
    };
    let smaller = HeapSize::of(&image);
    if smaller.is_below(size) {
        Ok(Some(Smaller {
            step: step.number,
            image,
            size: smaller,
        }))
    } else {
        Ok(None)
    }
}
