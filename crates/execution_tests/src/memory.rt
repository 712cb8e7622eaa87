//! Making cells while allocations fail.
ghost use Rattle.std.specs.Prelude.{◌≡◌};

use crate::checks::holds;
use crate::setups::plan_of;
use heap_image::{Fault, Image, all_processors, decode, encode};
use heap_samples::Base;
use region_cells::Cells;
use std::alloc::Global;
use std::thread::Threads;
use summary::Plan;

/// Makes the cells of the base heap. Returns `Ok(true)` if they are made, `Err(Memory)` if an allocation fails and the
/// unchanged image comes back, and `Ok(false)` if it comes back changed.
fn are_made(alloc: Global, base: Base, threads: &(impl Threads + Sync)) -> Result<bool, Fault> {
    let text = base.text(alloc, 0)?;
    are_made_of_text(alloc, text.as_slice(), threads)
}

/// The same for the image with this text.
fn are_made_of_text(
    alloc: Global,
    text: &[u8],
    threads: &(impl Threads + Sync),
) -> Result<bool, Fault> {
    let image = decode(alloc, text, &all_processors(threads))?;
    let plan = plan_of(alloc, &image, threads)?;
    match image_back(alloc, image, &plan) {
        None => Ok(true),
        Some(back) => check_image_back(alloc, &back, text),
    }
}

/// The image that comes back if the cells are not made.
fn image_back(alloc: Global, image: Image, plan: &Plan) -> Option<Image>
    requires { plan.now ≡ image }
{
    Cells::of(alloc, image, plan).err()
}

/// Returns `Err(Memory)` if the image has this text, and else `Ok(false)`.
fn check_image_back(alloc: Global, back: &Image, text: &[u8]) -> Result<bool, Fault> {
    if encode(alloc, back)?.as_slice() == text {
        Err(Fault::Memory)
    } else {
        Ok(false)
    }
}

/// The script tests/build/test_crate_allocations.sh runs this with each allocation refused in turn.
#[test]
fn refused_memory_is_reported(rt: HostRuntime) {
    let answers = [
        are_made(rt.alloc(), Base::WithLiveList, &rt),
        are_made(rt.alloc(), Base::WithRoots, &rt),
    ];
    for answer in &answers {
        holds(&rt, *answer == Ok(true) || *answer == Err(Fault::Memory));
    }
    holds(&rt, answers.contains(&Ok(true)));
}
