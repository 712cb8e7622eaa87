//! Builders of images and plans for the tests.
ghost use Rattle.std.specs.Prelude.{◌≡◌, IfOk};

use heap_image::{Fault, Image};
use heap_samples::{Object, Settings, plain_words};
use mark_bitmap::Marks;
use std::alloc::Global;
use std::test::Fail;
use std::thread::Threads;
use summary::Plan;
use thread_row::Many;

/// The objects of the base heap: 32 words in regions of 8.
pub const BASE: [Object; 4] = [(0, 3), (5, 4), (12, 2), (20, 10)];

/// The region log, the number of words and the allowance of the base heap.
pub const BASE_SIZES: Sizes = (3, 32, 0);

/// The region log, the number of words and the allowance of a heap.
pub type Sizes = (u64, u64, u64);

/// The image of a heap whose objects have no references and only zeros after their headers.
pub fn image_of<T: Threads + Sync>(
    threads: &T,
    alloc: Global,
    (region_log, len, allowance): Sizes,
    objects: &[Object],
) -> Result<Image, Fail> {
    let settings = Settings {
        region_log,
        allowance,
    };
    let words = plain_words(alloc, len, objects)?;
    let live = Vec::from_iter(alloc, objects.iter().map(|object| object.0))?;
    heap_samples::image_of(alloc, settings, words.as_slice(), live.as_slice(), threads)
}

/// The plan of an image.
pub fn image_plan<T: Threads + Sync>(
    threads: &T,
    alloc: Global,
    image: &Image,
) -> Result<Plan, Fault>
    ensures { IfOk result (λ plan. plan ≡ image.now) }
{
    let many = Many { threads, most: 2 };
    let marks = Marks::of(alloc, image, &many)?;
    Plan::of(alloc, image, &marks, &many)
}

/// The plan of such a heap.
pub fn plan_of<T: Threads + Sync>(
    threads: &T,
    alloc: Global,
    sizes: Sizes,
    objects: &[Object],
) -> Result<Plan, Fail> {
    let image = image_of(threads, alloc, sizes, objects)?;
    Ok(image_plan(threads, alloc, &image)?)
}
