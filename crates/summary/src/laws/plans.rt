//! Laws of plans.
ghost use Rattle.object_heap.specs.HeapImage.{IsValid};
ghost use Rattle.summary.specs.Own.{IsOwn};

use crate::plan::Plan;
use heap_image::{Image, image_is_valid};

/// The image of a plan is valid.
#[inline]
pub fn planned_image_is_valid(plan: &Plan)
    ensures { IsValid plan.now }
{
    plan.regions();
}

/// Each image has the layout of images in files.
#[inline]
pub fn image_is_own(image: &Image)
    ensures { IsOwn image.now }
{
    image_is_valid(image);
}

/// So has the image of a plan.
#[inline]
pub fn planned_image_is_own(plan: &Plan)
    ensures { IsOwn plan.now }
{
    planned_image_is_valid(plan);
}
