//! Laws of marks. The functions do nothing: each one's contract is a law.
ghost use Rattle.object_heap.specs.HeapImage.{IsValid};

use crate::listed::Listed;
use crate::marks::Marks;

/// The image of marks is valid.
pub fn marked_image_is_valid(marks: &Marks)
    ensures { IsValid marks.now }
{
    marks.own();
}

/// What is listed is a valid image.
pub fn listed_image_is_valid(listed: &Listed<'_>)
    ensures { IsValid listed.now }
{
    listed.len();
}
