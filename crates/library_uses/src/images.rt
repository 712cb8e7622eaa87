//! A copy of an image, by its text.
ghost use Rattle.std.specs.Prelude.{◌≡◌, IfOk};

use heap_image::{Alone, Fault, Image, decode, encode, image_is_valid, one_text};
use std::alloc::Global;

/// Copies an image.
pub fn copy_image(alloc: Global, image: &Image) -> Result<Image, Fault>
    ensures { IfOk result (λ copy. copy ≡ image.now) }
{
    image_is_valid(image);
    one_text();
    let bytes = encode(alloc, image)?;
    decode(alloc, bytes.as_slice(), &Alone)
}
