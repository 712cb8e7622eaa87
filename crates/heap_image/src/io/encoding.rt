//! Encodes an image as bytes in memory.
ghost use Rattle.std.specs.Prelude.{◌≡◌, IfOk};
ghost use Rattle.heap_image.specs.ImageText.{text};

use super::write::write_image;
use crate::Image;
use image_streams::{Failed, Outlet};
use std::alloc::{AllocError, Global};

/// The text of an image. The only error is that memory runs out.
pub fn encode(alloc: Global, image: &Image) -> Result<Vec<u8>, AllocError>
    ensures { IfOk result (λ bytes. bytes.items ≡ text image.now) }
{
    let mut out = Bytes {
        bytes: Vec::new(alloc),
        failed: false,
    };
    match write_image(image, &mut out) {
        Ok(()) => Ok(out.bytes),
        Err(_) => Err(AllocError),
    }
}

/// An outlet into memory, which fails if memory runs out.
#[derive(Drop)]
struct Bytes {
    bytes: Vec<u8>,
    failed: bool,
}

impl Outlet for Bytes {
    ghost use Rattle.std.specs.Prelude.{Some};

    ghost took = { λ out. Some out.bytes.items };

    ghost has_failed = { λ out. out.failed };

    fn give(&mut self, bytes: &[u8]) -> Result<usize, Failed> {
        if self.failed {
            return Err(Failed);
        }
        match self.bytes.extend_from_slice(bytes) {
            Ok(()) => Ok(bytes.len()),
            Err(_) => {
                self.failed = true;
                Err(Failed)
            }
        }
    }

    fn failed(&self) -> bool {
        self.failed
    }
}
