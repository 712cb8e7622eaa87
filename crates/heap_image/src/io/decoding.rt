//! Decodes an image from bytes in memory.
ghost use Rattle.std.specs.Prelude.{◌≡◌, ◌≢◌, ◌≤◌, ◌+◌, ◌*◌, length, IfErr};
ghost use Rattle.heap_image.specs.Checks.{Reports};
ghost use Rattle.heap_image.specs.Decoding.{Decodes};
ghost use Rattle.heap_image.specs.ImageText.{first_some, layout_faults};

use super::front::{FRONT_BYTES, Front};
use super::read::read_image;
use crate::{Fault, Image};
use heap_marking::Marker;
use image_streams::{Failed, Intake};
use std::alloc::Global;

/// Decodes the text of an image, or returns the first fault of the bytes: 1 to 10 or 17, or 11 if memory runs out. For
/// faults 1 to 5 no memory is allocated. The marker's threads mark and check the live objects; the result does not
/// depend on their number.
pub fn decode<M: Marker>(alloc: Global, bytes: &[u8], marker: &M) -> Result<Image, Fault>
    requires { M.may_start }
    ensures { Decodes bytes.now result }
{
    layout_fault(bytes)?;
    read_image(alloc, &mut Bytes(bytes), marker)
}

/// The first of the faults 1 to 5 that these bytes have, if any.
fn layout_fault(bytes: &[u8]) -> Result<(), Fault>
    ensures first { Reports result (first_some (layout_faults bytes.now)) }
    ensures memory { IfErr result (λ fault. fault ≢ Fault.Memory) }
{
    if bytes.len() < FRONT_BYTES {
        return Err(Fault::TruncatedHeader);
    }
    let front = Front::parse(&bytes[..FRONT_BYTES])?;
    if bytes.len() < front.text_len() {
        return Err(Fault::TruncatedBody);
    }
    Ok(())
}

/// An intake from memory, which never fails.
#[derive(Drop)]
struct Bytes<'a>(&'a [u8]);

impl Intake for Bytes<'_> {
    ghost use Rattle.std.specs.Prelude.{Some, false};

    ghost left = { λ bytes. Some bytes.0.now };

    ghost has_failed = { λ _. false };

    fn take(&mut self, buffer: &mut [u8]) -> Result<usize, Failed> {
        let n = self.0.len().min(buffer.len());
        let (taken, rest) = self.0.split_at(n);
        buffer[..n].copy_from_slice(taken);
        self.0 = rest;
        Ok(n)
    }

    fn failed(&self) -> bool {
        false
    }
}
