//! Reads an image from a device: first its front, then its body, then the check of its live objects.
ghost use Rattle.heap_image.specs.Front.{Fits, bytes_of};
ghost use Rattle.heap_image.specs.ImageText.{from_tail, listed_text};
ghost use Rattle.heap_image.specs.Reading.{HasFittingNumbers, IsBodyOf, IsBodyRefusal, IsRead};
ghost use Rattle.heap_image.specs.Refusals.{IsRefusal};
ghost use Rattle.heap_image.specs.Unchecked.{numbers_in};
ghost use Rattle.image_streams.specs.Device.{is_io};
ghost use Rattle.object_heap.specs.HeapImage.{AreBlocks, IsWithinLimits};
ghost use Rattle.std.specs.Io.KnownBytes.{Consumes};
ghost use Rattle.std.specs.Prelude.{◌≡◌, ◌≢◌, ◌||◌, ℕ, List, IfOk, IfErr};

use super::front::{FRONT_BYTES, Front};
use crate::{Fault, Image, UncheckedParts};
use heap_marking::Marker;
use image_streams::{Body, Intake, fill, read_body_in_order};
use std::alloc::Global;

/// Reads an image up to the end of the input, and decides as [`decode`](crate::decode) does for these bytes. The
/// marker's threads mark and check the live objects; the result does not depend on their number.
///
/// Faults 2 to 4 come before any byte after the first 32 is requested, and faults 6 to 9 and 17 before any byte after
/// the body. Memory is allocated only once the first byte after the front has arrived. Fault 13 comes when the device
/// fails, which is not asked again. After a fault the bytes read so far are lost.
pub fn read_image<R: Intake, M: Marker>(
    alloc: Global,
    reader: &mut R,
    marker: &M,
) -> Result<Image, Fault>
    requires { M.may_start }
    ensures read { IfOk result (λ image. IsRead image (R.left reader.old) (R.left reader.new)) }
    ensures refused { IfErr result (IsRefusal (R.left reader.old) (R.left reader.new)) }
    ensures io { R.has_failed reader.new ≡ is_io result }
{
    let parts = read_parts(alloc, reader)?;
    let image = match parts.into_image(alloc, marker) {
        Ok(image) => image,
        Err(refused) => return Err(refused.fault),
    };
    if fill(reader, &mut [0; 1])? > 0 {
        return Err(Fault::Trailing);
    }
    Ok(image)
}

/// Reads the parts of an image up to the end of its body. Their sizes are within the limits.
fn read_parts<R: Intake>(alloc: Global, reader: &mut R) -> Result<UncheckedParts, Fault>
    ensures text { IfOk result (λ parts.
        Consumes (R.left reader.old) (R.left reader.new) (listed_text parts.version (numbers_in parts))) }
    ensures fits { IfOk result (λ parts. HasFittingNumbers parts.version (numbers_in parts)) }
    ensures regions { IfOk result (λ parts. AreBlocks parts.region_log parts.regions.items) }
    ensures refused { IfErr result (IsRefusal (R.left reader.old) (R.left reader.new)) }
    ensures io { R.has_failed reader.new ≡ is_io result }
{
    let front = read_front(reader)?;
    let Body { regions, tail } = read_body(alloc, reader, front)?;
    Ok(UncheckedParts {
        version: front.version,
        region_log: front.region_log,
        allowance: front.allowance,
        regions,
        tail,
    })
}

/// Reads the first 32 bytes, and no byte after them.
fn read_front<R: Intake>(reader: &mut R) -> Result<Front, Fault>
    ensures bytes { IfOk result (λ parsed. Consumes (R.left reader.old) (R.left reader.new) (bytes_of parsed)) }
    ensures fits { IfOk result Fits }
    ensures refused { IfErr result (IsRefusal (R.left reader.old) (R.left reader.new)) }
    ensures memory { IfErr result (λ fault. fault ≢ Fault.Memory) }
    ensures failed { R.has_failed reader.new ≡ is_io result }
{
    let mut bytes = [0; FRONT_BYTES];
    if fill(reader, &mut bytes)? < FRONT_BYTES {
        return Err(Fault::TruncatedHeader);
    }
    Front::parse(&bytes)
}

/// Reads the body that follows this front, and no byte after it: at once if the device can do that, and otherwise in
/// order.
fn read_body<R: Intake>(alloc: Global, reader: &mut R, front: Front) -> Result<Body, Fault>
    requires { IsWithinLimits front.region_log front.words front.count }
    ensures body { IfOk result (IsBodyOf front (R.left reader.old) (R.left reader.new)) }
    ensures refused { IfErr result (IsBodyRefusal front (R.left reader.old) (R.left reader.new)) }
    ensures lost { (came : List ℕ) × Consumes (R.left reader.old) (R.left reader.new) came }
    ensures failed { R.has_failed reader.new ≡ (is_io result || R.has_failed reader.old) }
{
    let size = front.body_size();
    match reader.take_body(alloc, size) {
        Some(body) => Ok(body),
        None => read_body_in_order(alloc, reader, size),
    }
}
