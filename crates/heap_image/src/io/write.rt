//! Writes the text of an image to a device.
ghost use Rattle.std.specs.Prelude.{◌≡◌, ◌≢◌, ◌⊎◌, ◌≤◌, IfErr, IfOk, OnOk, OnErr, IsTrue, Err, length, false};
ghost use Rattle.std.specs.Io.KnownBytes.{Appends};
ghost use Rattle.image_streams.specs.Device.{is_io};
ghost use Rattle.heap_image.specs.ImageText.{text};
ghost use Rattle.image_streams.specs.Outgoing.{TakesBeginning};

use super::front::Front;
use crate::{Fault, Image};
use image_streams::{Outgoing, Outlet, give_all, pieces_sent};
use std::alloc::{AllocError, Global};

/// The most numbers that [`write_image`] gives at a time.
const PLAIN_NUMBERS: usize = 2048;

/// The most numbers that [`write_image_buffered`] gives at a time.
const BUFFERED_NUMBERS: usize = 32_768;

/// Writes the text of an image in pieces of at most 16 KiB, and allocates no memory. Fault 13 comes when the device
/// fails: it has then taken a prefix of the text, and is not called again.
pub fn write_image<W: Outlet>(image: &Image, writer: &mut W) -> Result<(), Fault>
    ensures text { OnOk result (Appends (W.took writer.old) (W.took writer.new) (text image.now)) }
    ensures beginning { OnErr result
        (TakesBeginning (W.took writer.old) (W.took writer.new) (text image.now)) }
    ensures fault { IfErr result (λ fault. fault ≡ Fault.Io) }
    ensures io { W.has_failed writer.new ≡ is_io result }
{
    write_through(image, writer, &mut [0; 8 * PLAIN_NUMBERS])
}

/// Like [`write_image`], but in pieces of up to 256 KiB. The memory for them is allocated first: fault 11 comes if it
/// runs out, and then nothing is written.
pub fn write_image_buffered<W: Outlet>(
    alloc: Global,
    image: &Image,
    writer: &mut W,
) -> Result<(), Fault>
    ensures text { OnOk result (Appends (W.took writer.old) (W.took writer.new) (text image.now)) }
    ensures beginning { OnErr result
        (TakesBeginning (W.took writer.old) (W.took writer.new) (text image.now)) }
    ensures fault { IfErr result (λ fault. (fault ≡ Fault.Io) ⊎ (fault ≡ Fault.Memory)) }
    ensures nothing_yet { IfErr result (λ fault. fault ≢ Fault.Io → writer.new ≡ writer.old) }
    ensures device { result ≡ Err Fault.Io → IsTrue (W.has_failed writer.new) }
    ensures works { OnOk result (W.has_failed writer.new ≡ false) }
{
    let mut room = room_for(alloc, image)?;
    write_through(image, writer, room.as_mut_slice())
}

/// A buffer for at most [`BUFFERED_NUMBERS`] numbers, and for no more than the image has words.
fn room_for(alloc: Global, image: &Image) -> Result<Vec<u8>, AllocError>
    ensures { IfOk result (λ room. 8 ≤ length room.items) }
{
    let numbers = (image.len() as usize).clamp(1, BUFFERED_NUMBERS);
    vec![in alloc; 0u8; 8 * numbers]
}

/// Writes the text of an image. All of it but the front goes through the buffer `room`.
fn write_through<W: Outlet>(image: &Image, writer: &mut W, room: &mut [u8]) -> Result<(), Fault>
    requires { 8 ≤ length room.old }
    ensures text { OnOk result (Appends (W.took writer.old) (W.took writer.new) (text image.now)) }
    ensures beginning { OnErr result
        (TakesBeginning (W.took writer.old) (W.took writer.new) (text image.now)) }
    ensures fault { IfErr result (λ fault. fault ≡ Fault.Io) }
    ensures io { W.has_failed writer.new ≡ is_io result }
{
    let front = Front {
        version: image.version(),
        region_log: image.region_log(),
        count: image.tail().len() as u32,
        words: image.len(),
        allowance: image.allowance(),
    };
    pieces_sent();
    give_all(writer, &front.to_bytes())?;
    let mut outgoing = Outgoing::new(room);
    for r in 0..image.regions() {
        outgoing.write_region(writer, image.region(r))?;
    }
    outgoing.write(writer, image.tail())?;
    outgoing.flush(writer)?;
    Ok(())
}
