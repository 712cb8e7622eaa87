//! Makes the image of a text.
ghost use Rattle.std.specs.Prelude.{◌≡◌, ◌⊎◌, ◌≤◌, IfOk, IfErr, IfSome, IsTrue, OnOk, Ok, Err, Some, length};
ghost use Rattle.std.specs.Io.KnownBytes.{IsAtEnd};
ghost use Rattle.object_heap.specs.HeapImage.{HeapImage, IsValid};
ghost use Rattle.heap_text.specs.ImageBytes.{Gives};
ghost use Rattle.heap_text.specs.Parsing.{AcceptsText, HasContents};
ghost use Rattle.heap_text.specs.Text.{text_of};
ghost use Rattle.heap_text.specs.TextLines.{IsAbout, IsLineOf, IsWithin};

use crate::error::{AssembleError, TextError};
use crate::expected::Expected;
use crate::image_bytes::ImageBytes;
use crate::lines::line_of_address;
use crate::parsed_heap::{ParsedHeap, numbers_after_words};
use crate::reading::{parse_from, parse_text};
use crate::spelling::{check_spelling, common_prefix};
use heap_image::{Alone, Fault, Image, Intake, read_image, text_is_read_back, text_tells_its_size};
use std::alloc::Global;

/// Returns the image whose text this is, or the first line that differs from what is expected.
///
/// The image is written as a text again and compared with the input, so only the exact text of an image is accepted.
pub fn assemble(alloc: Global, text: &[u8]) -> Result<Image, TextError>
    ensures text { IfOk result (λ image. text.now ≡ text_of image) }
    // The text of a valid image is rejected only if memory runs out.
    ensures only { (image : HeapImage) → IsValid image → text.now ≡ text_of image
        → (result ≡ Ok image) ⊎ (result ≡ Err TextError.Memory) }
    ensures valid { IfOk result (λ image. IsValid image) }
    ensures line { IfErr result (λ error. IsWithin text.now error) }
{
    let heap = parse_text(alloc, text)?;
    build_image(alloc, heap, text)
}

/// As [`assemble`], of a text that a device gives.
///
/// Each line is parsed when it has arrived. Nothing is requested after the piece of 64 KiB in which a line is wrong or is
/// longer than any line of a text, so an endless input is rejected. A device that has failed is not used again.
pub fn assemble_from<R: Intake>(alloc: Global, device: &mut R) -> Result<Image, AssembleError>
    // The device had the text of the image left, and nothing after it.
    ensures text { IfOk result (λ image. IfSome (R.left device.old) (λ bytes. bytes ≡ text_of image)) }
    ensures end { OnOk result (IsAtEnd (R.left device.new)) }
    ensures valid { IfOk result (λ image. IsValid image) }
    ensures line { IfErr result (λ error. IfSome (R.left device.old) (λ bytes. IsAbout bytes error)) }
    ensures device { result ≡ Err AssembleError.Device → IsTrue (R.has_failed device.new) }
    // The text of a valid image is rejected only if memory runs out or the device fails.
    ensures only { (image : HeapImage) → IsValid image → R.left device.old ≡ Some (text_of image) → (result ≡ Ok image)
        ⊎ ((result ≡ Err (AssembleError.Text TextError.Memory)) ⊎ (result ≡ Err AssembleError.Device)) }
{
    let mut text = Vec::new(alloc);
    let heap = parse_from(alloc, device, &mut text)?;
    Ok(build_image(alloc, heap, text.as_slice())?)
}

/// Returns the image of the text with these contents.
fn build_image(alloc: Global, heap: ParsedHeap, text: &[u8]) -> Result<Image, TextError>
    ensures text { IfOk result (λ image. text.now ≡ text_of image) }
    ensures valid { IfOk result (λ image. IsValid image) }
    ensures line { IfErr result (λ error. IsWithin text.now error) }
    ensures accepts { (image : HeapImage) → IsValid image → text.now ≡ text_of image → HasContents image heap
        → AcceptsText result (λ found. found ≡ image) }
{
    let front = heap.front();
    let ParsedHeap {
        version,
        words,
        live,
        roots,
        ..
    } = heap;
    let tail = numbers_after_words(version, roots.as_slice(), live.as_slice());
    let bytes = ImageBytes::new(alloc, front, words, tail)?;
    let image = decode_heap(alloc, bytes, text)?;
    text_tells_its_size();
    check_live_objects(text, live.as_slice(), image.live())?;
    check_spelling(alloc, text, &image)?;
    Ok(image)
}

/// Decodes an image, and reports a fault at its line of the text.
fn decode_heap(alloc: Global, mut bytes: ImageBytes<'_>, text: &[u8]) -> Result<Image, TextError>
    ensures valid { IfOk result (λ image. IsValid image) }
    ensures line { IfErr result (λ error. IsWithin text.now error) }
    ensures accepts { (image : HeapImage) → IsValid image → Gives image bytes.entry
        → AcceptsText result (λ found. found ≡ image) }
{
    text_is_read_back();
    match read_image(alloc, &mut bytes, &Alone) {
        Ok(image) => Ok(image),
        Err(fault) => Err(error_of_fault(text, fault)),
    }
}

/// The error for a fault of the image of a text.
fn error_of_fault(text: &[u8], fault: Fault) -> TextError
    ensures line { IsWithin text.now result }
    ensures memory { fault ≡ Fault.Memory → result ≡ TextError.Memory }
{
    match fault {
        Fault::Memory => TextError::Memory,
        _ => TextError::Line(line_of_fault(text, fault), Expected::Valid(fault)),
    }
}

/// The line that has the object of a fault, or line 1 for a fault of no object.
fn line_of_fault(text: &[u8], fault: Fault) -> u64
    ensures { IsLineOf text.now result }
{
    match fault {
        Fault::Header(address) | Fault::Overlap(address) | Fault::Reference(address, _) => {
            line_of_address(text, address)
        }
        _ => 1,
    }
}

/// Rejects a text whose objects are not exactly the live ones.
fn check_live_objects(text: &[u8], listed: &[u64], live: &[u64]) -> Result<(), TextError>
    ensures line { IfErr result (λ error. IsWithin text.now error) }
    ensures accepts { listed.now ≡ live.now → result ≡ Ok tt }
{
    if listed == live {
        return Ok(());
    }
    let index = common_prefix(listed, live);
    let (address, expected) = match (listed.get(index), live.get(index)) {
        (Some(listed), None) => (*listed, Expected::Unreached(*listed)),
        (Some(listed), Some(live)) if *listed < *live => (*listed, Expected::Unreached(*listed)),
        (_, Some(live)) => (*live, Expected::Reached(*live)),
        (None, None) => return Ok(()),
    };
    let line = line_of_address(text, address);
    Err(TextError::Line(line, expected))
}
