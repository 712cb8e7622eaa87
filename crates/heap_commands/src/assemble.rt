ghost use Rattle.std.specs.Prelude.{◌≡◌, ◌≢◌, ◌⊎◌, ◌++◌, codes, ℕ, List, IfOk, IfErr, IfSome, OnOk, OnErr, IsTrue, string_bytes};
ghost use Rattle.object_heap.specs.HeapImage.{IsValid};
ghost use Rattle.heap_text.specs.Text.{text_of};
ghost use Rattle.heap_commands.specs.Assemble.{IsAssembly, IsCountLine, count_line};
ghost use Rattle.command_support.specs.Failure.{failed_device};

use command_files::{Late, SystemFile, WorkDone, input_and_target};
use command_line::Assemble;
use command_support::{Failure, FileWord, Role, Trouble};
use heap_image::{Fault, FromRead, Image, Intake, Outlet, ToWrite, write_image_buffered};
use heap_text::{AssembleError, assemble_from};
use std::alloc::{AllocError, Global};
use std::rt::Files;

/// Room for the line of counts, with 20 digits for each number.
const LINE_ROOM: usize = 80;

/// Writes the image of the text in one file to another, and returns what `assemble` prints.
pub fn answer<'a, R: Files + AllocGlobal>(
    rt: &R,
    request: Assemble<'a>,
) -> Result<WorkDone<'a>, Trouble>
where
    R::File: SystemFile,
    ensures { IfOk result (λ done. IsCountLine done.text.items) }
{
    let text = FileWord::new(Role::Text, request.text);
    let image = FileWord::new(Role::Image, request.image);
    let (mut text, target) = input_and_target(rt, text, image, request.atomic)?;
    let mut late = Late::new(rt, target);
    let line = assemble_into(
        rt.alloc(),
        &mut FromRead::new(&mut text),
        &mut ToWrite::new(&mut late),
    );
    match line {
        Ok(line) => late.ended(line),
        Err(failure) => Err(late.failed(Trouble::new(failure).if_text(&text))),
    }
}

/// Reads the text of a heap line by line, and writes its image. Returns the line for standard output, with the
/// numbers of words, roots and live objects.
///
/// Nothing is written before the whole text is parsed, and nothing is allocated once a byte is written. Fault 13 says
/// that a device failed, fault 11 that memory ran out, and any other failure names the first wrong line of the text;
/// at most one more piece of the text was then read.
pub fn assemble_into<R: Intake, O: Outlet>(
    alloc: Global,
    text: &mut R,
    output: &mut O,
) -> Result<String, Failure>
    ensures image { IfOk result (λ shown. IsAssembly (R.left text.old)
        (O.took output.old) (O.took output.new) (string_bytes shown)) }
    // Only the device for the image stops it once it writes.
    ensures nothing_yet { IfErr result (λ failure. failure ≢ failed_device → output.new ≡ output.old) }
    ensures written { OnErr result ((output.new ≡ output.old) ⊎ IsTrue (O.has_failed output.new)) }
    ensures device { result ≡ Err failed_device → IsTrue (R.has_failed text.new) ⊎ IsTrue (O.has_failed output.new) }
{
    let mut line = String::with_capacity(alloc, LINE_ROOM)?;
    let image = image_in(alloc, text)?;
    push_counts(&image, &mut line)?;
    write_image_buffered(alloc, &image, output)?;
    Ok(line)
}

/// Reads the text of a heap to the end of the device, and makes its image.
fn image_in<R: Intake>(alloc: Global, text: &mut R) -> Result<Image, Failure>
    ensures text { IfOk result (λ image. IfSome (R.left text.old) (λ bytes. bytes ≡ text_of image)) }
    ensures valid { IfOk result (λ image. IsValid image) }
    ensures device { result ≡ Err failed_device → IsTrue (R.has_failed text.new) }
{
    match assemble_from(alloc, text) {
        Ok(image) => Ok(image),
        Err(AssembleError::Device) => Err(Failure::from(Fault::Io)),
        Err(AssembleError::Text(error)) => Err(Failure::from(error)),
    }
}

/// Appends the numbers of words, roots and live objects of an image to a line.
fn push_counts(image: &Image, line: &mut String) -> Result<(), AllocError>
    ensures { OnOk result (string_bytes line.new ≡ string_bytes line.old ++ count_line image.now) }
{
    let (words, roots, live) = (image.len(), image.roots().len(), image.live().len());
    writeln!(line, "words {words} roots {roots} live {live}")
}
