ghost use Rattle.std.specs.Prelude.{◌≡◌, codes, ℕ, List, IfOk, IfErr, IfSome};
ghost use Rattle.heap_image.specs.Refusals.{IsReason};
ghost use Rattle.heap_text.specs.Text.{text_of};
ghost use Rattle.heap_commands.specs.Text.{AreLines, AreLinesOf};

use command_files::{WorkDone, open_image};
use command_host::ImageFile;
use command_line::{Shape, Text};
use command_support::Trouble;
use heap_image::{Fault, Image, Intake, all_processors, read_image};
use heap_text::write_text;
use std::alloc::Global;
use std::os::unix::fs::FileExt;
use std::rt::Files;
use std::thread::Threads;
use std::time::Clock;

/// Returns what `text` prints of the image in a file.
pub fn answer<'a, R: Files + AllocGlobal + Threads + Clock + Sync>(
    rt: &R,
    request: Text<'a>,
) -> Result<WorkDone<'a>, Trouble>
where
    R::File: FileExt + Sync,
    ensures { IfOk result (λ done. AreLines done.text.items) }
{
    let image = open_image(rt, request.image, Shape::unchanged())?;
    let mut image = ImageFile::untimed(rt, image);
    match lines_of(rt.alloc(), &mut image, rt) {
        Ok(lines) => Ok(WorkDone::printing(lines)),
        Err(fault) => Err(Trouble::from(fault).if_image(image.watched())),
    }
}

/// Reads an image and returns its text.
pub fn lines_of<R: Intake, T: Threads + Sync>(
    alloc: Global,
    input: &mut R,
    threads: &T,
) -> Result<Vec<u8>, Fault>
    ensures lines { IfOk result (λ lines. AreLinesOf (R.left input.old) (R.left input.new) lines.items) }
    ensures fault { IfErr result (λ fault. IfSome (R.left input.old) (λ bytes. IsReason bytes fault)) }
{
    let image = read_image(alloc, input, &all_processors(threads))?;
    lines_of_image(alloc, &image)
}

/// The text of an image. The only fault is that memory runs out.
fn lines_of_image(alloc: Global, image: &Image) -> Result<Vec<u8>, Fault>
    ensures lines { IfOk result (λ lines. lines.items ≡ text_of image.now) }
    ensures fault { IfErr result (λ fault. fault ≡ Fault.Memory) }
{
    Ok(write_text(alloc, image)?)
}
