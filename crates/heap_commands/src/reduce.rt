ghost use Rattle.std.specs.Prelude.{◌≡◌, ◌≢◌, ◌++◌, codes, decimal, ℕ, List, IfOk, IfErr, IfSome, string_bytes};
ghost use Rattle.object_heap.specs.HeapImage.{IsValid};
ghost use Rattle.heap_image.specs.Refusals.{IsReason};
ghost use Rattle.heap_maker.specs.HeapSize.{size_text};
ghost use Rattle.heap_commands.specs.Reduce.{IsReduced, IsReduction, IsReductionLine};

use command_files::{Late, SystemFile, WorkDone, image_and_out};
use command_host::ImageFile;
use command_line::Reduce;
use command_support::Trouble;
use heap_image::{Alone, Fault, Image, Intake, Outlet, ToWrite, read_image, write_image_buffered};
use heap_maker::{HeapSize, next_smaller};
use std::alloc::{AllocError, Global};
use std::os::unix::fs::FileExt;
use std::rt::Files;
use std::thread::Threads;
use std::time::Clock;

/// Writes a smaller heap than the one in a file to another, and returns what `reduce` prints.
pub fn answer<'a, R: Files + AllocGlobal + Threads + Clock + Sync>(
    rt: &R,
    request: Reduce<'a>,
) -> Result<WorkDone<'a>, Trouble>
where
    R::File: FileExt + SystemFile + Sync,
    ensures { IfOk result (λ done. IsReductionLine done.text.items) }
{
    let (image, target) = image_and_out(rt, request.image, request.out, request.atomic)?;
    let mut late = Late::new(rt, target);
    let mut image = ImageFile::untimed(rt, image);
    let line = reduce_into(
        rt.alloc(),
        &mut image,
        &mut ToWrite::new(&mut late),
        request.step,
    );
    match line {
        Ok(line) => late.ended(line),
        Err(fault) => Err(late.failed(Trouble::from(fault).if_image(image.watched()))),
    }
}

/// Reads an image, and writes that of the heap that the first step from number `step` on makes of it: a smaller one, or
/// the same one if no step does. Returns the line for standard output, with its counts.
///
/// Nothing is allocated once a byte is written.
pub fn reduce_into<R: Intake, O: Outlet>(
    alloc: Global,
    input: &mut R,
    output: &mut O,
    step: u64,
) -> Result<String, Fault>
    ensures reduction { IfOk result (λ shown. IsReduction step (R.left input.old) (R.left input.new)
        (O.took output.old) (O.took output.new) (string_bytes shown)) }
    // Only the device stops it once it writes.
    ensures nothing_yet { IfErr result (λ fault. fault ≢ Fault.Io → output.new ≡ output.old) }
    ensures fault { IfErr result (λ fault. IfSome (R.left input.old) (λ bytes. IsReason bytes fault)) }
{
    let image = read_image(alloc, input, &Alone)?;
    let made = reduced(alloc, image, step)?;
    write_image_buffered(alloc, &made.image, output)?;
    Ok(made.line)
}

/// A heap, and the line that says how it was made and what it has.
#[derive(Drop)]
struct Reduction {
    image: Image,
    line: String,
}

/// The heap that the first step from this number on makes of one, or the same heap. The only fault is that memory runs out.
fn reduced(alloc: Global, image: Image, step: u64) -> Result<Reduction, Fault>
    ensures valid { IfOk result (λ reduced. IsValid reduced.image) }
    ensures reduced { IfOk result (λ reduced. IsReduced step image reduced.image (string_bytes reduced.line)) }
    ensures fault { IfErr result (λ fault. fault ≡ Fault.Memory) }
{
    match next_smaller(alloc, &image, step)? {
        Some(made) => {
            let line = step_line(alloc, made.step, made.size)?;
            Ok(Reduction {
                image: made.image,
                line,
            })
        }
        None => {
            let line = least_line(alloc, HeapSize::of(&image))?;
            Ok(Reduction { image, line })
        }
    }
}

/// The line with the counts of a heap that this step has made.
fn step_line(alloc: Global, step: u64, size: HeapSize) -> Result<String, AllocError>
    ensures { IfOk result (λ line. string_bytes line
        ≡ codes "step " ++ (decimal step ++ (codes " " ++ (size_text size ++ codes "\n")))) }
{
    let mut line = String::new(alloc);
    writeln!(line, "step {step} {size}")?;
    Ok(line)
}

/// The line with the counts of a heap that no step makes smaller.
fn least_line(alloc: Global, size: HeapSize) -> Result<String, AllocError>
    ensures { IfOk result (λ line. string_bytes line ≡ codes "least " ++ (size_text size ++ codes "\n")) }
{
    let mut line = String::new(alloc);
    writeln!(line, "least {size}")?;
    Ok(line)
}
