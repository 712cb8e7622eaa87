ghost use Rattle.std.specs.Prelude.{◌≡◌, ◌≢◌, ◌≤◌, ◌<◌, ◌⊎◌, ◌++◌, [], codes, decimal, length, ℕ, List, IfOk, IfErr, OnErr, IfSome, string_bytes};
ghost use Rattle.std_alloc.specs.String.{string_capacity};
ghost use Rattle.image_streams.specs.declared.fault.Fault.{Fault};
ghost use Rattle.object_heap.specs.declared.version.Version.{Version};
ghost use Rattle.object_heap.specs.HeapImage.{roots_of};
ghost use Rattle.heap_image.specs.Refusals.{IsReason};
ghost use Rattle.heap_image.specs.Upgrade.{upgraded_to};
ghost use Rattle.object_heap.specs.Version.{number_of};
ghost use Rattle.heap_commands.specs.Upgrade.{IsBegun, IsRootCount, IsUpgrading};
ghost use Rattle.command_support.specs.Failure.{failed_device};
ghost use Rattle.command_support.specs.declared.failure.Failure.TheVariants.{Fault as OfFault, Later};

use crate::shared::versions::version_numbered;
use command_files::{Late, SystemFile, WorkDone, image_and_out};
use command_host::ImageFile;
use command_line::Upgrade;
use command_support::{Failure, Trouble, push_number, push_text};
use heap_image::{
    Alone, Image, Intake, Outlet, ToWrite, Version, read_image, upgrade_to, write_image_buffered,
};
use std::alloc::Global;
use std::os::unix::fs::FileExt;
use std::rt::Files;
use std::thread::Threads;
use std::time::Clock;

/// Room for the line with the number of roots, with 20 digits for it.
const LINE_ROOM: usize = 27;

/// Upgrades the image in one file to another file, and returns what `upgrade` prints.
pub fn answer<'a, R: Files + AllocGlobal + Threads + Clock + Sync>(
    rt: &R,
    request: Upgrade<'a>,
) -> Result<WorkDone<'a>, Trouble>
where
    R::File: FileExt + SystemFile + Sync,
    ensures { IfOk result (λ done. IsRootCount done.text.items) }
{
    let (image, target) = image_and_out(rt, request.image, request.out, request.atomic)?;
    let mut late = Late::new(rt, target);
    let mut image = ImageFile::untimed(rt, image);
    let line = upgrade_into(
        rt.alloc(),
        &mut image,
        &mut ToWrite::new(&mut late),
        version_numbered(request.to),
    );
    match line {
        Ok(line) => late.ended(line),
        Err(failure) => Err(late.failed(Trouble::new(failure).if_image(image.watched()))),
    }
}

/// Reads an image and writes its upgrade to this version. Returns the line for standard output, with the number of roots.
///
/// Nothing is allocated once a byte is written. An image of a later version is refused, and nothing is written.
pub fn upgrade_into<R: Intake, O: Outlet>(
    alloc: Global,
    input: &mut R,
    output: &mut O,
    version: Version,
) -> Result<String, Failure>
    ensures upgrade { IfOk result (λ shown. IsUpgrading version (R.left input.old) (R.left input.new)
        (O.took output.old) (O.took output.new) (string_bytes shown)) }
    // Nothing was written, or all of the input was read and the upgrade made.
    ensures written { OnErr result ((output.new ≡ output.old)
        ⊎ IsBegun version (R.left input.old) (R.left input.new) (O.took output.old) (O.took output.new)) }
    // Only the device stops it once it writes.
    ensures nothing_yet { IfErr result (λ failure. failure ≢ failed_device → output.new ≡ output.old) }
    ensures fault { IfErr result (λ failure. (fault : Fault) → failure ≡ OfFault fault
        → IfSome (R.left input.old) (λ bytes. IsReason bytes fault)) }
    // Only a later version is refused as one.
    ensures later { IfErr result (λ failure. (found wanted : Version) → failure ≡ Later found wanted
        → number_of version < number_of found) }
{
    let line = String::with_capacity(alloc, LINE_ROOM)?;
    let image = read_image(alloc, input, &Alone)?;
    if version.number() < image.version().number() {
        return Err(Failure::Later {
            version: image.version(),
            wanted: version,
        });
    }
    let image = match upgrade_to(alloc, image, version) {
        Ok(image) => image,
        Err((_, fault)) => return Err(Failure::Fault(fault)),
    };
    write_image_buffered(alloc, &image, output)?;
    Ok(roots_line(count_roots(&image), line))
}

/// The number of roots of an image.
fn count_roots(image: &Image) -> u32
    ensures { result ≡ length (roots_of image.now) }
{
    image.roots().len() as u32
}

/// Writes the line with the number of roots to an empty text that has room for it.
fn roots_line(roots: u32, mut line: String) -> String
    requires room { 27 ≤ string_capacity line }
    requires empty { string_bytes line ≡ [] }
    ensures { string_bytes result ≡ codes "roots " ++ (decimal roots ++ codes "\n") }
{
    push_text(&mut line, "roots ");
    push_number(&mut line, roots as u64);
    push_text(&mut line, "\n");
    line
}
