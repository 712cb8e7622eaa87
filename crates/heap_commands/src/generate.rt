ghost use Rattle.std.specs.Prelude.{◌≡◌, ◌≢◌, ◌⊎◌, ◌++◌, codes, ℕ, List, IfOk, IfErr, OnOk, OnErr, IsTrue, string_bytes};
ghost use Rattle.heap_maker.specs.GenerationFigures.{figures_text};
ghost use Rattle.heap_commands.specs.Generate.{IsGeneration, IsGenerationLine, IsWantedOf};
ghost use Rattle.command_support.specs.Failure.{failed_device};

use crate::shared::versions::requested_version;
use command_files::{FileTarget, Late, SystemFile, WorkDone};
use command_line::Generate;
use command_support::{Failure, FileWord, Role, Trouble, Writing};
use heap_image::{Outlet, ToWrite, Version, write_image_buffered};
use heap_maker::{Generated, GenerationFigures, Wanted, generate};
use std::alloc::{AllocError, Global};
use std::rt::Files;

/// Room for the line with the figures, with 20 digits for each number.
const LINE_ROOM: usize = 120;

/// Writes the requested heap to a file, and returns what `generate` prints.
pub fn answer<'a, R: Files + AllocGlobal>(
    rt: &R,
    request: Generate<'a>,
) -> Result<WorkDone<'a>, Trouble>
where
    R::File: SystemFile,
    ensures { IfOk result (λ done. IsGenerationLine done.text.items) }
{
    let image = FileWord::new(Role::Image, request.image);
    let writing = Writing {
        atomic: request.atomic,
        is_private: false,
        read: None,
    };
    let target = FileTarget::find(rt, image, writing)?;
    let mut late = Late::new(rt, target);
    let line = generate_into(
        rt.alloc(),
        &mut ToWrite::new(&mut late),
        &generation_of(&request),
    );
    match line {
        Ok(line) => late.ended(line),
        Err(failure) => Err(late.failed(Trouble::new(failure))),
    }
}

/// The heap that the request describes.
fn generation_of(request: &Generate<'_>) -> Wanted
    ensures { IsWantedOf request.now result }
{
    let (words, region_log) = (request.words, request.region_log);
    let version = match requested_version(request.version) {
        Some(version) => version,
        None => Version::for_roots(region_log, words),
    };
    Wanted {
        words,
        region_log,
        live_percent: request.live,
        reference_percent: request.references,
        version,
        allowance: request.allowance,
        seed: request.seed,
    }
}

/// Generates a heap and writes its image. Returns the line for standard output, with the figures of the heap.
///
/// Nothing is written before the heap is generated, and nothing is allocated once a byte is written. Fault 13 says that
/// the device failed, fault 11 that memory ran out, and any other failure is that of `heap_maker::generate`.
pub fn generate_into<O: Outlet>(
    alloc: Global,
    output: &mut O,
    wanted: &Wanted,
) -> Result<String, Failure>
    ensures image { IfOk result (λ shown. IsGeneration wanted.now
        (O.took output.old) (O.took output.new) (string_bytes shown)) }
    // Only the device stops it once it writes.
    ensures nothing_yet { IfErr result (λ failure. failure ≢ failed_device → output.new ≡ output.old) }
    ensures written { OnErr result ((output.new ≡ output.old) ⊎ IsTrue (O.has_failed output.new)) }
    ensures device { result ≡ Err failed_device → IsTrue (O.has_failed output.new) }
{
    let mut line = String::with_capacity(alloc, LINE_ROOM)?;
    let Generated { image, figures } = generate(alloc, wanted)?;
    push_generation_line(figures, &mut line)?;
    write_image_buffered(alloc, &image, output)?;
    Ok(line)
}

/// Appends the figures of a heap to a line.
fn push_generation_line(figures: GenerationFigures, line: &mut String) -> Result<(), AllocError>
    ensures { OnOk result (string_bytes line.new
        ≡ string_bytes line.old ++ (figures_text figures ++ codes "\n")) }
{
    writeln!(line, "{figures}")
}
