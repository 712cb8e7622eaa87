ghost use Rattle.std.specs.Prelude.{◌≡◌, ◌≢◌, ◌⊎◌, codes, ℕ, List, IfOk, IfErr, OnErr, string_bytes};
ghost use Rattle.image_streams.specs.declared.fault.Fault.{Fault};
ghost use Rattle.collector.specs.Streams.{IsTextBegun, IsFirstOfBytes, IsTextWritten};
ghost use Rattle.collection_commands.specs.Record.{IsRecording};
ghost use Rattle.collection_commands.specs.Figures.{IsFigures, figures_line};

use crate::collection::{Run, collect_files, late_file, worker_count};
use crate::figures::{FiguresLine, LINE_ROOM, with_line};
use crate::turn_gate::TurnGate;
use collector::record;
use command_files::{
    FileTarget, Late, SystemFile, WorkDone, must_differ, output_must_differ, same_file,
};
use command_line::Record;
use command_support::{FileId, FileWord, Role, Trouble, Watched};
use command_times::Phase;
use heap_image::{Fault, Intake, Many, Outlet, give_all, read_image, write_image_buffered};
use history::write_schedule;
use std::alloc::Global;
use std::os::unix::fs::FileExt;
use std::rt::Files;
use std::sync::Wait;
use std::thread::Threads;
use std::time::Clock;

/// Collects the image in one file to another file, writes the schedule to a third, and returns what `record` prints.
pub fn answer<'a, R: Files + AllocGlobal + Threads + Wait + Clock + Sync>(
    rt: &R,
    request: Record<'a>,
) -> Result<WorkDone<'a>, Trouble>
where
    R::File: FileExt + SystemFile + Sync,
    ensures { IfOk result (λ done. IsFigures done.text.items) }
{
    let workers = worker_count(rt, request.workers);
    let run = Run::start(rt, request.stats, workers, request.turns);
    let (image, out, schedule) = image_out_and_schedule(rt, &request)?;
    let image = image.with_shape(request.shape);
    let (out, schedule) = both_late(rt, out, image.regular_len(), schedule)?;
    collect_files(rt, &run, image, out, Some(schedule))
}

/// The file to read, and the two to write.
type ImageOutAndSchedule<'a, F> = (Watched<'a, F>, FileTarget<'a, F>, FileTarget<'a, F>);

/// Opens the image, then finds OUT and the schedule's file. No two may be one file, except the first two with
/// `--atomic`.
fn image_out_and_schedule<'a, H: Files + AllocGlobal>(
    host: &H,
    request: &Record<'a>,
) -> Result<ImageOutAndSchedule<'a, H::File>, Trouble> {
    let named = Named {
        image: FileWord::new(Role::Image, request.image),
        out: FileWord::new(Role::Out, request.out),
        schedule: FileWord::new(Role::Schedule, request.schedule),
    };
    names_must_differ(host.alloc(), named, request.atomic)?;
    let image = Watched::open(host, named.image)?;
    let (out, schedule) = targets_beside(host, &image, named, request.atomic)?;
    Ok((image, out, schedule))
}

/// The names of the three files, as the command line has them.
#[derive(Clone, Copy)]
struct Named<'a> {
    image: FileWord<'a>,
    out: FileWord<'a>,
    schedule: FileWord<'a>,
}

/// Rejects two equal names, except those of IMAGE and OUT with `--atomic`.
fn names_must_differ(alloc: Global, named: Named<'_>, atomic: bool) -> Result<(), Trouble> {
    if !atomic {
        output_must_differ(alloc, named.image, named.out)?;
    }
    output_must_differ(alloc, named.image, named.schedule)?;
    must_differ(alloc, named.out, named.schedule)
}

/// The two files to write, before they are changed.
type Targets<'a, F> = (FileTarget<'a, F>, FileTarget<'a, F>);

/// Finds the two files to write. If one can't be opened, or two of the three are one file and may not be, both are left
/// unchanged.
fn targets_beside<'a, H: Files + AllocGlobal>(
    host: &H,
    image: &Watched<'a, H::File>,
    named: Named<'a>,
    atomic: bool,
) -> Result<Targets<'a, H::File>, Trouble> {
    let (id, writing) = (image.id()?, image.writing(atomic)?);
    let out = FileTarget::find(host, named.out, writing)?;
    let schedule = match FileTarget::find(host, named.schedule, writing) {
        Ok(schedule) => schedule,
        Err(trouble) => {
            out.leave(host);
            return Err(trouble);
        }
    };
    let refused = match one_file(host, (named.image, id), &out, &schedule) {
        Ok(None) => return Ok((out, schedule)),
        Ok(Some((one, other))) => same_file(host.alloc(), one, other),
        Err(trouble) => Ok(trouble),
    };
    schedule.leave(host);
    out.leave(host);
    Err(refused?)
}

/// The two files to write.
type Lates<'a, 'h, H> = (Late<'a, 'h, H>, Late<'a, 'h, H>);

/// Both files, of which OUT will be this long. No new file gets the name of a file to be replaced.
fn both_late<'a, 'h, H: Files + AllocGlobal>(
    host: &'h H,
    out: FileTarget<'a, H::File>,
    out_len: u64,
    schedule: FileTarget<'a, H::File>,
) -> Result<Lates<'a, 'h, H>, Trouble>
where
    H::File: SystemFile,
{
    let beside_out = schedule.place_text(host.alloc())?;
    let beside_schedule = out.place_text(host.alloc())?;
    let out = late_file(host, out, beside_out, out_len)?;
    match late_file(host, schedule, beside_schedule, 0) {
        Ok(schedule) => Ok((out, schedule)),
        Err(trouble) => Err(out.failed(trouble)),
    }
}

/// Two of the three files that are one file and may not be. OUT may replace the image.
fn one_file<'a, H: Files>(
    host: &H,
    (image, id): (FileWord<'a>, FileId),
    out: &FileTarget<'a, H::File>,
    schedule: &FileTarget<'a, H::File>,
) -> Result<Option<(FileWord<'a>, FileWord<'a>)>, Trouble> {
    Ok(if !out.is_replaced() && out.is(id) {
        Some((image, out.word()))
    } else if schedule.is(id) {
        Some((image, schedule.word()))
    } else if schedule.is_same(host, out)? {
        Some((out.word(), schedule.word()))
    } else {
        None
    })
}

/// Reads an image, collects it, writes its compaction, and then the schedule of all that the workers did. Returns the
/// figures of the collection, with the line for standard output.
///
/// Nothing is allocated once a byte is written.
pub fn record_into<R: AllocGlobal + Threads + Wait + Clock + Sync, I: Intake, O: Outlet, L: Outlet>(
    rt: &R,
    run: &Run<'_, R>,
    input: &mut I,
    output: &mut O,
    lines: &mut L,
) -> Result<FiguresLine, Fault>
    ensures record { IfOk result (λ done. IsRecording run.now.workers (I.left input.old) (I.left input.new)
        (O.took output.old) (O.took output.new)
        (L.took lines.old) (L.took lines.new) (string_bytes done.line)) }
    ensures figures { IfOk result (λ done. string_bytes done.line ≡ figures_line done.figures) }
    // Nothing was written, or the collection had ended well.
    ensures written { OnErr result ((output.new ≡ output.old)
        ⊎ IsTextBegun (I.left input.old) (I.left input.new) (O.took output.old) (O.took output.new)) }
    // No line was written before the whole compaction.
    ensures lines_last { OnErr result ((lines.new ≡ lines.old)
        ⊎ IsTextWritten (I.left input.old) (I.left input.new) (O.took output.old) (O.took output.new)) }
    // Only the devices stop it once it writes.
    ensures nothing_yet { IfErr result (λ fault. fault ≢ Fault.Io
        → (output.new ≡ output.old) × (lines.new ≡ lines.old)) }
    ensures fault { IfErr result (IsFirstOfBytes (I.left input.old)) }
{
    let alloc = rt.alloc();
    let line = String::with_capacity(alloc, LINE_ROOM)?;
    let workers = Many {
        threads: rt,
        most: run.workers as usize,
    };
    let image = read_image(alloc, input, &workers)?;
    run.times.end(Phase::Check);
    let gate = TurnGate::new(rt, run);
    match record(alloc, image, run.workers, &gate, rt, rt) {
        Ok((outcome, schedule)) => {
            let text = write_schedule(alloc, &schedule)?;
            gate.timed().end_collection(&run.times);
            write_image_buffered(alloc, &outcome.image, output)?;
            run.times.end(Phase::Write);
            give_all(lines, text.as_slice())?;
            run.times.end(Phase::Schedule);
            Ok(with_line(outcome.figures, line))
        }
        Err(refusal) => Err(refusal.fault()),
    }
}
