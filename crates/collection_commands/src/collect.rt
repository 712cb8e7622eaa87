ghost use Rattle.std.specs.Prelude.{◌≡◌, ◌≢◌, ◌⊎◌, codes, ℕ, List, IfOk, IfErr, OnErr, string_bytes};
ghost use Rattle.image_streams.specs.declared.fault.Fault.{Fault};
ghost use Rattle.collector.specs.Streams.{IsTextBegun, IsFirstOfBytes};
ghost use Rattle.collection_commands.specs.Collect.{IsCollection};
ghost use Rattle.collection_commands.specs.Figures.{IsFigures, figures_line};

use crate::collection::{Run, collect_files, late_file, worker_count};
use crate::figures::{FiguresLine, LINE_ROOM, with_line};
use crate::timed_gate::TimedGate;
use collector::collect;
use command_files::{SystemFile, WorkDone, image_and_out};
use command_line::Collect;
use command_support::Trouble;
use command_times::Phase;
use heap_image::{Fault, Intake, Many, Outlet, read_image, write_image_buffered};
use std::os::unix::fs::FileExt;
use std::rt::Files;
use std::sync::Wait;
use std::thread::Threads;
use std::time::Clock;

/// Collects the image in one file to another file, and returns what `collect` prints.
pub fn answer<'a, R: Files + AllocGlobal + Threads + Wait + Clock + Sync>(
    rt: &R,
    request: Collect<'a>,
) -> Result<WorkDone<'a>, Trouble>
where
    R::File: FileExt + SystemFile + Sync,
    ensures { IfOk result (λ done. IsFigures done.text.items) }
{
    let workers = worker_count(rt, request.workers);
    let run = Run::start(rt, request.stats, workers, false);
    let (image, out) = image_and_out(rt, request.image, request.out, request.atomic)?;
    let out = late_file(rt, out, None, image.regular_len())?;
    collect_files(rt, &run, image.with_shape(request.shape), out, None)
}

/// Reads an image, collects it, and writes its compaction. Returns the figures of the collection, with the line for
/// standard output.
///
/// Nothing is allocated once a byte is written.
pub fn collect_into<R: AllocGlobal + Threads + Wait + Clock + Sync, I: Intake, O: Outlet>(
    rt: &R,
    run: &Run<'_, R>,
    input: &mut I,
    output: &mut O,
) -> Result<FiguresLine, Fault>
    ensures collection { IfOk result (λ done. IsCollection (I.left input.old) (I.left input.new)
        (O.took output.old) (O.took output.new) (string_bytes done.line)) }
    ensures figures { IfOk result (λ done. string_bytes done.line ≡ figures_line done.figures) }
    // Nothing was written, or the collection had ended well.
    ensures written { OnErr result ((output.new ≡ output.old)
        ⊎ IsTextBegun (I.left input.old) (I.left input.new) (O.took output.old) (O.took output.new)) }
    // Only the device stops it once it writes.
    ensures nothing_yet { IfErr result (λ fault. fault ≢ Fault.Io → output.new ≡ output.old) }
    ensures fault { IfErr result (IsFirstOfBytes (I.left input.old)) }
{
    let alloc = rt.alloc();
    let line = String::with_capacity(alloc, LINE_ROOM)?;
    let workers = Many {
        threads: rt,
        most: run.workers as usize,
    };
    let image = read_image(alloc, input, &workers)?;
    run.times.end(Phase::Check);
    let gate = TimedGate::new(rt, run.times.watch());
    match collect(alloc, image, run.workers, &gate, rt, rt) {
        Ok((outcome, _finished)) => {
            gate.end_collection(&run.times);
            write_image_buffered(alloc, &outcome.image, output)?;
            run.times.end(Phase::Write);
            Ok(with_line(outcome.figures, line))
        }
        Err(refusal) => Err(refusal.fault()),
    }
}
