//! A collection from file to file, with its schedule or without.
ghost use Rattle.std.specs.Prelude.{◌≡◌, ◌≤◌, None, IfOk, IfSome, string_bytes};
ghost use Rattle.collection_commands.specs.Figures.{IsFigures};

use crate::collect::collect_into;
use crate::figures::FiguresLine;
use crate::out_file::OutFile;
use crate::record::record_into;
use collector::Figures;
use command_files::{FileTarget, Late, SystemFile, WorkDone};
use command_host::ImageFile;
use command_support::{Trouble, Watched};
use command_times::{Moved, Phase, PhaseTimes, Stats};
use heap_image::{Fault, Intake, Outlet, ToWrite};
use history::MAX_WORKERS;
use rayon::current_num_threads;
use std::io::Write;
use std::os::unix::fs::FileExt;
use std::rt::Files;
use std::sync::Wait;
use std::thread::Threads;
use std::time::Clock;

/// How a collection runs.
#[derive(Drop)]
pub struct Run<'h, H> {
    /// Started with the command.
    pub times: PhaseTimes<'h, H>,
    /// How many workers there are, 1 to 64.
    pub workers: u32,
    /// Whether workers take turns.
    pub turns: bool,
}

impl<'h, H: Clock> Run<'h, H> {
    /// Starts now. The clock is read only if times are wanted.
    pub fn start(clock: &'h H, is_timed: bool, workers: u32, turns: bool) -> Run<'h, H> {
        Run {
            times: PhaseTimes::start(clock, is_timed),
            workers,
            turns,
        }
    }

    /// What `--stats` prints of a collection with these figures, of a heap of this number of words.
    fn stats(&self, figures: Figures, heap: Option<u64>) -> Stats {
        let moved = Moved {
            heap,
            kept: figures.new_top,
            words: figures.new_top.saturating_sub(figures.prefix_end),
        };
        Stats::of_collection(&self.times, moved, self.workers)
    }
}

/// As many workers as are asked for, else one for each processor that the system grants, and at most 64.
pub fn worker_count(threads: &impl Threads, asked: Option<u32>) -> u32
    ensures asked { IfSome asked (λ count. result ≡ count) }
    ensures usual { asked ≡ None → (1 ≤ result) × (result ≤ 64) }
{
    match asked {
        Some(count) => count,
        None => current_num_threads(threads).min(MAX_WORKERS as usize) as u32,
    }
}

/// A file to write, which will be this long, or 0 if the length isn't known. It is begun with its first byte. If a new file
/// takes its place, that is made at once: it changes no other file, and an error is found before the work. It doesn't get the
/// name `apart`.
pub fn late_file<'a, 'h, H: Files + AllocGlobal>(
    host: &'h H,
    found: FileTarget<'a, H::File>,
    apart: Option<String>,
    len: u64,
) -> Result<Late<'a, 'h, H>, Trouble>
where
    H::File: SystemFile,
{
    let is_replaced = found.is_replaced();
    let mut file = Late::new(host, found).apart(apart).expecting(len);
    if is_replaced && file.begun().is_none() {
        return Err(file.failed(Trouble::from(Fault::Io)));
    }
    Ok(file)
}

/// Collects an image to one file, writes the schedule to the other if there is one, and returns what the command prints.
pub fn collect_files<'a, 'h, R: Files + AllocGlobal + Threads + Wait + Clock + Sync>(
    rt: &'h R,
    run: &Run<'_, R>,
    image: Watched<'a, R::File>,
    mut out: Late<'a, 'h, R>,
    mut schedule: Option<Late<'a, 'h, R>>,
) -> Result<WorkDone<'a>, Trouble>
where
    R::File: FileExt + SystemFile + Sync,
    ensures { IfOk result (λ done. IsFigures done.text.items) }
{
    let readers = run.workers as usize;
    let mut image = ImageFile::read_ahead(rt, image, readers, &run.times, Phase::Read);
    match collect_to(rt, run, &mut image, &mut out, &mut schedule) {
        Ok(FiguresLine { figures, line }) => {
            let stats = run.stats(figures, image.heap_words());
            Ok(all_ended(line, out, schedule)?.with_stats(stats))
        }
        Err(fault) => {
            let trouble = Trouble::from(fault).if_image(&image.into_inner());
            Err(all_failed(trouble, out, schedule))
        }
    }
}

/// Collects an image to one file, and writes the schedule to the other if there is one.
fn collect_to<R: Files + AllocGlobal + Threads + Wait + Clock + Sync, I: Intake>(
    rt: &R,
    run: &Run<'_, R>,
    image: &mut I,
    out: &mut Late<'_, '_, R>,
    schedule: &mut Option<Late<'_, '_, R>>,
) -> Result<FiguresLine, Fault>
where
    R::File: SystemFile,
    ensures { IfOk result (λ done. IsFigures (string_bytes done.line)) }
{
    let (mut out, collected) = run_to(rt, run, image, OutFile::new(out), schedule.as_mut());
    out.end(collected)
}

/// Collects an image to one device, and writes the schedule to the other if there is one. Returns the first device too.
fn run_to<R: AllocGlobal + Threads + Wait + Clock + Sync, I: Intake, O, W>(
    rt: &R,
    run: &Run<'_, R>,
    image: &mut I,
    mut out: O,
    schedule: Option<W>,
) -> (O, Result<FiguresLine, Fault>)
where
    O: Outlet + Drop,
    W: Write + Drop,
    ensures { IfOk result.1 (λ done. IsFigures (string_bytes done.line)) }
{
    let collected = match schedule {
        None => collect_into(rt, run, image, &mut out),
        Some(schedule) => record_into(rt, run, image, &mut out, &mut ToWrite::new(schedule)),
    };
    (out, collected)
}

/// Finishes the files that a command has written. The command prints this line.
fn all_ended<'a, 'h, H: Files + AllocGlobal>(
    line: String,
    out: Late<'a, 'h, H>,
    schedule: Option<Late<'a, 'h, H>>,
) -> Result<WorkDone<'a>, Trouble>
where
    H::File: SystemFile,
    ensures { IfOk result (λ done. done.text.items ≡ string_bytes line) }
{
    match schedule {
        Some(schedule) => out.ended_with(schedule, line),
        None => out.ended(line),
    }
}

/// Abandons the files after this trouble, and says which file it is about. A file that wasn't begun is unchanged.
fn all_failed<H: Files + AllocGlobal>(
    trouble: Trouble,
    out: Late<'_, '_, H>,
    schedule: Option<Late<'_, '_, H>>,
) -> Trouble
where
    H::File: SystemFile,
{
    let trouble = match schedule {
        Some(schedule) => schedule.failed(trouble),
        None => trouble,
    };
    out.failed(trouble)
}
