ghost use Rattle.std.specs.Prelude.{◌≡◌, ◌≢◌, ◌↔◌, ◌⊎◌, IsTrue, IfOk, OnErr, IfErr, MatchResult, Err};
ghost use Rattle.heap_image.specs.Refusals.{IsOfReading};
ghost use Rattle.image_streams.specs.declared.fault.Fault.TheVariants.{Memory};
ghost use Rattle.summary.specs.Compaction.{compact};
ghost use Rattle.scheduler.specs.Schedule.{IsHistory};
ghost use Rattle.history.specs.Record.{IsRecord};
ghost use Rattle.collector.specs.Halts.{MayRefuse};
ghost use Rattle.collector.specs.Collections.{figures_of, AreNoneOrTooMany, IfKept, IfLost};
ghost use Rattle.collector.specs.Records.{IsLoss, IsOfSchedule};
ghost use Rattle.collector.specs.Streams.{AreRecorded, IsTextBegun, IsFirstOfBytes, IsTextWritten, MayRefuseRead};
ghost use Rattle.collector.specs.declared.outcome.Refusal.TheVariants.{Kept, Lost};

use super::collection_desk::CollectionDesk;
use super::compaction::Compaction;
use super::read_whole;
use crate::gate::Gate;
use crate::outcome::{Figures, Outcome, Refusal};
use crate::workers::Workers;
use crate::workers::start_line::StartLine;
use claim_board::{Recorder, RegionBoard};
use heap_image::{Fault, Image, Intake, Outlet, give_all, write_image_buffered};
use history::{check, checked_histories_are_records, write_schedule};
use scheduler::{Book, CallFault, Schedule};
use std::alloc::{AllocError, Global};
use std::sync::Wait;
use std::thread::Threads;
use summary::Plan;
use summary::laws::plans::planned_image_is_valid;
use thread_row::Many;

/// Reads an image, compacts it as [`record`] does, and writes the compaction and then, to `lines`, the text of the
/// schedule.
///
/// Nothing is written before the collection has succeeded with a whole schedule, and nothing is allocated once a byte
/// is written. Faults 1 to 10 and 17 are the first fault of the input, fault 13 means that a device has failed, and the
/// others are those of `record`. If writing fails with fault 13, a prefix of the two texts was written, the
/// compaction's first; after any other fault, nothing was.
pub fn record_stream<
    R: Intake,
    O: Outlet,
    L: Outlet,
    G: Gate + Sync,
    T: Threads + Sync,
    W: Wait + Sync,
>(
    alloc: Global,
    reader: &mut R,
    writer: &mut O,
    lines: &mut L,
    workers: Workers<'_, G, T, W>,
) -> Result<Figures, Fault>
    // All of the input was read, the text of an image, and the texts of its compaction and of the schedule were
    // written.
    ensures texts { IfOk result (AreRecorded workers.entry.count (R.left reader.old) (R.left reader.new)
        (O.took writer.old) (O.took writer.new) (L.took lines.old) (L.took lines.new)) }
    // Nothing was written, or the collection had succeeded.
    ensures written { OnErr result ((writer.new ≡ writer.old)
        ⊎ IsTextBegun (R.left reader.old) (R.left reader.new) (O.took writer.old) (O.took writer.new)) }
    // No line was written before the whole compaction.
    ensures lines_last { OnErr result ((lines.new ≡ lines.old)
        ⊎ IsTextWritten (R.left reader.old) (R.left reader.new) (O.took writer.old) (O.took writer.new)) }
    ensures nothing_yet { IfErr result (λ fault. fault ≢ Fault.Io
        → (writer.new ≡ writer.old) × (lines.new ≡ lines.old)) }
    ensures bytes { IfErr result (IsFirstOfBytes (R.left reader.old)) }
    ensures device { result ≡ Err Fault.Io → IsTrue (R.has_failed reader.new)
        ⊎ (IsTrue (O.has_failed writer.new) ⊎ IsTrue (L.has_failed lines.new)) }
    ensures workers { result ≡ Err Fault.Workers → AreNoneOrTooMany workers.entry.count }
    // Unless the input is refused, a number of workers that isn't 1 to 64 is.
    ensures refused { AreNoneOrTooMany workers.entry.count → MatchResult result (λ figures. ⊥)
        (λ fault. (fault ≡ Fault.Workers) ⊎ IsOfReading fault) }
    ensures gate { result ≡ Err Fault.Gate → MayRefuseRead (R.left reader.old) (R.left reader.new)
        (G.may_refuse workers.entry.gate.now) workers.entry.count }
{
    let Workers {
        count,
        gate,
        threads,
        wait,
    } = workers;
    let image = read_whole(alloc, reader, count, threads)?;
    match record(alloc, image, count, gate, threads, wait) {
        Ok((outcome, schedule)) => {
            let text = write_schedule(alloc, &schedule)?;
            write_image_buffered(alloc, &outcome.image, writer)?;
            give_all(lines, text.as_slice())?;
            Ok(outcome.figures)
        }
        Err(refusal) => Err(refusal.fault()),
    }
}

/// Compacts an image as [`collect`](crate::collect) does, but under one lock, and returns the schedule of all the
/// workers' calls and copies. Each call and copy allocates its line. The workers begin together if each has a thread.
///
/// Returns `Kept` as `collect` does. Returns `Lost` once a worker has begun: with fault 16 if the gate refused a region,
/// with fault 11 if memory for a line ran out, and with fault 14 if the schedule isn't one that moves all regions. The
/// last two come once the collection is done: it doesn't need its schedule. No contract sees a list under a lock, so none
/// says that fault 14 never comes; tests do. It names the first line at fault, or the line after the last if some region
/// isn't settled.
pub fn record<G: Gate + Sync, T: Threads + Sync, W: Wait + Sync>(
    alloc: Global,
    image: Image,
    workers: u32,
    gate: &G,
    threads: &T,
    wait: &W,
) -> Result<(Outcome, Schedule), Refusal>
    ensures image { IfOk result (λ done. done.0.image ≡ compact image) }
    ensures figures { IfOk result (λ done. done.0.figures ≡ figures_of image) }
    ensures schedule { IfOk result (λ done. IsRecord image workers done.1) }
    ensures kept { IfErr result (λ refusal. IfKept refusal
        (λ back fault. (back ≡ image) × ((fault ≡ Fault.Memory) ⊎ (fault ≡ Fault.Workers)))) }
    ensures workers { result ≡ Err (Kept image Fault.Workers) ↔ AreNoneOrTooMany workers }
    ensures lost { IfErr result (λ refusal. IfLost refusal IsLoss) }
    ensures gate { result ≡ Err (Lost Fault.Gate) → MayRefuse (G.may_refuse gate.now) workers image }
{
    let many = Many {
        threads,
        most: workers as usize,
    };
    let mut compaction = Compaction::<Recorder>::prepare(alloc, image, workers, &many)?;
    compaction.work(&StartLine::awaiting(workers), gate, threads, wait)?;
    compaction.fill_left(true, gate, wait)?;
    let ended = compaction.finish(&many);
    let schedule = whole_schedule(alloc, ended.record, ended.survey.plan(), workers)?;
    Ok((ended.outcome, schedule))
}

impl CollectionDesk for Recorder {
    ghost use Rattle.scheduler.specs.Schedule.{IsHistory};

    type Equipment = Book;

    type Record = Recorded;

    ghost recorded = { λ r. IsHistory r.schedule };

    fn equip(alloc: Global, plan: &Plan, workers: u32) -> Result<Book, AllocError> {
        Book::new(alloc, plan, workers)
    }

    fn of(board: RegionBoard, book: Book) -> Recorder {
        Recorder::new(board, book)
    }

    fn into_parts(self) -> (RegionBoard, Recorded) {
        let (board, schedule, missing) = self.into_parts();
        (board, Recorded { schedule, missing })
    }
}

/// The calls that were recorded, and why those after them are missing.
#[derive(Drop)]
pub(crate) struct Recorded {
    schedule: Schedule,
    missing: Option<CallFault>,
}

/// The schedule, if it records a whole collection of the plan's image. Otherwise fault 14 names the first line at fault, or
/// the line after the last if some region isn't settled. Returns fault 11 if memory runs out or ran out before.
fn whole_schedule(
    alloc: Global,
    recorded: Recorded,
    plan: &Plan,
    workers: u32,
) -> Result<Schedule, Fault>
    requires { IsHistory recorded.schedule }
    ensures schedule { IfOk result (IsRecord plan.now workers) }
    ensures fault { IfErr result (λ fault. (fault ≡ Memory) ⊎ IsOfSchedule fault) }
{
    checked_histories_are_records();
    planned_image_is_valid(plan);
    let Recorded { schedule, missing } = recorded;
    if missing == Some(CallFault::Memory) {
        return Err(Fault::Memory);
    }
    if schedule.workers() != workers {
        return Err(Fault::Schedule(1));
    }
    if !check(alloc, plan, &schedule)? {
        let last = schedule.len() as u64 + 1;
        return Err(Fault::Schedule(last.saturating_add(1)));
    }
    Ok(schedule)
}
