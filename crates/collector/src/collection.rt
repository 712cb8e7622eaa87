ghost use Rattle.std.specs.Prelude.{◌≡◌, ◌≢◌, ◌↔◌, ◌⊎◌, ℕ, IsTrue, IfOk, OnErr, IfErr, MatchResult, Err};
ghost use Rattle.std.specs.Io.KnownBytes.{Appends};
ghost use Rattle.object_heap.specs.HeapImage.{HeapImage};
ghost use Rattle.heap_image.specs.ImageText.{text};
ghost use Rattle.heap_image.specs.Reading.{IsRead};
ghost use Rattle.heap_image.specs.Refusals.{IsOfReading};
ghost use Rattle.summary.specs.Compaction.{compact};
ghost use Rattle.scheduler.specs.ImageMoves.{image_table};
ghost use Rattle.scheduler.specs.History.{IsLegal};
ghost use Rattle.scheduler.specs.Whole.{HasEachOnce};
ghost use Rattle.claim_board.specs.Finishes.{history};
ghost use Rattle.collector.specs.Halts.{MayRefuse};
ghost use Rattle.collector.specs.Collections.{figures_of, AreNoneOrTooMany, IfKept, IfLost};
ghost use Rattle.collector.specs.Streams.{IsTextBegun, IsFirstOfBytes, MayRefuseRead};
ghost use Rattle.collector.specs.declared.outcome.Refusal.TheVariants.{Kept, Lost};

pub(crate) mod clean_up;
pub(crate) mod collection_desk;
pub(crate) mod compaction;
pub(crate) mod preparing;
pub(crate) mod recording;
pub(crate) mod redirector;

use crate::gate::Gate;
use crate::outcome::{Figures, Outcome, Refusal};
use claim_board::{Finished, RegionBoard};
use compaction::Compaction;
use heap_image::{Fault, Image, Intake, Outlet, read_image, write_image_buffered};
use retry_policy::Tries;
use std::alloc::Global;
use std::sync::Wait;
use std::thread::Threads;
use thread_row::{Alone, Many};

/// Reads an image, compacts it as [`collect`] does, and writes the compaction.
///
/// Nothing is written before the collection has succeeded. Faults 1 to 10 and 17 are the first fault of the input,
/// fault 13 means that a device has failed, and the others are those of `collect`. If writing fails with fault 13, a
/// prefix of the text was written; after any other fault, nothing was.
pub fn collect_stream<R: Intake, O: Outlet, G: Gate + Sync, T: Threads + Sync, W: Wait + Sync>(
    alloc: Global,
    reader: &mut R,
    writer: &mut O,
    workers: u32,
    gate: &G,
    threads: &T,
    wait: &W,
) -> Result<Figures, Fault>
    // All of the input was read, the text of an image, and the text of its compaction was written.
    ensures text { IfOk result (λ figures. (image : HeapImage)
        × IsRead image (R.left reader.old) (R.left reader.new)
        × Appends (O.took writer.old) (O.took writer.new) (text (compact image))
        × (figures ≡ figures_of image)) }
    // Nothing was written, or the collection had succeeded.
    ensures written { OnErr result ((writer.new ≡ writer.old)
        ⊎ IsTextBegun (R.left reader.old) (R.left reader.new) (O.took writer.old) (O.took writer.new)) }
    ensures nothing_yet { IfErr result (λ fault. fault ≢ Fault.Io → writer.new ≡ writer.old) }
    ensures bytes { IfErr result (IsFirstOfBytes (R.left reader.old)) }
    ensures device { result ≡ Err Fault.Io
        → IsTrue (R.has_failed reader.new) ⊎ IsTrue (O.has_failed writer.new) }
    ensures workers { result ≡ Err Fault.Workers → AreNoneOrTooMany workers }
    // Unless the input is refused, a number of workers that isn't 1 to 64 is.
    ensures refused { AreNoneOrTooMany workers → MatchResult result (λ figures. ⊥)
        (λ fault. (fault ≡ Fault.Workers) ⊎ IsOfReading fault) }
    ensures gate { result ≡ Err Fault.Gate
        → MayRefuseRead (R.left reader.old) (R.left reader.new) (G.may_refuse gate.now) workers }
    ensures schedule { IfErr result (λ fault. (line : ℕ) → fault ≢ Fault.Schedule line) }
{
    let image = read_whole(alloc, reader, workers, threads)?;
    match collect(alloc, image, workers, gate, threads, wait) {
        Ok((outcome, _finished)) => {
            write_image_buffered(alloc, &outcome.image, writer)?;
            Ok(outcome.figures)
        }
        Err(refusal) => Err(refusal.fault()),
    }
}

/// Reads all of the input, the text of an image, and checks it with at most `workers` threads. A fault is the first of
/// the input, or 11 if memory runs out, or 13 if the device fails.
fn read_whole<R: Intake>(
    alloc: Global,
    reader: &mut R,
    workers: u32,
    threads: &(impl Threads + Sync),
) -> Result<Image, Fault>
    ensures read { IfOk result (λ image. IsRead image (R.left reader.old) (R.left reader.new)) }
    ensures bytes { IfErr result (IsFirstOfBytes (R.left reader.old)) }
    ensures device { result ≡ Err Fault.Io → IsTrue (R.has_failed reader.new) }
    ensures kind { IfErr result IsOfReading }
{
    let many = Many {
        threads,
        most: workers as usize,
    };
    read_image(alloc, reader, &many)
}

/// Compacts an image. Its regions are filled by 1 to 64 workers, each in a thread of its own if one can be started.
///
/// Returns `Kept` before any worker begins: with fault 12 exactly if the number of workers, which is tested first,
/// isn't 1 to 64, and with fault 11 if memory runs out. Returns `Lost` afterwards, with fault 16, if and only if the gate
/// refused a region. What the workers leave without a refusal is filled in the caller's thread.
///
/// Nothing but the threads allocates once the workers begin. One worker alone never waits, and fills the regions in
/// ascending order.
pub fn collect<G: Gate + Sync, T: Threads + Sync, W: Wait + Sync>(
    alloc: Global,
    image: Image,
    workers: u32,
    gate: &G,
    threads: &T,
    wait: &W,
) -> Result<(Outcome, Finished), Refusal>
    ensures image { IfOk result (λ done. done.0.image ≡ compact image) }
    ensures figures { IfOk result (λ done. done.0.figures ≡ figures_of image) }
    ensures legal { IfOk result (λ done. IsLegal (image_table image) workers (history done.1)) }
    ensures once { IfOk result (λ done. HasEachOnce (image_table image) (history done.1)) }
    ensures kept { IfErr result (λ refusal. IfKept refusal
        (λ back fault. (back ≡ image) × ((fault ≡ Fault.Memory) ⊎ (fault ≡ Fault.Workers)))) }
    ensures workers { result ≡ Err (Kept image Fault.Workers) ↔ AreNoneOrTooMany workers }
    ensures lost { IfErr result (λ refusal. IfLost refusal (λ fault. fault ≡ Fault.Gate)) }
    ensures gate { result ≡ Err (Lost Fault.Gate) → MayRefuse (G.may_refuse gate.now) workers image }
{
    let many = Many {
        threads,
        most: workers as usize,
    };
    let mut compaction = Compaction::<RegionBoard>::prepare(alloc, image, workers, &many)?;
    compaction.work_if_several(gate, threads, wait)?;
    compaction.fill_left(workers > 1, gate, wait)?;
    let ended = compaction.finish(&many);
    Ok((ended.outcome, ended.finished))
}

/// Compacts an image in the caller's thread. Starts no thread, and never waits.
///
/// Returns `Kept` with fault 11 if memory runs out, before any region is filled. Returns `Lost` afterwards, with fault 16,
/// if and only if the gate refused a region.
///
/// The regions are filled in ascending order, without a queue or a flag. Nothing is allocated once regions are filled.
pub fn collect_alone<G: Gate>(
    alloc: Global,
    image: Image,
    gate: &G,
) -> Result<(Outcome, Finished), Refusal>
    ensures image { IfOk result (λ done. done.0.image ≡ compact image) }
    ensures figures { IfOk result (λ done. done.0.figures ≡ figures_of image) }
    ensures legal { IfOk result (λ done. IsLegal (image_table image) 1 (history done.1)) }
    ensures once { IfOk result (λ done. HasEachOnce (image_table image) (history done.1)) }
    ensures kept { IfErr result (λ refusal. IfKept refusal (λ back fault. (back ≡ image) × (fault ≡ Fault.Memory))) }
    ensures lost { IfErr result (λ refusal. IfLost refusal (λ fault. fault ≡ Fault.Gate)) }
    ensures gate { result ≡ Err (Lost Fault.Gate) → MayRefuse (G.may_refuse gate.now) 1 image }
{
    let mut compaction = Compaction::<RegionBoard>::prepare(alloc, image, 1, &Alone)?;
    compaction.fill_left(false, gate, &Tries { most: 0 })?;
    let ended = compaction.finish(&Alone);
    Ok((ended.outcome, ended.finished))
}
