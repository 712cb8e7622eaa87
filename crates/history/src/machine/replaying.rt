//! Replays of schedules on a copy of the heap.

ghost use Rattle.std.specs.Prelude.{◌≡◌, ◌⊎◌, ℕ, IfOk, IfErr};
ghost use Rattle.image_streams.specs.declared.fault.Fault.{Fault};
ghost use Rattle.history.specs.Carrier.{IsCarrier};
ghost use Rattle.history.specs.Replay.{IsRefusedAt};
ghost use Rattle.history.specs.Replayed.{IsReplayed, IsCarriedOut};

use super::carrier::Carrier;
use super::ledger::Ledger;
use super::replayed::{End, Replayed};
use crate::laws::machine_laws;
use heap_image::{Fault, Image};
use scheduler::{Line, PackedLine, Schedule};
use std::alloc::{AllocError, Global};
use summary::{Plan, Survey};

/// Runs the schedule by the word machine on a copy of the image. Each word is copied from what is at
/// its origin at that moment. Returns the schedule with the machine's replies, and the compacted image
/// if all regions to be filled are settled at the end. Fault 14 names the first line of the schedule's
/// text that the machine doesn't allow, or whose reply isn't the machine's; fault 11 means out of
/// memory.
pub fn replay(
    alloc: Global,
    image: &Image,
    survey: &Survey,
    schedule: &Schedule,
) -> Result<Replayed, Fault>
    requires same { survey.now ≡ image.now }
    ensures ok { IfOk result (IsReplayed image.now schedule.now) }
    ensures fault { IfErr result (λ fault. (fault ≡ Fault.Memory) ⊎ ((line : ℕ) × (fault ≡ Fault.Schedule line) × IsRefusedAt image.now schedule.now line)) }
{
    machine_laws();
    let plan = survey.plan();
    let carrier = Carrier::of(alloc, image, plan, survey.marks())?;
    let mut heap = words_of(alloc, image)?;
    let (lines, settled) = carry_out(alloc, &carrier, plan, schedule, &mut heap)?;
    let ended = if settled {
        End::Finished(carrier.finish(alloc, image, heap)?)
    } else {
        End::Open
    };
    let lines = Schedule::of_lines(schedule.workers(), lines);
    Ok(Replayed { lines, ended })
}

/// Runs the lines on the heap. Returns each line with its reply, and whether all regions to be filled
/// are settled after the last.
fn carry_out(
    alloc: Global,
    carrier: &Carrier<'_>,
    plan: &Plan,
    schedule: &Schedule,
    heap: &mut [u64],
) -> Result<(Vec<PackedLine>, bool), Fault>
    requires kept { IsCarrier carrier.now }
    requires plan { carrier.now.plan.now ≡ plan.now }
    requires heap { heap.old ≡ plan.now.words }
    ensures ok { IfOk result (λ all. IsCarriedOut plan.now schedule.now all.0.items all.1 heap.new) }
    ensures fault { IfErr result (λ fault. (fault ≡ Fault.Memory) ⊎ ((line : ℕ) × (fault ≡ Fault.Schedule line) × IsRefusedAt plan.now schedule.now line)) }
{
    machine_laws();
    let mut ledger = Ledger::new(alloc, plan, schedule.workers())?;
    let mut lines = Vec::new(alloc);
    for (i, line) in schedule.lines().iter().enumerate() {
        let line = line.line();
        let (first, number) = ledger.places(plan, line.event);
        let Ok(reply) = ledger.follow(plan, line) else {
            return Err(Fault::Schedule(i as u64 + 2));
        };
        carrier.copy(heap, first, number);
        lines.push(PackedLine::of(Line {
            reply: Some(reply),
            ..line
        }))?;
    }
    Ok((lines, ledger.is_done()))
}

/// Copies the words of the heap.
fn words_of(alloc: Global, image: &Image) -> Result<Vec<u64>, AllocError>
    ensures { IfOk result (λ words. words.items ≡ image.now.words) }
{
    let mut words = Vec::new(alloc);
    for a in 0..image.len() {
        words.push(image.word(a))?;
    }
    Ok(words)
}
