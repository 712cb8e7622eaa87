//! A recorded collection, and the replay of its schedule.
ghost use Rattle.std.specs.Prelude.{◌≡◌, IfOk, IfSome};
ghost use Rattle.summary.specs.Compaction.{compact};
ghost use Rattle.history.specs.Record.{IsRecord};

use collector::{OpenGate, record};
use heap_image::{Fault, Image};
use history::{End, Replayed, Schedule, replay};
use std::alloc::Global;
use std::sync::Wait;
use std::thread::Threads;
use summary::Survey;
use thread_row::Alone;

/// The schedule of a collection by two workers.
pub fn record_two_workers<R: AllocGlobal + Threads + Wait + Sync>(
    rt: &R,
    image: Image,
) -> Result<Schedule, Fault>
    ensures { IfOk result (λ schedule. IsRecord image 2 schedule) }
{
    match record(rt.alloc(), image, 2, &OpenGate, rt, rt) {
        Ok((_outcome, schedule)) => Ok(schedule),
        Err(refusal) => Err(refusal.fault()),
    }
}

/// The image after these calls, if they fill all regions.
pub fn replay_schedule(
    alloc: Global,
    image: &Image,
    schedule: &Schedule,
) -> Result<Option<Image>, Fault>
    ensures { IfOk result (λ found. IfSome found (λ after. after ≡ compact image.now)) }
{
    let survey = Survey::of(alloc, image, &Alone)?;
    let Replayed { lines: _, ended } = replay(alloc, image, &survey, schedule)?;
    match ended {
        End::Finished(after) => Ok(Some(after)),
        End::Open => Ok(None),
    }
}
