//! Replies to schedules, without moving a word.

ghost use Rattle.std.specs.Prelude.{◌≡◌, ◌⊎◌, ℕ, IfOk, IfErr};
ghost use Rattle.image_streams.specs.declared.fault.Fault.{Fault};
ghost use Rattle.history.specs.Replay.{IsRefusedAt};
ghost use Rattle.history.specs.Replied.{AreReplies, IsReplied};

use super::ledger::Ledger;
use super::replied::Replied;
use crate::laws::machine_laws;
use heap_image::Fault;
use scheduler::{Line, PackedLine, Schedule};
use std::alloc::Global;
use summary::Plan;
use summary::laws::plans::planned_image_is_valid;

/// Runs the schedule on the word machine as [`check`](crate::check) does. Returns the schedule with the
/// machine's replies, and whether all regions to be filled are settled after the last line.
pub fn reply(alloc: Global, plan: &Plan, schedule: &Schedule) -> Result<Replied, Fault>
    ensures ok { IfOk result (IsReplied plan.now schedule.now) }
    ensures fault { IfErr result (λ fault. (fault ≡ Fault.Memory) ⊎ ((line : ℕ) × (fault ≡ Fault.Schedule line) × IsRefusedAt plan.now schedule.now line)) }
{
    machine_laws();
    planned_image_is_valid(plan);
    let (lines, is_settled) = lines_with_replies(alloc, plan, schedule)?;
    let lines = Schedule::of_lines(schedule.workers(), lines);
    Ok(Replied { lines, is_settled })
}

/// Returns each line with its reply, and whether all regions to be filled are settled after the last.
fn lines_with_replies(
    alloc: Global,
    plan: &Plan,
    schedule: &Schedule,
) -> Result<(Vec<PackedLine>, bool), Fault>
    ensures ok { IfOk result (λ all. AreReplies plan.now schedule.now all.0.items all.1) }
    ensures fault { IfErr result (λ fault. (fault ≡ Fault.Memory) ⊎ ((line : ℕ) × (fault ≡ Fault.Schedule line) × IsRefusedAt plan.now schedule.now line)) }
{
    machine_laws();
    planned_image_is_valid(plan);
    let mut ledger = Ledger::new(alloc, plan, schedule.workers())?;
    let mut lines = Vec::new(alloc);
    for (i, line) in schedule.lines().iter().enumerate() {
        let line = line.line();
        let Ok(reply) = ledger.follow(plan, line) else {
            return Err(Fault::Schedule(i as u64 + 2));
        };
        lines.push(PackedLine::of(Line {
            reply: Some(reply),
            ..line
        }))?;
    }
    Ok((lines, ledger.is_done()))
}
