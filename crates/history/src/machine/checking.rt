//! Schedules checked without moving a word.

ghost use Rattle.std.specs.Prelude.{◌≡◌, ◌⊎◌, ℕ, Bool, IfOk, IfErr, IfSome, IfNone};
ghost use Rattle.image_streams.specs.declared.fault.Fault.{Fault};
ghost use Rattle.history.specs.Replay.{IsChecked, IsRefusedAt};
ghost use Rattle.history.specs.LineCause.{IsExplained};

use super::ledger::Ledger;
use super::refused_line::RefusedLine;
use heap_image::Fault;
use scheduler::Schedule;
use std::alloc::{AllocError, Global};
use summary::Plan;

/// Runs the schedule on the word machine without moving a word, and returns whether all regions to be
/// filled are settled after the last line. Fault 14 names the first line of the schedule's text that
/// the machine doesn't allow, or whose reply isn't the machine's; fault 11 means out of memory. Takes
/// time linear in the number of lines and of regions.
pub fn check(alloc: Global, plan: &Plan, schedule: &Schedule) -> Result<bool, Fault>
    ensures ok { IfOk result (IsChecked plan.now schedule.now) }
    ensures fault { IfErr result (λ fault. (fault ≡ Fault.Memory) ⊎ ((line : ℕ) × (fault ≡ Fault.Schedule line) × IsRefusedAt plan.now schedule.now line)) }
{
    match followed(alloc, plan, schedule)? {
        Ok(settled) => Ok(settled),
        Err(refused) => Err(Fault::Schedule(refused.number)),
    }
}

/// The first line of the schedule's text that the word machine refuses, and why: the machine doesn't
/// allow the event, or it gives another reply, which is returned. `check` and `replay` fail with fault
/// 14 at the same line. `None` if the machine takes all lines. Takes as long as `check`.
pub fn explain(
    alloc: Global,
    plan: &Plan,
    schedule: &Schedule,
) -> Result<Option<RefusedLine>, AllocError>
    ensures refused { IfOk result (λ found. IfSome found (IsExplained plan.now schedule.now)) }
    ensures none { IfOk result (λ found. IfNone found ((settled : Bool) × IsChecked plan.now schedule.now settled)) }
{
    Ok(followed(alloc, plan, schedule)?.err())
}

/// Whether all regions to be filled are settled after the last line, or the refused line.
fn followed(
    alloc: Global,
    plan: &Plan,
    schedule: &Schedule,
) -> Result<Result<bool, RefusedLine>, AllocError>
    ensures taken { IfOk result (λ answer. IfOk answer (IsChecked plan.now schedule.now)) }
    ensures refused { IfOk result (λ answer. IfErr answer (IsExplained plan.now schedule.now)) }
{
    let mut ledger = Ledger::new(alloc, plan, schedule.workers())?;
    for (i, line) in schedule.lines().iter().enumerate() {
        if let Err(cause) = ledger.follow(plan, line.line()) {
            let number = i as u64 + 2;
            return Ok(Err(RefusedLine { number, cause }));
        }
    }
    Ok(Ok(ledger.is_done()))
}
