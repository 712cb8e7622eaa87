//! A table of the first call that grants, completes or settles each region.
ghost use Rattle.std.specs.Prelude.{◌≡◌, ◌≢◌, ◌<◌, ◌≤◌, ◌^◌, ℕ, IfOk, None, Some, length, slice_index_or};
ghost use Rattle.schedule_timeline.specs.Timeline.{call_at, does, first_call};
ghost use Rattle.schedule_timeline.specs.FirstCalls.{AreFirst, earlier_of};
ghost use Rattle.schedule_timeline.specs.Log.{HasAllReplies, log_of};

use super::call::Call;
use super::deed::Deed;
use super::scale::FIRST_LINE;
use crate::entry_at::entry_at;
use scheduler::{Entry, Schedule};
use std::alloc::{AllocError, Global};

/// For each region below `regions`, the first call that does `deed` to it. Each line of the schedule has its reply.
pub(crate) fn first_calls(
    alloc: Global,
    schedule: &Schedule,
    regions: u32,
    deed: Deed,
) -> Result<Vec<Option<Call>>, AllocError>
    requires replies { HasAllReplies schedule.now }
    requires few { length schedule.now.lines < 2 ^ 63 }
    ensures { IfOk result (λ calls. AreFirst deed regions (log_of schedule.now) calls.items) }
{
    let mut calls = vec![in alloc; None; regions as usize]?;
    for i in 0..schedule.len() {
        let entry = entry_at(schedule, i);
        if let Some(region) = deed.region(&entry) {
            note(&mut calls, region, call_at(i, &entry));
        }
    }
    Ok(calls)
}

/// Enters a call of a region in a table, unless the table has an earlier one or no such region.
fn note(calls: &mut [Option<Call>], region: u32, call: Call)
    ensures all { length calls.new ≡ length calls.old }
    ensures others { (r : ℕ) → r ≢ region → slice_index_or calls.new r None ≡ slice_index_or calls.old r None }
    ensures first { region < length calls.old → slice_index_or calls.new region None ≡ earlier_of (slice_index_or calls.old region None) call }
{
    let at = region as usize;
    if at < calls.len() && calls[at].is_none() {
        calls[at] = Some(call);
    }
}

/// The call of entry `i` of a history.
pub(crate) fn call_at(i: usize, entry: &Entry) -> Call
    requires { i < 2 ^ 63 }
    ensures { result ≡ call_at (i, entry.now) }
{
    Call {
        worker: entry.worker,
        line: i as u64 + FIRST_LINE,
    }
}

/// The call of a region in a table.
pub(crate) fn call_of(calls: &[Option<Call>], region: u32) -> Option<Call>
    ensures { result ≡ slice_index_or calls.now region None }
{
    calls.get(region as usize).copied().unwrap_or(None)
}
