ghost use Rattle.std.specs.Prelude.{◌≡◌, ◌<◌, Some, length, slice_get};
ghost use Rattle.schedule_timeline.specs.Log.{HasAllReplies, log_of};

use scheduler::{Entry, Reply, Schedule};

/// The call of line `i`, counted from 0, of a schedule in which each line has its reply.
pub(crate) fn entry_at(schedule: &Schedule, i: usize) -> Entry
    requires replies { HasAllReplies schedule.now }
    requires inside { i < length schedule.now.lines }
    ensures { slice_get (log_of schedule.now) i ≡ Some result }
{
    let (worker, event, reply) = schedule.line(i);
    // Every line has a reply, so the other value never counts.
    let reply = reply.unwrap_or(Reply::Done);
    Entry {
        worker,
        event,
        reply,
    }
}
