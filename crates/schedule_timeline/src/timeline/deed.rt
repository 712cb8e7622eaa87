ghost use Rattle.std.specs.Prelude.{◌≡◌, ℕ};
ghost use Rattle.scheduler.specs.History.{is_settling_of};
ghost use Rattle.scheduler.specs.Whole.{is_completion_of};
ghost use Rattle.schedule_timeline.specs.Timeline.{does, granted_region, is_region};

use scheduler::{Entry, Event, Reply};

/// What a call does to a region.
#[derive(Clone, Copy)]
pub(crate) enum Deed {
    /// A claim that is granted.
    Grant,
    Completion,
    Settling,
}

impl Deed {
    /// The region to which a call does this, if any.
    pub(crate) fn region(self, entry: &Entry) -> Option<u32>
        ensures { (r : ℕ) → does self r entry.now ≡ is_region r result }
    {
        match self {
            Deed::Grant => granted_region(entry),
            Deed::Completion => completed_region(entry.event),
            Deed::Settling => settled_region(entry.event),
        }
    }
}

/// The region that a call grants, if any.
pub(crate) fn granted_region(entry: &Entry) -> Option<u32>
    ensures value { result ≡ granted_region entry.now.event entry.now.reply }
    ensures deed { (r : ℕ) → does Deed.Grant r entry.now ≡ is_region r result }
{
    match (entry.event, entry.reply) {
        (Event::Claim(region), Reply::Yes) => Some(region),
        _ => None,
    }
}

/// The region that an event completes, if any.
fn completed_region(event: Event) -> Option<u32>
    ensures { (r : ℕ) → is_completion_of r event ≡ is_region r result }
{
    match event {
        Event::Complete(region) => Some(region),
        _ => None,
    }
}

/// The region that an event settles, if any.
fn settled_region(event: Event) -> Option<u32>
    ensures { (r : ℕ) → is_settling_of r event ≡ is_region r result }
{
    match event {
        Event::Settle(region) => Some(region),
        _ => None,
    }
}
