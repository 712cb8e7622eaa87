use super::call::Call;

/// The time that one worker has one region in hand: from the call that grants it to the call that settles it.
#[derive(Debug, Clone, Copy, PartialEq, Eq)]
pub struct Bar {
    pub region: u32,
    /// The call that grants it.
    pub claimed: Call,
    /// The first call that completes it, if any.
    pub completed: Option<Call>,
    /// The first call that settles it, if any.
    pub settled: Option<Call>,
}

impl Bar {
    /// The line at which it ends: the line that settles it, or else the last of the schedule's `lines` lines.
    pub(crate) fn last_line(&self, lines: u64) -> u64 {
        match self.settled {
            Some(settled) => settled.line,
            None => lines.saturating_add(1),
        }
    }
}
