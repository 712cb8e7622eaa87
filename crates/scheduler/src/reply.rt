/// The scheduler's reply to an event.
#[derive(Clone, Copy, Debug, PartialEq, Eq)]
pub enum Reply {
    /// To a claim: granted, the worker may fill the region.
    Yes,
    /// To a claim: refused, and nothing has changed.
    No,
    /// To a look: unclaimed and to be filled, with this number of pending readers.
    Open(u32),
    /// To a look: not to be filled, with this number of pending readers.
    Outside(u32),
    /// To a look: claimed and not yet filled.
    Claimed,
    /// To a look: all words of the region are written.
    Filled,
    /// To a drain: the source has no pending readers left.
    Last,
    /// To a drain: the source has another pending reader.
    NotLast,
    /// To a completion or a copy.
    Done,
    /// To a settling or a poll: all regions to be filled are settled.
    All,
    /// To a settling or a poll: some region to be filled isn't settled.
    More,
}
