/// A worker's request or report to the scheduler. Regions are numbered from 0; in a pair the
/// destination comes first.
#[derive(Clone, Copy, Debug, PartialEq, Eq)]
pub enum Event {
    /// Requests the right to fill the region.
    Claim(u32),
    /// Asks for the status of the region.
    Look(u32),
    /// Reports that all words that the first region takes from the second are copied.
    Drain(u32, u32),
    /// Reports that all words of the region are written.
    Complete(u32),
    /// Reports that the worker is done with the region.
    Settle(u32),
    /// Asks whether all regions to be filled are settled.
    Poll,
    /// Reports that this many more words of the region are written. The scheduler doesn't count them.
    Copy(u32, u32),
}

/// The scheduler's present state doesn't allow the event.
#[derive(Clone, Copy, Debug, PartialEq, Eq)]
pub struct Illegal;
