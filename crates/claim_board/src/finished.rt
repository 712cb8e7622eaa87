use crate::rule::Place;
use std::snapshot::Snapshot;

/// A finished board: all its regions to be filled are settled. Contracts see its whole history. The
/// value takes no memory.
#[derive(Drop)]
pub struct Finished {
    pub(crate) last: Snapshot<Place>,
}
