//! The word machine: runs of schedules, without a heap and with one.

mod carrier;
pub(crate) mod checking;
mod ledger;
pub(crate) mod line_cause;
mod origins;
mod references;
pub(crate) mod refused_line;
pub(crate) mod replayed;
pub(crate) mod replaying;
pub(crate) mod replied;
pub(crate) mod replying;
