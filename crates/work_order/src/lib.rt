//! The parallelism that the order of work of a collection allows.
//!
//! A region may be overwritten only once all regions that read it have copied their words. So regions wait for each
//! other, and the longest chain of such waits bounds the speed-up of many workers. [`WorkOrder::of`] computes it from a
//! plan. `docs/SCHEDULER.md`, "The longest chain", defines what is counted, with an example.
//!
//! **Proved**, for all plans: the chain's words are those of a chain, and no chain has more; the total is the number of
//! words below the new top; the speed-up and the number of workers follow from both as in `specs/WorkOrder.antt`.
//! **Only tested**: that allocations succeed when memory is available, and that the time is linear in the regions. See
//! the README.
#![tactic(auto)]

mod chains;
mod work_order;

pub use work_order::WorkOrder;
