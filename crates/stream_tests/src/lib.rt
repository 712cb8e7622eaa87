//! The tests of `collector`, through its public calls alone: streams, records without a gate, queues and failing
//! allocations.
//!
//! The tests of its gates are in `collector_tests`, which is proved at the same time.
#![tactic(auto)]

#[cfg(test)]
mod checks;
#[cfg(test)]
mod devices;
#[cfg(test)]
mod holes;
#[cfg(test)]
mod keeping;
#[cfg(test)]
mod memory;
#[cfg(test)]
mod queues;
#[cfg(test)]
mod record_memory;
#[cfg(test)]
mod record_streams;
#[cfg(test)]
mod recordings;
#[cfg(test)]
mod streams;
#[cfg(test)]
mod texts;
#[cfg(test)]
mod worker_numbers;
