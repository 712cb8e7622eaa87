//! The tests of `collector`, through its public calls alone: collections in memory, gates and verdicts.
//!
//! The tests of its streams, queues and failing allocations are in `stream_tests`, which is proved at the same time.
#![tactic(auto)]

#[cfg(test)]
mod alone;
#[cfg(test)]
mod checks;
#[cfg(test)]
mod explanations;
#[cfg(test)]
mod gates;
#[cfg(test)]
mod heaps;
#[cfg(test)]
mod library;
#[cfg(test)]
mod refusals;
#[cfg(test)]
mod sessions;
#[cfg(test)]
mod slides;
#[cfg(test)]
mod workers;
