//! Tests of the public calls of `heap_dump`, `dump_graph`, `heap_maker`, `heap_text` and `heap_map`.
//!
//! They are a crate of their own, so that a change of a test doesn't prove these crates again.
#![tactic(auto)]

#[cfg(test)]
mod checks;
#[cfg(test)]
mod dumps;
#[cfg(test)]
mod graphs;
#[cfg(test)]
mod heaps;
#[cfg(test)]
mod names;
#[cfg(test)]
mod smaller;
#[cfg(test)]
mod texts;
