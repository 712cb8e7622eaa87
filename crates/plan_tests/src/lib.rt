//! Tests of the public calls of `summary` and `coded_redirection`.
//!
//! They are in a crate of their own so that checking them doesn't prove `summary` again.
#![tactic(auto)]

#[cfg(test)]
mod addresses;
#[cfg(test)]
mod checks;
#[cfg(test)]
mod coded_references;
#[cfg(test)]
mod known_heaps;
#[cfg(test)]
mod redirected;
#[cfg(test)]
mod regions;
