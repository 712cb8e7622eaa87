//! The tests of `region_cells` and `fill`, through their public calls alone.
//!
//! They are in a separate crate so that a check of them doesn't prove those libraries again.
#![tactic(auto)]

#[cfg(test)]
mod cells;
#[cfg(test)]
mod checks;
#[cfg(test)]
mod fills;
#[cfg(test)]
mod heaps;
#[cfg(test)]
mod kept;
#[cfg(test)]
mod memory;
#[cfg(test)]
mod overwritten;
#[cfg(test)]
mod parts;
#[cfg(test)]
mod readers;
#[cfg(test)]
mod recorded;
#[cfg(test)]
mod setups;
