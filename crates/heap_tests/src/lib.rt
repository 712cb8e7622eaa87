//! Tests of the public calls of `raw_region`, `thread_row`, `read_shares`, `box_row`, `object_coding`, `coded_marking`,
//! `heap_image` and `mark_bitmap`.
//!
//! They are in a crate of their own so that checking them doesn't prove those crates again.
#![tactic(auto)]

#[cfg(test)]
mod answers;
#[cfg(test)]
mod bits;
#[cfg(test)]
mod boxes;
#[cfg(test)]
mod checks;
#[cfg(test)]
mod coded_marks;
#[cfg(test)]
mod codings;
#[cfg(test)]
mod images;
#[cfg(test)]
mod marks;
#[cfg(test)]
mod regions;
#[cfg(test)]
mod rows;
#[cfg(test)]
mod shares;
