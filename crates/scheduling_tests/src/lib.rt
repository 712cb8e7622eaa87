//! The tests of `scheduler`, `history` and `claim_board`, through their public calls only.
//!
//! They are in a crate of their own so that checking them doesn't prove those again.
#![tactic(auto)]

#[cfg(test)]
mod boards;
#[cfg(test)]
mod checks;
#[cfg(test)]
mod cleared_boards;
#[cfg(test)]
mod recorder;
#[cfg(test)]
mod region_boards;
#[cfg(test)]
mod replays;
#[cfg(test)]
mod rooted;
#[cfg(test)]
mod schedulers;
#[cfg(test)]
mod tables;
#[cfg(test)]
mod threads;
#[cfg(test)]
mod tickets;
