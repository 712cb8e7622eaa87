//! The queues of the regions that workers have found ready to be filled.
//!
//! [`Ready`] holds the regions that one worker has found ready, first in first out. Its room is reserved when it is made,
//! so that no push allocates. Others steal from it through a [`Thief`]; [`Ready::take`] tries the worker's own queue and
//! then all others.
//!
//! # What is proved
//!
//! `push` returns true exactly while fewer numbers than the room were pushed, and then the number is queued after the
//! earlier ones; what `pop` returns was pushed.
//!
//! # What is only tested, or not stated
//!
//! That what a `Thief` takes was pushed, and that each number is taken once: a test steals with two threads. The order in
//! which `take` tries the queues.
#![tactic(auto)]

mod own_queue;
mod ready;
mod shared_queue;

pub use ready::{Ready, Thief};
