pub(crate) mod end;
pub(crate) mod fill_left;
mod fill_rest;
pub(crate) mod fill_task;
pub(crate) mod held_region;
pub(crate) mod queues;
pub(crate) mod shared;
pub(crate) mod start_line;
pub(crate) mod worker;

/// The workers of a collection, and what they run on.
pub struct Workers<'a, G, T, W> {
    /// How many there are, 1 to 64.
    pub count: u32,
    /// What admits their fills.
    pub gate: &'a G,
    /// What starts their threads.
    pub threads: &'a T,
    /// How they wait for each other.
    pub wait: &'a W,
}
