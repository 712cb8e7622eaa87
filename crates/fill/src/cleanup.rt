//! What is left to do once all regions are filled.

pub(crate) mod clear;
pub(crate) mod deferred;
mod deferred_parts;
mod heap;
pub(crate) mod updater;
