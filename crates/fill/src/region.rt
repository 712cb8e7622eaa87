//! The fill of one region.

mod after_prefix;
pub(crate) mod filling;
pub(crate) mod guide;
mod in_prefix;
mod runs;
pub(crate) mod site;
mod span;
