//! Heaps with all or with the reachable objects of a dump, as images.

pub(crate) mod draft;
pub(crate) mod packed;
mod roots;
mod weak;
