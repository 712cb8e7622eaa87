//! Small callers of the library, whose contracts are proved by the clauses of its public calls alone. Pages quote them.
#![tactic(auto)]

mod bytes;
mod collections;
mod gates;
mod images;
mod schedules;
mod words;

pub use bytes::compact_bytes;
pub use collections::text_after;
pub use gates::{Spares, collect_unless_filled};
pub use images::copy_image;
pub use schedules::{record_two_workers, replay_schedule};
pub use words::{Cells, compact_cells};
