//! Devices that give and take bytes, numbers as bytes, and bodies: regions of words, with numbers after them.
//!
//! An [`Intake`] gives bytes, an [`Outlet`] takes them, and a [`Store`] has them at offsets; [`FromRead`], [`ToWrite`] and
//! [`FileStore`] adapt std's. A device that has failed is not asked again. [`Outgoing`] writes 64-bit numbers, 8 bytes
//! each; [`read_body_in_order`] reads the regions and numbers of a [`Body`] from an intake, and [`body_at`] reads them
//! from a store in several threads. [`Fault`] numbers the errors of all crates.
//!
//! **Proved**, for all inputs: what a call took of a device, and what it gave, byte for byte; that a body has exactly
//! the numbers whose bytes were taken, and how many bytes are left; that the parts that several threads read make up
//! the whole.
//! **Only tested**: that fault 11 comes only when memory runs out.
#![tactic(auto)]

mod body;
mod body_size;
mod cursor;
mod fault;
mod intake;
mod laws;
mod numbers;
mod outlet;
mod region_source;
mod side_by_side;
mod store;

pub use body::{Body, read_body_in_order};
pub use body_size::BodySize;
pub use fault::Fault;
pub use intake::{Failed, FromRead, Intake, fill};
pub use laws::pieces_sent;
pub use numbers::outgoing::Outgoing;
pub use numbers::{u32_at, u64_at};
pub use outlet::{Outlet, ToWrite, give_all};
pub use side_by_side::{Extent, body_at};
pub use store::{FileStore, Store};
