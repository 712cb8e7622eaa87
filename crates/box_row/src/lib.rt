//! Values side by side in one block of memory, each given out as a box in its place.
//!
//! [`Row::of`] moves the values of a list into a block of their own. [`Row::pop`] gives out the last that is in as a `Box` with
//! the allocator [`InRow`], which says in which row it lies and where; [`Row::push`] takes back the one that was popped last of
//! those that are out. So no value has an allocation of its own, and none is moved while it is out. Once all are back,
//! [`Row::into_values`] gives the list back, in its room.
//!
//! Proved: each box is the value of its place, and a value that was written while it was out is in the list; the block
//! isn't freed while a value is out, nor twice; boxes may go to other threads where their values may, and so may the row.
//! `pop`, `push` and `into_values` take no memory and can't fail. No contract says that memory is freed: if a row is dropped
//! while a value is out, its block stays allocated for good. If a box is dropped, so is its value, and its row never becomes
//! whole again.
//!
//! The modules `rest` and `right` have the raw pointers. Each of their six functions is proved by hand, and so are the four
//! of the allocator, in `place`.
#![tactic(auto)]

mod moves;
mod place;
mod rest;
mod right;
mod row;

pub use place::InRow;
pub use row::Row;
