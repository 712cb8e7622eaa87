//! A boxed value that is read through shares, and is whole again once each share is back.
//!
//! [`share_out`] takes a box apart into a [`Deed`] and a [`ReadShare`] that has all 2^63 parts of its value. Shares are split
//! and joined, and each reads the value, also from other threads. Nobody else has the value until [`unite`] gives the box
//! back, for the deed and all parts: so who writes it then knows that nobody reads it. How many parts a share has is in
//! contracts alone. No part is counted while the program runs, so no call tests anything, fails, or is an atomic step.
//!
//! Deeds and shares of one value have the same `origin`. Who has to know it before there is a value makes a [`Term`] first,
//! and shares the value out for it by [`share_out_for`].
//!
//! Proved: all of that; each read sees the value that was shared out, and so does the box that comes back; its memory is
//! neither freed nor reused while a share is held; shares and deeds may move to other threads. No contract says that
//! memory is freed: if a deed or a share is dropped, the value stays allocated for good.
//!
//! The modules `deed` and `share` have the raw pointers. All functions but `share_out` are proved by hand.
#![tactic(auto)]

mod deed;
mod share;
mod term;

pub use deed::{Deed, share_out, share_out_for, unite};
pub use share::ReadShare;
pub use term::Term;
