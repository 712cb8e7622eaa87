//! `RegionBoard`: a board whose slots keep the regions and the rights to read them.

mod calls;
mod finishing;
mod freeing;
mod gather;
pub(crate) mod holding;
pub(crate) mod laws;
mod listing;
pub(crate) mod making;
mod meeting;
pub(crate) mod places;
pub(crate) mod region_board;
pub(crate) mod region_ticket;
mod seat;
mod settled;
mod sharing;
mod slot_values;
mod taking_back;
mod uniting;
pub(crate) mod whole;
