use super::whole::Whole;
use box_row::InRow;
use raw_region::Region;
use read_shares::{Deed, ReadShare};

/// What a slot holds.
#[derive(Drop)]
pub enum Holding {
    /// The right by which a destination reads its source.
    Share(ReadShare<Region>),
    /// A region with its original words: the deed, and the parts that nobody reads with.
    Original(Deed<Region, InRow>, ReadShare<Region>),
    /// A region with its moved words.
    Moved(Whole),
}
