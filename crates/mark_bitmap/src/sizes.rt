//! What says the sizes of live objects.

use heap_image::{Heap, PIECE};

/// What says the sizes of live objects, in words.
#[derive(Drop)]
pub(crate) enum Sizes<'a> {
    /// They are noted in pieces, of which the last may end with zeros.
    Noted(&'a [[u32; PIECE]]),
    /// They are listed.
    Listed(&'a [u32]),
    /// The headers of the heap say them.
    InHeaders(Heap<'a>),
}
