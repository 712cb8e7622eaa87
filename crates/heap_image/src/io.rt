//! Images as bytes, in memory and on devices.

pub(crate) mod decoding;
pub(crate) mod encoding;
pub(crate) mod front;
pub(crate) mod read;
pub(crate) mod write;
