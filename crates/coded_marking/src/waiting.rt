//! Objects whose references are to be followed.

/// A marked object whose references are still to be followed.
#[derive(Clone, Copy)]
pub(crate) struct Waiting {
    pub(crate) address: u64,
    /// The word at this address.
    pub(crate) header: u64,
}
