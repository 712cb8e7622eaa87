//! What stops a marking.
use std::error::Error;
use std::fmt;

/// A reached object has no sound header: the word there has no size, or as many references as words, or the object would end
/// beyond the heap.
#[derive(Debug, Clone, Copy, PartialEq, Eq)]
pub struct Unsound {
    /// The address of the object, in words.
    pub address: u64,
}

impl fmt::Display for Unsound {
    fn fmt<W: fmt::Write>(&self, f: &mut fmt::Formatter<W>) -> fmt::Result {
        write!(
            f,
            "the object at address {} has no sound header",
            self.address
        )
    }
}

impl Error for Unsound {}
