use super::call::Call;

/// A drain with the reply `Last`, which frees its source: the source has no pending readers, and may be claimed.
#[derive(Debug, Clone, Copy, PartialEq, Eq)]
pub struct Freeing {
    pub drain: Call,
    /// The region that the words are copied to.
    pub destination: u32,
    /// The region that the words come from, now free.
    pub source: u32,
    /// The call that grants the source, if any.
    pub taken: Option<Call>,
}
