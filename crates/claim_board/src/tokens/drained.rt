/// The reply to a drain: whether the source has pending readers left.
#[derive(Clone, Copy, Debug, PartialEq, Eq)]
pub enum Drained {
    /// The source has no pending readers left.
    Last,
    /// The source has another pending reader.
    NotLast,
}
