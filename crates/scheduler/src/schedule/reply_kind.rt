/// The reply of a schedule line, without its number of readers.
#[derive(Clone, Copy)]
pub(crate) enum ReplyKind {
    /// The reply is left open.
    Any,
    Yes,
    No,
    Open,
    Outside,
    Claimed,
    Filled,
    Last,
    NotLast,
    Done,
    All,
    More,
}
