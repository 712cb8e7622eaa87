use scheduler::Reply;

/// Why the word machine refuses a line of a schedule.
#[derive(Clone, Copy, Debug, PartialEq, Eq)]
pub enum LineCause {
    /// The machine doesn't allow the event.
    NotAllowed,
    /// The machine gives this reply, and the line has another.
    OtherReply(Reply),
}
