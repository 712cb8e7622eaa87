use super::line_cause::LineCause;

/// The first line of a schedule's text that the word machine refuses.
#[derive(Clone, Copy, Debug, PartialEq, Eq)]
pub struct RefusedLine {
    /// The line's number in the text, from 1. Line 1 is the header.
    pub number: u64,
    /// Why the machine refuses the line.
    pub cause: LineCause,
}
