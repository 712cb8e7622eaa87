use crate::area::Area;

/// Consecutive words of a heap, which a map shows as one character or rectangle.
#[derive(Debug, Clone, Copy, PartialEq, Eq)]
pub struct Cell {
    /// The address of its first word.
    pub from: u64,
    /// The address after its last word.
    pub to: u64,
    /// The number of its live words.
    pub live: u64,
    /// The part of the heap in which most of its words lie.
    pub area: Area,
}
