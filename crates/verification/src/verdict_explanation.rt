use crate::difference_tally::OtherWord;

/// A live object and its new address.
#[derive(Debug, Clone, Copy, PartialEq, Eq)]
pub struct Moved {
    pub old: u64,
    pub new: u64,
}

/// What a word of the compaction is.
#[derive(Debug, Clone, Copy, PartialEq, Eq)]
pub enum Part {
    /// The header of this object.
    Header(Moved),
    /// This field of the object, from 0.
    Field(Moved, u64),
    /// This word after the object's references, from 0.
    Data(Moved, u64),
    /// A word of a filler in the dense prefix.
    Filler,
    /// A word at or above the new top.
    Free,
}

/// Where a reference leads that was found in place of another.
#[derive(Debug, Clone, Copy, PartialEq, Eq)]
pub enum Lead {
    Null,
    /// It lies above the heap.
    Outside,
    /// It is the reference from before the collection: it was not redirected.
    Unchanged,
    /// It leads to a word that is this in the compaction.
    To(Part),
}

/// Where the word that was found stands, too.
#[derive(Debug, Clone, Copy, PartialEq, Eq)]
pub enum Origin {
    /// It was at the same address before the collection.
    Before,
    /// The compaction has it at the same index of this live object, which touches the one that is expected.
    Neighbour(Moved),
}

/// A word that differs from the compaction's, and what the compaction has there.
#[derive(Debug, Clone, Copy, PartialEq, Eq)]
pub struct ExplainedWord {
    pub word: OtherWord,
    pub part: Part,
    /// Where the word that was found leads, if the compaction has a reference there.
    pub lead: Option<Lead>,
    /// Where the word that was found stands, too, if it isn't 0.
    pub origin: Option<Origin>,
}

/// How the words of a heap differ from those of the compaction that it should be.
#[derive(Drop)]
pub struct Explanation {
    /// The number of words that differ.
    pub count: u64,
    /// The address of the last of them.
    pub last: Option<u64>,
    /// The first of them, at most [`LISTED`](crate::LISTED), ascending.
    pub first: Vec<ExplainedWord>,
    /// The first live address that differs, of as many as both lists have.
    pub live: Option<OtherLive>,
    /// The first root that differs, if the numbers of roots are equal.
    pub root: Option<OtherRoot>,
}

/// A live address that differs from the compaction's.
#[derive(Debug, Clone, Copy, PartialEq, Eq)]
pub struct OtherLive {
    pub index: u64,
    pub expected: u64,
    pub found: u64,
}

/// A root that differs from the compaction's.
#[derive(Debug, Clone, Copy, PartialEq, Eq)]
pub struct OtherRoot {
    pub index: u64,
    pub expected: u64,
    pub found: u64,
    /// Where the root that was found leads.
    pub lead: Lead,
}

/// Where the dense prefix ends, and where it would end by another allowance.
#[derive(Debug, Clone, Copy, PartialEq, Eq)]
pub struct OtherPrefix {
    pub expected: u64,
    pub found: u64,
}
