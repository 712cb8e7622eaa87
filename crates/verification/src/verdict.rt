/// How an image compares with the compaction that it should be. The first difference decides.
#[derive(Debug, Clone, Copy, PartialEq, Eq)]
pub enum Verdict {
    /// It is the compaction.
    Same,
    /// The region log, the number of words, the allowance, the number of live objects, the version or the number of
    /// roots differs.
    Shape,
    /// The word at this address differs, the lowest such address.
    Word(u64),
    /// All words agree; the live address at this index, from 0, differs, the lowest such index.
    Live(u64),
    /// All words and live addresses agree; the root at this index, from 0, differs, the lowest such index.
    Root(u64),
}
