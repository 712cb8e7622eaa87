/// What a search compares with the compaction, one by one.
#[derive(Clone, Copy)]
pub enum Items {
    /// The live objects, each with the dead words before it.
    Objects,
    /// The live addresses.
    Live,
    /// The roots.
    Roots,
}
