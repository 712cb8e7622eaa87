/// Live words that keep their order when they move.
#[derive(Debug, Clone, Copy, PartialEq, Eq)]
pub struct Band {
    /// The address from which on they lie.
    pub from: u64,
    /// The address below which they lie.
    pub to: u64,
    /// Their number.
    pub words: u64,
    /// Where the first one goes. From the end of the dense prefix on, the others follow without a gap.
    pub target: u64,
    /// Whether all stay where they are.
    pub stays: bool,
}
