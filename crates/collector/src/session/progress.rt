/// How far a share's work has come.
#[derive(Debug, Clone, Copy, PartialEq, Eq)]
pub enum Progress {
    /// All regions to fill are settled.
    Settled,
    /// The turns are used up.
    TurnsUsed,
    /// No region is ready. Another share may make some ready.
    NoneReady,
}
