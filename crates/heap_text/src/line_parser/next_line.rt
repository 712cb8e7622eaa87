//! Which line of a text the parser expects next.

/// The kind of the next line. [`NextLine::Heap`] repeats up to the end of the text.
#[derive(Clone, Copy)]
pub(crate) enum NextLine {
    /// `heap version`.
    Version,
    /// `region-log`.
    RegionLog,
    /// `words`.
    Words,
    /// `allowance`.
    Allowance,
    /// `roots`, in version 2.
    Roots,
    /// An object, a dead run, or the end of the text.
    Heap,
}
