/// The part of a heap in which most words of a cell lie. Of parts of the same size the lower one counts.
#[derive(Debug, Clone, Copy, PartialEq, Eq)]
pub enum Area {
    /// In the dense prefix; all words of the cell are live.
    Prefix,
    /// In the dense prefix; some words of the cell are dead, which become fillers.
    Fillers,
    /// Between the end of the dense prefix and the end of the last live object. Live words here move.
    Moving,
    /// Above all live objects: no word is live.
    Free,
}
