/// Where the pairs of each region are in a table of moves.
pub struct Places {
    /// The number of pairs.
    pub(crate) pairs: usize,
    /// For each region, the index of the first pair whose destination isn't below it.
    pub(crate) first: Vec<usize>,
    /// For each region, the indices of the pairs by which others read it, at most two; `pairs` stands for none.
    pub(crate) readers: Vec<(usize, usize)>,
}

impl Drop for Places {
    fn drop(self) {
        let Self {
            pairs: _,
            first,
            readers,
        } = self;
    }
}
