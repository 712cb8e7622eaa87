/// The state of the fill of a region, with the worker that claimed it.
#[derive(Clone, Copy, PartialEq, Eq)]
pub(crate) enum Progress {
    Unclaimed,
    Filling(u32),
    Completed(u32),
    Settled(u32),
}
