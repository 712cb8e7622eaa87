/// A call of a worker, by its line in the text of the schedule. Line 1 is the header, so the first call is in line 2.
#[derive(Debug, Clone, Copy, PartialEq, Eq)]
pub struct Call {
    pub worker: u32,
    pub line: u64,
}
