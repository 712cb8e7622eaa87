use scheduler::Schedule;

/// A schedule that the word machine takes.
#[derive(Drop)]
pub struct Replied {
    /// The schedule with the machine's reply in each line.
    pub lines: Schedule,
    /// Whether all regions to be filled are settled at the end.
    pub is_settled: bool,
}
