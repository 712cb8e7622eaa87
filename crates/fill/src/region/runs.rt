ghost use Rattle.std.specs.Prelude.{◌≡◌, ◌≤◌};
ghost use Rattle.fill.specs.Runs.{IsNextRun};

use mark_bitmap::Marks;

/// A run of live words, at the addresses `begin..end`.
#[derive(Clone, Copy)]
pub(crate) struct Run {
    pub(crate) begin: u64,
    pub(crate) end: u64,
}

impl Run {
    /// The first run of live words in `from..to`, cut at `to`; empty at `to` if there is none.
    #[inline]
    pub(crate) fn next(marks: &Marks, from: u64, to: u64) -> Run
        requires { from ≤ to }
        ensures { IsNextRun marks.now from to result.begin result.end }
    {
        let begin = marks.next_live_before(from, to).unwrap_or(to);
        let end = marks.next_dead_before(begin, to).unwrap_or(to);
        Run { begin, end }
    }
}
