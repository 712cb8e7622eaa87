//! When a worker has no region in hand.
use super::Timeline;
use super::scale::FIRST_LINE;

/// The lines in which a worker has no region in hand.
#[derive(Clone, Copy)]
pub(crate) struct Idle {
    /// Their number.
    pub lines: u64,
    /// The longest part of them without another line between.
    pub longest: Stretch,
}

/// Lines from one up to, and without, another.
#[derive(Clone, Copy)]
pub(crate) struct Stretch {
    pub from: u64,
    pub end: u64,
}

impl Stretch {
    pub(crate) fn lines(self) -> u64 {
        self.end.saturating_sub(self.from)
    }
}

impl Idle {
    /// The idle lines of a worker. The bars are in the order of their claims.
    pub(crate) fn of(timeline: &Timeline, worker: u32) -> Idle {
        let lines = timeline.schedule.len() as u64;
        let mut from = FIRST_LINE;
        let mut idle = Idle {
            lines: 0,
            longest: Stretch { from, end: from },
        };
        for bar in timeline.bars.iter() {
            if bar.claimed.worker == worker {
                idle.add(Stretch {
                    from,
                    end: bar.claimed.line,
                });
                from = from.max(bar.last_line(lines).saturating_add(1));
            }
        }
        idle.add(Stretch {
            from,
            end: lines.saturating_add(FIRST_LINE),
        });
        idle
    }

    fn add(&mut self, stretch: Stretch) {
        self.lines = self.lines.saturating_add(stretch.lines());
        if self.longest.lines() < stretch.lines() {
            self.longest = stretch;
        }
    }
}
