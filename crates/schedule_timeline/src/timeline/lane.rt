use super::Timeline;
use super::bar::Bar;
use super::call::Call;
use super::mark::Mark;
use super::scale::Scale;
use std::alloc::{AllocError, Global};

/// The work of one worker, cell by cell.
#[derive(Drop)]
pub(crate) struct Lane {
    worker: u32,
    scale: Scale,
    /// For each cell, the number of its lines in which the worker has a region in hand, added up over the regions.
    pub(crate) busy: Vec<u64>,
    pub(crate) marks: Vec<Mark>,
}

impl Lane {
    /// The lane of a worker. It allocates two elements a cell.
    pub(crate) fn of(
        alloc: Global,
        timeline: &Timeline,
        worker: u32,
        scale: Scale,
    ) -> Result<Lane, AllocError> {
        let cells = scale.cells as usize;
        let mut lane = Lane {
            worker,
            scale,
            busy: vec![in alloc; 0; cells]?,
            marks: vec![in alloc; Mark::Nothing; cells]?,
        };
        lane.add_bars(&timeline.bars);
        lane.add_freeings(timeline);
        Ok(lane)
    }

    fn add_bars(&mut self, bars: &[Bar]) {
        for bar in bars {
            if bar.claimed.worker == self.worker {
                self.add_bar(bar);
            }
        }
    }

    /// Adds the marks of drains that free a region and of claims of such regions.
    fn add_freeings(&mut self, timeline: &Timeline) {
        for freeing in timeline.freeings.iter() {
            self.mark(freeing.drain, Mark::Freeing);
            if let Some(taken) = freeing.taken {
                self.mark(taken, Mark::Taking);
            }
        }
    }

    /// Adds the marks of a bar, and its lines to the cells that it covers.
    fn add_bar(&mut self, bar: &Bar) {
        self.mark(bar.claimed, Mark::Claim);
        let end = bar.last_line(self.scale.lines);
        if let Some(settled) = bar.settled {
            self.mark(settled, Mark::Settling);
        }
        let from = self.scale.cell_of(bar.claimed.line) as usize;
        for cell in from..self.busy.len() {
            let begin = self.scale.start_of(cell as u64).max(bar.claimed.line);
            let next = self
                .scale
                .start_of(cell as u64 + 1)
                .min(end.saturating_add(1));
            if next <= begin {
                break;
            }
            self.busy[cell] = self.busy[cell].saturating_add(next - begin);
        }
    }

    /// Adds the mark of a call, if it is a call of this worker.
    fn mark(&mut self, call: Call, mark: Mark) {
        let cell = self.scale.cell_of(call.line) as usize;
        if call.worker == self.worker && cell < self.marks.len() {
            self.marks[cell] = self.marks[cell].with(mark);
        }
    }
}
