ghost use Rattle.std.specs.Prelude.{◌≤◌};

/// The line of the first call in the text of a schedule.
pub(crate) const FIRST_LINE: u64 = 2;

/// Maps the lines of a schedule to the cells of a lane or to the points of a drawing.
#[derive(Clone, Copy)]
pub(crate) struct Scale {
    /// The number of lines after the header.
    pub lines: u64,
    /// The number of cells or points.
    pub cells: u64,
}

impl Scale {
    /// The cell of a line. Cell `i` begins at `i * lines / cells`, rounded down, lines counted from 0.
    pub(crate) fn cell_of(self, line: u64) -> u64 {
        let place = line.saturating_sub(FIRST_LINE);
        let reached = place.saturating_add(1).saturating_mul(self.cells);
        let cell = reached.saturating_sub(1) / self.lines.max(1);
        cell.min(self.cells.saturating_sub(1))
    }

    /// The point of a line. Several lines may share a point.
    pub(crate) fn point_of(self, line: u64) -> u64
        ensures { result ≤ self.cells }
    {
        let place = line.saturating_sub(FIRST_LINE);
        let point = place.saturating_mul(self.cells) / self.lines.max(1);
        point.min(self.cells)
    }

    /// The first line of a cell; of the cell after the last one, the line after the last line.
    pub(crate) fn start_of(self, cell: u64) -> u64 {
        let place = cell.saturating_mul(self.lines) / self.cells.max(1);
        place.saturating_add(FIRST_LINE)
    }
}
