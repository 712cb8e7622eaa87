//! Draws a lane that has too many regions for one bar each: the share of each cell's lines in which the worker has a
//! region in hand, by colour.
ghost use Rattle.std.specs.Prelude.{◌≤◌, ◌^◌};

use super::{BAR_HEIGHT, LANE_WIDTH, LEFT};
use crate::timeline::Timeline;
use crate::timeline::lane::Lane;
use crate::timeline::scale::Scale;
use crate::timeline::share::Share;
use std::alloc::{AllocError, Global};

/// The largest number of cells of all lanes, so that a drawing stays small.
const MAX_CELLS: u64 = 2000;

/// The largest number of cells of a lane.
const MAX_LANE_CELLS: u64 = 275;

/// Writes the cells of the lane of a worker, at height `y`.
pub(crate) fn draw_density(
    alloc: Global,
    svg: &mut String,
    timeline: &Timeline,
    worker: u32,
    y: u64,
) -> Result<(), AllocError> {
    let lines = timeline.schedule.len() as u64;
    let workers = u64::from(timeline.schedule.workers());
    let scale = Scale {
        lines,
        cells: lines.min(MAX_LANE_CELLS).min(MAX_CELLS / workers.max(1)),
    };
    let lane = Lane::of(alloc, timeline, worker, scale)?;
    for (cell, busy) in lane.busy.iter().enumerate() {
        draw_cell(svg, scale, cell as u64, *busy, y)?;
    }
    Ok(())
}

/// Writes a cell, unless the worker has no region in hand in its lines.
fn draw_cell(
    svg: &mut String,
    scale: Scale,
    cell: u64,
    busy: u64,
    y: u64,
) -> Result<(), AllocError> {
    let first = scale.start_of(cell);
    let next = scale.start_of(cell.saturating_add(1));
    let lines = next.saturating_sub(first);
    let class = match Share::of(busy, lines) {
        Share::Never => return Ok(()),
        Share::Seldom => "s1",
        Share::Half => "s2",
        Share::Mostly => "s3",
        Share::Always => "s4",
    };
    let (x, right) = (left_of(scale, cell), left_of(scale, cell.saturating_add(1)));
    let (width, last, held) = (
        right.saturating_sub(x),
        next.saturating_sub(1),
        busy.min(lines),
    );
    writeln!(
        svg,
        r#"<rect class="{class}" x="{x}" y="{y}" width="{width}" height="{BAR_HEIGHT}"><title>lines {first} to {last}: {held} of {lines}</title></rect>"#
    )
}

/// The x coordinate of a cell.
fn left_of(scale: Scale, cell: u64) -> u64 {
    let offset = cell.saturating_mul(LANE_WIDTH) / scale.cells.max(1);
    LEFT.saturating_add(offset)
}
