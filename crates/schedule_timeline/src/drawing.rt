//! Draws a timeline as SVG: a bar for each region, or above [`MAX_BARS`] regions shares of lines by colour.
ghost use Rattle.std.specs.Prelude.{◌≤◌, ◌^◌};

mod density;

use crate::figures::TimelineFigures;
use crate::names::{Names, write_names};
use crate::strips::write_freeing;
use crate::timeline::Timeline;
use crate::timeline::bar::Bar;
use crate::timeline::filled::{regions_of, words_by_worker};
use crate::timeline::freeing::Freeing;
use crate::timeline::idle::Idle;
use crate::timeline::scale::Scale;
use density::draw_density;
use std::alloc::{AllocError, Global};

/// The width of the drawing. Its text is legible in a page that is 375 points wide.
const WIDTH: u64 = 640;

/// The x coordinate at which lanes begin.
pub(crate) const LEFT: u64 = 82;

pub(crate) const LANE_WIDTH: u64 = 550;

/// The y coordinate of the first lane.
const TOP: u64 = 104;

/// The height of a lane with the space below it.
const LANE_HEIGHT: u64 = 34;

/// The height of a lane with the two lines of text that stand below it where there are no bars.
const SHARE_HEIGHT: u64 = 63;

pub(crate) const BAR_HEIGHT: u64 = 20;

/// The largest number of regions that have a bar each.
const MAX_BARS: usize = 200;

/// The largest number of drains. If more drains free a region, some are left out.
const MAX_FREEINGS: usize = 300;

/// The largest number of drains for which a line leads to the claim of the region that they free.
const MAX_LINKS: usize = 40;

pub(crate) fn draw(
    alloc: Global,
    timeline: &Timeline,
    names: Names<'_>,
) -> Result<String, AllocError> {
    let mut svg = String::new(alloc);
    let scale = Scale {
        lines: timeline.schedule.len() as u64,
        cells: LANE_WIDTH,
    };
    begin(&mut svg, timeline, names)?;
    if has_many(timeline) {
        draw_shares(alloc, &mut svg, timeline)?;
    } else {
        draw_bars(&mut svg, timeline, scale)?;
    }
    svg.push_str("</svg>\n")?;
    Ok(svg)
}

/// Whether regions are too many for a bar each.
fn has_many(timeline: &Timeline) -> bool {
    timeline.bars.len() > MAX_BARS
}

/// Writes the lanes with a bar for each region, the drains that free a region, and the legend.
fn draw_bars(svg: &mut String, timeline: &Timeline, scale: Scale) -> Result<(), AllocError> {
    let workers = timeline.schedule.workers();
    for worker in 0..workers {
        draw_lane(svg, timeline, worker, scale)?;
    }
    draw_freeings(svg, &timeline.freeings, scale)?;
    draw_legend(svg, timeline, top_of(workers) + 8)
}

/// Writes the lanes with the shares of lines in which a worker has a region in hand, and the legend.
fn draw_shares(alloc: Global, svg: &mut String, timeline: &Timeline) -> Result<(), AllocError> {
    let words = words_by_worker(alloc, &timeline.schedule)?;
    let workers = timeline.schedule.workers();
    for worker in 0..workers {
        let words = words.get(worker as usize).copied().unwrap_or(0);
        draw_share(alloc, svg, timeline, worker, words)?;
    }
    draw_share_legend(svg, timeline, share_top_of(workers) + 8)
}

/// Writes the lane of a worker with its shares, what it fills, and when it is idle.
fn draw_share(
    alloc: Global,
    svg: &mut String,
    timeline: &Timeline,
    worker: u32,
    words: u64,
) -> Result<(), AllocError> {
    let y = share_top_of(worker);
    begin_lane(svg, worker, y)?;
    draw_density(alloc, svg, timeline, worker, y)?;
    let (regions, base) = (regions_of(timeline, worker), y + 36);
    writeln!(
        svg,
        r#"<text class="t" x="{LEFT}" y="{base}">regions filled: {regions}, words: {words}</text>"#
    )?;
    write!(svg, r#"<text class="t" x="{LEFT}" y="{}">"#, y + 53)?;
    write_idle(svg, Idle::of(timeline, worker), timeline.schedule.len())?;
    svg.push_str("</text>\n")
}

/// Writes when a worker is idle.
fn write_idle(svg: &mut String, idle: Idle, lines: usize) -> Result<(), AllocError> {
    if idle.lines == 0 {
        return svg.push_str("never idle");
    }
    let (from, last) = (idle.longest.from, idle.longest.end.saturating_sub(1));
    if idle.lines == idle.longest.lines() {
        return write!(svg, "idle from line {from} to {last}");
    }
    write!(
        svg,
        "idle in {} of {lines} lines, longest from line {from} to {last}",
        idle.lines
    )
}

/// The x coordinate of a line.
fn left_of(scale: Scale, line: u64) -> u64
    ensures { result ≤ 632 }
{
    LEFT + scale.point_of(line).min(LANE_WIDTH)
}

/// The y coordinate of the lane of a worker.
fn top_of(worker: u32) -> u64
    ensures { result ≤ 2 ^ 38 }
{
    u64::from(worker) * LANE_HEIGHT + TOP
}

/// The y coordinate of the lane of a worker that has shares.
fn share_top_of(worker: u32) -> u64
    ensures { result ≤ 2 ^ 38 }
{
    u64::from(worker) * SHARE_HEIGHT + TOP
}

/// Writes the head of the document, the styles, the names and the figures.
fn begin(svg: &mut String, timeline: &Timeline, names: Names<'_>) -> Result<(), AllocError> {
    let figures = TimelineFigures::of(timeline);
    let (lines, workers) = (figures.lines, figures.workers);
    let lanes_end = if has_many(timeline) {
        share_top_of(workers)
    } else {
        top_of(workers)
    };
    let height = lanes_end + 112;
    writeln!(
        svg,
        r#"<?xml version="1.0" encoding="UTF-8"?>
<svg xmlns="http://www.w3.org/2000/svg" font-family="sans-serif" font-size="15" width="100%" viewBox="0 0 {WIDTH} {height}" style="max-width:{}px">
<title>A schedule of {lines} lines by {workers} workers</title>
<desc>{figures}</desc>"#,
        WIDTH * 2
    )?;
    svg.push_str(STYLES)?;
    writeln!(
        svg,
        r#"<rect class="page" width="{WIDTH}" height="{height}"/>"#
    )?;
    svg.push_str("<text x=\"8\" y=\"22\" font-weight=\"bold\">")?;
    write_names(svg, names)?;
    svg.push_str("</text>\n")?;
    write_figures(svg, figures)?;
    write_axis(svg, lines as u64)
}

/// Writes the figures in two lines, since one would be too long.
fn write_figures(svg: &mut String, figures: TimelineFigures) -> Result<(), AllocError> {
    let TimelineFigures {
        workers,
        lines,
        granted,
        completed,
        settled,
        freed,
        taken,
        ending,
    } = figures;
    writeln!(
        svg,
        r#"<text x="8" y="44">{workers} workers, {lines} lines, {ending}: {granted} regions granted,</text>
<text x="8" y="66">{completed} completed, {settled} settled, {freed} freed, {taken} of these taken</text>"#
    )
}

const STYLES: &str = r##"<style>
.page { fill: #fff }
text { fill: #111 }
.lane { fill: #eee; stroke: #767676 }
.e { fill: #5a94d8 }
.o { fill: #f3c77f }
.e, .o, .w { stroke: #555; stroke-width: .6 }
.w { fill: url(#waiting) }
.hatch { fill: #fff; stroke: #111 }
.f { fill: #111 }
.f path { fill: none; stroke: #111; stroke-dasharray: 3 2 }
.n { pointer-events: none; text-anchor: middle }
.t { font-size: 14px }
.s1, .s2, .s3, .s4 { shape-rendering: crispEdges }
.s1 { fill: #b9d3f0 }
.s2 { fill: #7fadde }
.s3 { fill: #3f78bd }
.s4 { fill: #163c70 }
@media (prefers-color-scheme: dark) {
.page { fill: #16181c }
text { fill: #eee }
.lane { fill: #2a2d33; stroke: #8a8a8a }
.e { fill: #1d3f6e }
.o { fill: #8c5a16 }
.e, .o, .w { stroke: #bbb }
.hatch { fill: #16181c; stroke: #eee }
.f { fill: #eee }
.f path { stroke: #eee }
.s1 { fill: #2c4d78 }
.s2 { fill: #3c72b4 }
.s3 { fill: #79a9e4 }
.s4 { fill: #cfe3ff }
}
</style>
<defs>
<pattern id="waiting" width="6" height="6" patternUnits="userSpaceOnUse"><rect class="hatch" stroke="none" stroke-width="0" width="6" height="6"/><path class="hatch" d="M0 6L6 0"/></pattern>
</defs>
"##;

/// Writes the numbers of the first and the last line above the lanes.
fn write_axis(svg: &mut String, lines: u64) -> Result<(), AllocError> {
    let y = TOP - 8;
    let (middle, right) = (LEFT + LANE_WIDTH / 2, LEFT + LANE_WIDTH);
    let last = lines.saturating_add(1);
    writeln!(
        svg,
        r#"<text x="{LEFT}" y="{y}">line 2</text>
<text x="{middle}" y="{y}" text-anchor="middle">lines of the schedule, not time</text>
<text x="{right}" y="{y}" text-anchor="end">line {last}</text>"#
    )
}

/// Writes the name of a worker and its empty lane.
fn begin_lane(svg: &mut String, worker: u32, y: u64) -> Result<(), AllocError>
    requires { y ≤ 2 ^ 38 }
{
    let base = y + 15;
    writeln!(
        svg,
        r#"<text x="8" y="{base}">worker {worker}</text>
<rect class="lane" x="{LEFT}" y="{y}" width="{LANE_WIDTH}" height="{BAR_HEIGHT}"/>"#
    )
}

/// Writes the lane of a worker, with a bar for each region.
fn draw_lane(
    svg: &mut String,
    timeline: &Timeline,
    worker: u32,
    scale: Scale,
) -> Result<(), AllocError> {
    let y = top_of(worker);
    begin_lane(svg, worker, y)?;
    for bar in timeline.bars.iter() {
        if bar.claimed.worker == worker {
            draw_bar(svg, bar, scale, y)?;
        }
    }
    Ok(())
}

/// Writes the bar of a region, hatched from its completion on.
fn draw_bar(svg: &mut String, bar: &Bar, scale: Scale, y: u64) -> Result<(), AllocError>
    requires { y ≤ 2 ^ 38 }
{
    let end = bar.last_line(scale.lines);
    let filled = match bar.completed {
        Some(completed) => completed.line,
        None => end,
    };
    let (left, middle, right) = (
        left_of(scale, bar.claimed.line),
        left_of(scale, filled),
        left_of(scale, end.saturating_add(1)),
    );
    let class = if bar.region % 2 == 0 { "e" } else { "o" };
    write!(
        svg,
        "<g><title>region {}: worker {}",
        bar.region, bar.claimed.worker
    )?;
    write_moments(svg, bar)?;
    svg.push_str("</title>")?;
    draw_part(svg, class, left, middle, y)?;
    if bar.completed.is_some() {
        draw_part(svg, "w", middle, right, y)?;
    }
    if middle.saturating_sub(left) >= 30 {
        let x = left / 2 + middle / 2;
        write!(
            svg,
            "<text class=\"n\" x=\"{x}\" y=\"{}\">{}</text>",
            y + 15,
            bar.region
        )?;
    }
    svg.push_str("</g>\n")
}

/// Writes the lines in which a region is claimed, completed and settled.
fn write_moments(svg: &mut String, bar: &Bar) -> Result<(), AllocError> {
    write!(svg, ", claimed in line {}", bar.claimed.line)?;
    if let Some(completed) = bar.completed {
        write!(svg, ", completed in line {}", completed.line)?;
    }
    match bar.settled {
        Some(settled) => write!(svg, ", settled in line {}", settled.line),
        None => svg.push_str(", not settled"),
    }
}

/// Writes a part of a bar, at least 1 wide.
fn draw_part(svg: &mut String, class: &str, from: u64, to: u64, y: u64) -> Result<(), AllocError> {
    let width = to.saturating_sub(from).max(1);
    write!(
        svg,
        r#"<rect class="{class}" x="{from}" y="{y}" width="{width}" height="{BAR_HEIGHT}"/>"#
    )
}

/// Writes the drains that free a region: all, or one of each few if there are too many.
fn draw_freeings(svg: &mut String, freeings: &[Freeing], scale: Scale) -> Result<(), AllocError> {
    let every = freeings.len().div_ceil(MAX_FREEINGS).max(1);
    let linked = are_linked(freeings);
    for (i, freeing) in freeings.iter().enumerate() {
        if i % every == 0 {
            draw_freeing(svg, freeing, scale, linked)?;
        }
    }
    Ok(())
}

/// Writes a tick for a drain below its lane and, if `linked`, a line to the claim of the region that it frees.
fn draw_freeing(
    svg: &mut String,
    freeing: &Freeing,
    scale: Scale,
    linked: bool,
) -> Result<(), AllocError> {
    let x = left_of(scale, freeing.drain.line);
    let y = top_of(freeing.drain.worker) + BAR_HEIGHT;
    svg.push_str("<g class=\"f\"><title>")?;
    write_freeing(svg, freeing)?;
    svg.push_str("</title>")?;
    write!(svg, r#"<rect x="{x}" y="{}" width="2" height="6"/>"#, y + 1)?;
    match freeing.taken {
        Some(taken) if linked => {
            let to = left_of(scale, taken.line);
            let down = top_of(taken.worker);
            let end = if down > y { down } else { down + BAR_HEIGHT };
            write!(svg, "<path d=\"M{} {}L{to} {end}\"/>", x + 1, y + 6)?;
        }
        _ => {}
    }
    svg.push_str("</g>\n")
}

/// Writes the legend of what is drawn of bars and drains at height `y`, and what is left out.
fn draw_legend(svg: &mut String, timeline: &Timeline, y: u64) -> Result<(), AllocError>
    requires { y ≤ 2 ^ 39 }
{
    draw_bar_legend(svg, &timeline.bars, y)?;
    draw_tick_legend(svg, &timeline.freeings, y + 36)?;
    write_thinned(svg, timeline, y + 70)
}

/// Writes the legend of the kinds of bars that are drawn at height `y`.
fn draw_bar_legend(svg: &mut String, bars: &[Bar], y: u64) -> Result<(), AllocError>
    requires { y ≤ 2 ^ 39 }
{
    let has_even = bars.iter().any(|bar| bar.region % 2 == 0);
    let has_odd = bars.iter().any(|bar| bar.region % 2 == 1);
    let has_completed = bars.iter().any(|bar| bar.completed.is_some());
    let odd = if has_even {
        "odd region"
    } else {
        "being filled (odd region)"
    };
    let mut x: u64 = 8;
    for (is_drawn, class, name) in [
        (has_even, "e", "being filled (even region)"),
        (has_odd, "o", odd),
        (has_completed, "w", "completed, not settled yet"),
    ] {
        if is_drawn {
            draw_sample(svg, x, y, class, name)?;
            let width = (name.len() as u64).saturating_mul(7);
            x = x.saturating_add(width).saturating_add(50);
        }
    }
    Ok(())
}

/// Writes the legend of ticks and of lines from them at height `y`, if they are drawn.
fn draw_tick_legend(svg: &mut String, freeings: &[Freeing], y: u64) -> Result<(), AllocError>
    requires { y ≤ 2 ^ 40 }
{
    if freeings.is_empty() {
        return Ok(());
    }
    let has_links = are_linked(freeings) && freeings.iter().any(|freeing| freeing.taken.is_some());
    let links = if has_links {
        "; a dashed line leads to who takes it"
    } else {
        ""
    };
    let base = y + 9;
    writeln!(
        svg,
        r#"<g class="f"><rect x="20" y="{y}" width="2" height="8"/></g>
<text x="40" y="{base}">a drain frees a region{links}</text>"#
    )
}

/// Whether there are so few drains that a line can lead from each.
fn are_linked(freeings: &[Freeing]) -> bool {
    freeings.len() <= MAX_LINKS
}

/// Writes the legend of shares at height `y`.
fn draw_share_legend(svg: &mut String, timeline: &Timeline, y: u64) -> Result<(), AllocError>
    requires { y ≤ 2 ^ 39 }
{
    let (base, below) = (y + 15, y + 70);
    let granted = timeline.bars.len();
    writeln!(
        svg,
        r#"<text x="8" y="{base}">Colour: in how many of its lines a worker has a region in hand</text>"#
    )?;
    draw_samples(
        svg,
        y + 28,
        &[
            (8, "lane", "none"),
            (110, "s1", "under 1/3"),
            (250, "s2", "under 2/3"),
            (390, "s3", "most"),
            (500, "s4", "all"),
        ],
    )?;
    writeln!(
        svg,
        r#"<text x="8" y="{below}">{granted} regions are too many for a bar each.</text>"#
    )
}

/// Writes samples of classes at height `y`, each with its x coordinate and its name.
fn draw_samples(svg: &mut String, y: u64, samples: &[(u64, &str, &str)]) -> Result<(), AllocError>
    requires { y ≤ 2 ^ 40 }
{
    for (x, class, name) in samples {
        draw_sample(svg, *x, y, class, name)?;
    }
    Ok(())
}

/// Writes a sample of a class at a point, and its name.
fn draw_sample(svg: &mut String, x: u64, y: u64, class: &str, name: &str) -> Result<(), AllocError>
    requires { y ≤ 2 ^ 40 }
{
    let (right, base) = (x.saturating_add(32), y + 15);
    writeln!(
        svg,
        r#"<rect class="{class}" x="{x}" y="{y}" width="26" height="{BAR_HEIGHT}"/>
<text x="{right}" y="{base}">{name}</text>"#
    )
}

/// Writes how many drains are left out, if any.
fn write_thinned(svg: &mut String, timeline: &Timeline, y: u64) -> Result<(), AllocError> {
    let every = timeline.freeings.len().div_ceil(MAX_FREEINGS);
    if every > 1 {
        writeln!(
            svg,
            r#"<text x="8" y="{y}">Of each {every} drains that freed a region one is shown.</text>"#
        )?;
    }
    Ok(())
}
