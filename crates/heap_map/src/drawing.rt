//! Draws a picture as SVG: rows of cells with their addresses, marks at the prefix end and the new top, and a legend.
ghost use Rattle.std.specs.Prelude.{◌≤◌, ◌<◌, ◌^◌, length};

mod moves;

use crate::area::Area;
use crate::areas::occurs;
use crate::cell::Cell;
use crate::figures::MapFigures;
use crate::map::Map;
use crate::names::write_name;
use crate::patterns::{
    AREAS, SHADES, STYLES, cover_of, digit_of, hatching_of, key_of, line_of, name_of, share_of,
};
use crate::picture::Picture;
use crate::shade::Shade;
use crate::style::Shape;
use crate::tenths::{Tenths, WORDS_IN_A_MIB, digits, label_digits, write_label};
use moves::{BANDS, draw_moves};
use std::alloc::{AllocError, Global};

/// The width of the drawing. Its text is legible in a page that is 375 points wide.
const WIDTH: u64 = 560;

/// The least width of the margin left of rows, which has their addresses in words.
const LEAST_LEFT: u64 = 78;

/// The least width of the margin right of rows, which has their addresses in KiB or MiB.
const LEAST_RIGHT: u64 = 82;

/// The width of a digit in common fonts, and some more.
const DIGIT_WIDTH: u64 = 9;

/// The space between a row and its addresses.
const GAP: u64 = 6;

const ROW_HEIGHT: u64 = 22;

/// The height of a row with the space below it.
const ROW_STEP: u64 = 34;

/// The y coordinate at which the strips begin.
const TOP: u64 = 76;

/// A mark above a row, with a line through it.
const PREFIX_MARK: &str = "M0 0L-5 -7H5ZV22";

/// A mark below a row, with a line through it.
const TOP_MARK: &str = "M0 22L-5 29H5ZV0";

/// What all strips of a picture share.
#[derive(Clone, Copy)]
struct Frame {
    figures: MapFigures,
    /// The number of cells of a full row.
    cells: u32,
    /// The x coordinate at which rows begin.
    left: u64,
    /// The width of a full row.
    row_width: u64,
}

impl Frame {
    /// The frame of rows of this many cells, with margins that have room for each address.
    fn of(figures: MapFigures, cells: u32) -> Frame {
        let words = digits(figures.words).saturating_mul(DIGIT_WIDTH);
        let label = label_digits(figures.words).saturating_mul(DIGIT_WIDTH);
        let left = words.saturating_add(8 + GAP).max(LEAST_LEFT);
        let right = label.saturating_add(46 + GAP).max(LEAST_RIGHT);
        Frame {
            figures,
            cells: cells.max(1),
            left,
            row_width: WIDTH.saturating_sub(left).saturating_sub(right),
        }
    }

    /// The x coordinate of cell `i` in a row, in tenths.
    fn left_of(self, i: u64) -> u64 {
        self.row_width.saturating_mul(10).saturating_mul(i) / u64::from(self.cells).max(1)
    }
}

/// A row of a strip.
#[derive(Clone, Copy)]
struct Row<'a> {
    cells: &'a [Cell],
    frame: Frame,
    /// The y coordinate.
    y: u64,
}

pub(crate) fn draw(
    alloc: Global,
    picture: &Picture,
    shape: Shape,
    name: &str,
) -> Result<String, AllocError> {
    let mut svg = String::new(alloc);
    let cells = shape.width.min(picture.before.cells.len() as u32);
    let frame = Frame::of(picture.figures, cells);
    let strip = strip_height(&picture.before, frame);
    let between = if picture.moves.is_some() { BANDS } else { 0 };
    let after_at = TOP.saturating_add(strip).saturating_add(between);
    let legend = match &picture.after {
        Some(_) => after_at.saturating_add(strip),
        None => after_at,
    };
    begin(&mut svg, picture.figures, legend.saturating_add(124), name)?;
    draw_patterns(&mut svg)?;
    draw_strip(
        &mut svg,
        "before the collection",
        TOP,
        &picture.before,
        frame,
    )?;
    if let Some(after) = &picture.after {
        match &picture.moves {
            Some(moves) => {
                draw_moves(&mut svg, moves, frame, TOP, after_at)?;
                draw_strip_below_moves(&mut svg, "after it", after_at, after, frame)?;
            }
            None => draw_strip(&mut svg, "after it", after_at, after, frame)?,
        }
    }
    draw_legend(&mut svg, picture, legend)?;
    svg.push_str("</svg>\n")?;
    Ok(svg)
}

/// The height of a strip with its name.
fn strip_height(map: &Map, frame: Frame) -> u64 {
    let rows = map.cells.len().div_ceil(frame.cells.max(1) as usize) as u64;
    rows.saturating_mul(ROW_STEP).saturating_add(34)
}

/// Writes the head of the document, the name of the heap and the figures.
fn begin(svg: &mut String, figures: MapFigures, height: u64, name: &str) -> Result<(), AllocError> {
    let words = figures.words;
    writeln!(
        svg,
        r#"<?xml version="1.0" encoding="UTF-8"?>
<svg xmlns="http://www.w3.org/2000/svg" font-family="sans-serif" font-size="14" width="100%" viewBox="0 0 {WIDTH} {height}" style="max-width:1120px">
<title>A heap of {words} words</title>
<desc>{figures}</desc>"#
    )?;
    svg.push_str(STYLES)?;
    writeln!(
        svg,
        r#"<rect class="page" width="{WIDTH}" height="{height}"/>"#
    )?;
    svg.push_str("<text x=\"8\" y=\"20\" font-weight=\"bold\">")?;
    write_name(svg, name)?;
    svg.push_str("</text>\n")?;
    write_figures(svg, figures)
}

/// Writes the figures below the name.
fn write_figures(svg: &mut String, figures: MapFigures) -> Result<(), AllocError> {
    let MapFigures {
        words,
        live,
        dead,
        prefix_end,
        new_top,
        filled,
    } = figures;
    let size = Tenths::of(words, WORDS_IN_A_MIB);
    let per_cent = Tenths::of(live.saturating_mul(100), words);
    writeln!(
        svg,
        r#"<text x="8" y="40">{words} words, {size} MiB: {live} live, {per_cent} per cent; {dead} dead</text>"#
    )?;
    svg.push_str("<text x=\"8\" y=\"60\">")?;
    match prefix_end {
        0 => svg.push_str("no dense prefix")?,
        end => write!(svg, "dense prefix ends at {end}")?,
    }
    writeln!(
        svg,
        ", new top is {new_top}; {filled} regions to fill</text>"
    )
}

/// Writes a pattern for each shade of each area.
fn draw_patterns(svg: &mut String) -> Result<(), AllocError> {
    svg.push_str("<defs>\n")?;
    for area in AREAS {
        draw_patterns_of(svg, area)?;
    }
    svg.push_str("</defs>\n")
}

/// Writes a pattern for each shade of an area.
fn draw_patterns_of(svg: &mut String, area: Area) -> Result<(), AllocError> {
    for shade in SHADES {
        draw_pattern(svg, area, shade)?;
    }
    Ok(())
}

/// Writes the pattern of an area at a shade. Its id is the area's letter and the shade's digit.
fn draw_pattern(svg: &mut String, area: Area, shade: Shade) -> Result<(), AllocError> {
    let (key, path) = (key_of(area), hatching_of(area));
    let (digit, cover, line) = (digit_of(shade), cover_of(shade), line_of(shade));
    writeln!(
        svg,
        r#"<pattern id="{key}{digit}" width="8" height="8" patternUnits="userSpaceOnUse"><rect class="{key}" width="8" height="8" fill-opacity="{cover}"/><path class="{line}" d="{path}"/></pattern>"#
    )
}

/// Writes a strip at height `y`, with its name above it.
fn draw_strip(
    svg: &mut String,
    name: &str,
    y: u64,
    map: &Map,
    frame: Frame,
) -> Result<(), AllocError> {
    let base = y.saturating_add(16);
    writeln!(
        svg,
        r#"<text x="{}" y="{base}">{name}</text>
<text x="8" y="{base}">word</text>"#,
        frame.left
    )?;
    draw_rows(svg, y.saturating_add(28), map, frame)
}

/// Writes a strip at height `y`, with its name where moves mostly leave room: above its end.
fn draw_strip_below_moves(
    svg: &mut String,
    name: &str,
    y: u64,
    map: &Map,
    frame: Frame,
) -> Result<(), AllocError> {
    let base = y.saturating_add(16);
    writeln!(
        svg,
        r#"<text x="{}" y="{base}" text-anchor="end">{name}</text>
<text x="8" y="{base}">word</text>"#,
        frame.left.saturating_add(frame.row_width)
    )?;
    draw_rows(svg, y.saturating_add(28), map, frame)
}

/// Writes the rows of a strip, from height `y` on.
fn draw_rows(svg: &mut String, y: u64, map: &Map, frame: Frame) -> Result<(), AllocError> {
    let width = frame.cells.max(1) as usize;
    for (i, cells) in map.cells.as_slice().chunks(width).enumerate() {
        let y = (i as u64).saturating_mul(ROW_STEP).saturating_add(y);
        draw_row(svg, Row { cells, frame, y })?;
    }
    Ok(())
}

/// Writes a row between its addresses.
fn draw_row(svg: &mut String, row: Row<'_>) -> Result<(), AllocError> {
    let from = match row.cells.first() {
        Some(cell) => cell.from,
        None => 0,
    };
    let Frame {
        figures,
        left,
        row_width,
        ..
    } = row.frame;
    let (y, base) = (row.y, row.y.saturating_add(16));
    let margin = left.saturating_sub(GAP);
    let right = left.saturating_add(row_width).saturating_add(GAP);
    write!(
        svg,
        r#"<text x="{margin}" y="{base}" text-anchor="end">{from}</text>
<text x="{right}" y="{base}">"#
    )?;
    write_label(svg, from)?;
    writeln!(svg, "</text>\n<g transform=\"translate({left},{y})\">")?;
    draw_cells(svg, row)?;
    if has_prefix(figures) {
        draw_mark(svg, row, figures.prefix_end, "prefix end", PREFIX_MARK)?;
    }
    draw_mark(svg, row, figures.new_top, "new top", TOP_MARK)?;
    svg.push_str("</g>\n")
}

/// Whether there is a dense prefix, whose end has a mark.
fn has_prefix(figures: MapFigures) -> bool {
    0 < figures.prefix_end
}

/// Writes the cells of a row.
fn draw_cells(svg: &mut String, row: Row<'_>) -> Result<(), AllocError> {
    for (i, cell) in row.cells.iter().enumerate() {
        draw_cell(svg, cell, i as u64, row.frame)?;
    }
    Ok(())
}

/// Writes cell `i` of a row, with its words and its area as a title.
fn draw_cell(svg: &mut String, cell: &Cell, i: u64, frame: Frame) -> Result<(), AllocError> {
    let (key, digit) = (key_of(cell.area), digit_of(Shade::of(cell)));
    let x = frame.left_of(i);
    let wide = frame.left_of(i.saturating_add(1)).saturating_sub(x);
    write!(
        svg,
        r#"<rect x="{}.{}" width="{}.{}" height="{ROW_HEIGHT}" fill="url(#{key}{digit})">"#,
        x / 10,
        x % 10,
        wide / 10,
        wide % 10
    )?;
    let (from, last) = (cell.from, cell.to.saturating_sub(1));
    let (live, name) = (cell.live, name_of(cell.area));
    writeln!(
        svg,
        "<title>words {from} to {last}: {live} live, {name}</title></rect>"
    )
}

/// Writes a mark at an address, if it is in this row or ends the heap with it: `path` begins at the mark.
fn draw_mark(
    svg: &mut String,
    row: Row<'_>,
    address: u64,
    name: &str,
    path: &str,
) -> Result<(), AllocError> {
    let (from, to) = match (row.cells.first(), row.cells.last()) {
        (Some(first), Some(last)) => (first.from, last.to),
        _ => (0, 0),
    };
    let is_end = address == to && to == row.frame.figures.words;
    if address < from || (to <= address && !is_end) {
        return Ok(());
    }
    let full = row.frame.left_of(row.cells.len() as u64);
    let x = full.saturating_mul(address - from) / to.saturating_sub(from).max(1);
    writeln!(
        svg,
        r#"<path class="mark" transform="translate({}.{},0)" d="{path}"><title>{name}: word {address}</title></path>"#,
        x / 10,
        x % 10
    )
}

/// Writes the legends of areas, shades and marks from height `y` on.
fn draw_legend(svg: &mut String, picture: &Picture, y: u64) -> Result<(), AllocError> {
    draw_areas(svg, picture, y)?;
    draw_shades(svg, y.saturating_add(34))?;
    draw_marks(svg, picture.figures, y.saturating_add(76))
}

/// Writes the legend of the marks that occur, at height `y`.
fn draw_marks(svg: &mut String, figures: MapFigures, y: u64) -> Result<(), AllocError> {
    let mut x = 20;
    if has_prefix(figures) {
        draw_mark_sample(svg, x, y, "end of the dense prefix", PREFIX_MARK)?;
        x = 240;
    }
    draw_mark_sample(svg, x, y, "top after the collection", TOP_MARK)
}

/// Writes the legend of a mark at a point.
fn draw_mark_sample(
    svg: &mut String,
    x: u64,
    y: u64,
    name: &str,
    path: &str,
) -> Result<(), AllocError> {
    writeln!(
        svg,
        r#"<g transform="translate({x},{y})"><path class="mark" d="{path}"/><text x="14" y="10">{name}</text></g>"#
    )
}

/// Writes the legend of the areas that occur, at height `y`.
fn draw_areas(svg: &mut String, picture: &Picture, y: u64) -> Result<(), AllocError> {
    let mut x: u64 = 8;
    for area in AREAS {
        if occurs(picture, area) {
            let (key, name) = (key_of(area), name_of(area));
            draw_sample(svg, x, y)?;
            writeln!(svg, "fill=\"url(#{key}2)\"/></g>")?;
            write_at(svg, x.saturating_add(30), y.saturating_add(16), name)?;
            let width = (name.len() as u64).saturating_mul(8);
            x = x.saturating_add(width).saturating_add(54);
        }
    }
    Ok(())
}

/// Writes the legend of the shades at height `y`, without a colour of an area.
fn draw_shades(svg: &mut String, y: u64) -> Result<(), AllocError> {
    for (i, shade) in SHADES.iter().enumerate() {
        let x = [8, 128, 228, 328, 428][i.min(4)];
        let (cover, name) = (cover_of(*shade), share_of(*shade));
        draw_sample(svg, x, y)?;
        writeln!(svg, "class=\"shade\" fill-opacity=\"{cover}\"/></g>")?;
        write_at(svg, x.saturating_add(30), y.saturating_add(16), name)?;
    }
    Ok(())
}

/// Writes a text at a point.
fn write_at(svg: &mut String, x: u64, y: u64, text: &str) -> Result<(), AllocError> {
    writeln!(svg, r#"<text x="{x}" y="{y}">{text}</text>"#)
}

/// Writes the frame of a sample, and opens its inside.
fn draw_sample(svg: &mut String, x: u64, y: u64) -> Result<(), AllocError> {
    write!(
        svg,
        r#"<g transform="translate({x},{y})"><rect class="frame" width="24" height="{ROW_HEIGHT}"/><rect width="24" height="{ROW_HEIGHT}" "#
    )
}
