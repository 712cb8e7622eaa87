//! Draws where live words go, as bands from one strip to the next.
use super::{Frame, ROW_HEIGHT};
use crate::band::Band;
use crate::bands::Bands;
use std::alloc::AllocError;

/// The height of the bands.
pub(super) const BANDS: u64 = 90;

/// The height from the beginning of a strip to that of its row.
const ABOVE_ROW: u64 = 28;

/// Draws the bands between the row of the strip at height `before` and that of the strip at height `after`.
pub(super) fn draw_moves(
    svg: &mut String,
    moves: &Bands,
    frame: Frame,
    before: u64,
    after: u64,
) -> Result<(), AllocError> {
    let from = before.saturating_add(ABOVE_ROW + ROW_HEIGHT);
    let to = after.saturating_add(ABOVE_ROW);
    writeln!(svg, "<g transform=\"translate({},0)\">", frame.left)?;
    for (i, band) in moves.bands.iter().enumerate() {
        draw_band(svg, *band, frame, (from, to), i)?;
    }
    svg.push_str("</g>\n")
}

/// Draws the i-th band from one height to another, unless none of its words live.
fn draw_band(
    svg: &mut String,
    band: Band,
    frame: Frame,
    (top, bottom): (u64, u64),
    i: usize,
) -> Result<(), AllocError> {
    if band.words == 0 {
        return Ok(());
    }
    let class = if i % 2 == 0 { "band" } else { "band odd" };
    write!(svg, "<path class=\"{class}\" d=\"M")?;
    write_point(svg, frame, band.from, top)?;
    svg.push_str("L")?;
    write_point(svg, frame, band.to, top)?;
    svg.push_str("L")?;
    write_point(
        svg,
        frame,
        band.target.saturating_add(shown_words(band)),
        bottom,
    )?;
    svg.push_str("L")?;
    write_point(svg, frame, band.target, bottom)?;
    svg.push_str("Z\">")?;
    write_title(svg, band)
}

/// How many words the end of a band is wide: those in place of the dense prefix keep their dead words.
fn shown_words(band: Band) -> u64 {
    if band.stays {
        band.to.saturating_sub(band.from)
    } else {
        band.words
    }
}

/// Writes the point of an address at a height.
fn write_point(svg: &mut String, frame: Frame, address: u64, y: u64) -> Result<(), AllocError> {
    let full = frame.row_width.saturating_mul(10);
    let x = full.saturating_mul(address) / frame.figures.words.max(1);
    write!(svg, "{}.{} {y}", x / 10, x % 10)
}

/// Writes the title of a band, and ends it.
fn write_title(svg: &mut String, band: Band) -> Result<(), AllocError> {
    let Band {
        from,
        to,
        words,
        target,
        stays,
    } = band;
    let last = to.saturating_sub(1);
    write!(svg, "<title>words {from} to {last}: {words} live, ")?;
    if stays {
        svg.push_str("stay")?;
    } else {
        write!(svg, "go to {target}")?;
    }
    svg.push_str("</title></path>\n")
}
