//! Prints the lanes of a timeline as text: two rows for each worker.
use crate::timeline::Timeline;
use crate::timeline::freeing::Freeing;
use crate::timeline::lane::Lane;
use crate::timeline::mark::Mark;
use crate::timeline::scale::Scale;
use crate::timeline::share::Share;
use heap_map::{Glyphs, Style};
use std::alloc::{AllocError, Global};

/// The largest number of freed regions that are listed.
const MAX_LISTED: usize = 20;

/// Writes the lanes, their axis, the legend, and a list of freed regions. A lane has one cell per line, but no more than `width`.
pub(crate) fn write_lanes(
    alloc: Global,
    text: &mut String,
    timeline: &Timeline,
    style: Style,
    width: u32,
) -> Result<(), AllocError> {
    let lines = timeline.schedule.len() as u64;
    let scale = Scale {
        lines,
        cells: lines.min(u64::from(width)),
    };
    for worker in 0..timeline.schedule.workers() {
        let lane = Lane::of(alloc, timeline, worker, scale)?;
        write_lane(text, style, worker, &lane, scale)?;
    }
    write_axis(text, lines)?;
    write_legend(text, style.glyphs)?;
    write_freeings(text, &timeline.freeings)
}

/// Writes which lines the lanes show, below them.
fn write_axis(text: &mut String, lines: u64) -> Result<(), AllocError> {
    let last = lines.saturating_add(1);
    writeln!(
        text,
        "          lines 2 to {last} of the schedule, not time"
    )
}

/// Writes the two rows of a worker: shares and marks.
fn write_lane(
    text: &mut String,
    style: Style,
    worker: u32,
    lane: &Lane,
    scale: Scale,
) -> Result<(), AllocError> {
    write!(text, "worker {worker:2} |")?;
    for (cell, busy) in lane.busy.iter().enumerate() {
        let first = scale.start_of(cell as u64);
        let next = scale.start_of((cell as u64).saturating_add(1));
        let share = Share::of(*busy, next.saturating_sub(first));
        write_coloured(text, style, share.colour(), share.glyph(style.glyphs))?;
    }
    text.push_str("|\n          |")?;
    write_marks(text, style, &lane.marks)?;
    text.push_str("|\n")
}

/// Writes the row of marks.
fn write_marks(text: &mut String, style: Style, marks: &[Mark]) -> Result<(), AllocError> {
    for mark in marks {
        write_coloured(text, style, mark.colour(), mark.letter())?;
    }
    Ok(())
}

/// Writes a character, in a colour if the style is coloured. Colour 0 is no colour.
fn write_coloured(
    text: &mut String,
    style: Style,
    colour: &str,
    glyph: &str,
) -> Result<(), AllocError> {
    if style.is_coloured && colour != "0" {
        write!(text, "\x1b[{colour}m{glyph}\x1b[0m")
    } else {
        text.push_str(glyph)
    }
}

/// Writes the two lines of the legend.
fn write_legend(text: &mut String, glyphs: Glyphs) -> Result<(), AllocError> {
    text.push_str("region in hand:")?;
    for (share, name) in [
        (Share::Never, "never"),
        (Share::Seldom, "seldom"),
        (Share::Half, "half"),
        (Share::Mostly, "mostly"),
        (Share::Always, "always"),
    ] {
        write!(text, " {} {name}", share.glyph(glyphs))?;
    }
    text.push_str("\nmark: c claims t takes a freed region f frees one s settles x several\n")
}

/// Writes a line for each of the first freed regions, and the number of the others.
fn write_freeings(text: &mut String, freeings: &[Freeing]) -> Result<(), AllocError> {
    for freeing in freeings.iter().take(MAX_LISTED) {
        write_freeing(text, freeing)?;
        text.push_str("\n")?;
    }
    match freeings.len().saturating_sub(MAX_LISTED) {
        0 => Ok(()),
        more => writeln!(text, "and {more} more"),
    }
}

/// Writes which drain frees a region, and who claims the region.
pub(crate) fn write_freeing(text: &mut String, freeing: &Freeing) -> Result<(), AllocError> {
    let Freeing {
        drain,
        destination,
        source,
        taken,
    } = *freeing;
    write!(text, "line {}: worker {}", drain.line, drain.worker)?;
    write!(
        text,
        " drains {source} into {destination} and frees {source}"
    )?;
    match taken {
        Some(taken) => write!(
            text,
            ", worker {} takes it in line {}",
            taken.worker, taken.line
        ),
        None => text.push_str(", nobody takes it"),
    }
}
