//! Which areas occur in a picture, and their legend as text.
ghost use Rattle.std.specs.Prelude.{◌≡◌, ◌++◌, OnOk, string_bytes, option_map};
ghost use Rattle.heap_map.specs.Text.{areas_text, entry_text, has_area, high_entries, is_area, legend_text, low_entries, occurs};

use crate::area::Area;
use crate::cell::Cell;
use crate::picture::Picture;
use crate::strips::write_shares;
use crate::style::Glyphs;
use std::alloc::AllocError;

/// Writes the two lines of the legend: shades, and the areas that occur.
pub(crate) fn write_legend(
    text: &mut String,
    glyphs: Glyphs,
    picture: &Picture,
) -> Result<(), AllocError>
    ensures { OnOk result (string_bytes text.new ≡ string_bytes text.old
        ++ legend_text glyphs (occurs picture.now.before.cells.items (option_map (λ map. map.cells.items) picture.now.after))) }
{
    write_shares(text, glyphs)?;
    write_areas_legend(text, picture)
}

/// Writes the second line of the legend: the areas that occur.
fn write_areas_legend(text: &mut String, picture: &Picture) -> Result<(), AllocError>
    ensures { OnOk result (string_bytes text.new ≡ string_bytes text.old
        ++ areas_text (occurs picture.now.before.cells.items (option_map (λ map. map.cells.items) picture.now.after))) }
{
    text.push_str("area:")?;
    write_low_entries(text, picture)?;
    write_high_entries(text, picture)?;
    text.push_str("\n")
}

/// Writes the entries of the areas of the dense prefix.
fn write_low_entries(text: &mut String, picture: &Picture) -> Result<(), AllocError>
    ensures { OnOk result (string_bytes text.new ≡ string_bytes text.old
        ++ low_entries (occurs picture.now.before.cells.items (option_map (λ map. map.cells.items) picture.now.after))) }
{
    write_entry(text, occurs(picture, Area::Prefix), " p prefix")?;
    write_entry(
        text,
        occurs(picture, Area::Fillers),
        " f prefix with fillers",
    )
}

/// Writes the entries of the areas above the dense prefix.
fn write_high_entries(text: &mut String, picture: &Picture) -> Result<(), AllocError>
    ensures { OnOk result (string_bytes text.new ≡ string_bytes text.old
        ++ high_entries (occurs picture.now.before.cells.items (option_map (λ map. map.cells.items) picture.now.after))) }
{
    write_entry(text, occurs(picture, Area::Moving), " m moving")?;
    write_entry(text, occurs(picture, Area::Free), " - free")
}

/// Writes an entry of the legend, if its area occurs.
fn write_entry(text: &mut String, is_there: bool, entry: &str) -> Result<(), AllocError>
    ensures { OnOk result (string_bytes text.new ≡ string_bytes text.old ++ entry_text is_there entry.now) }
{
    if !is_there {
        return Ok(());
    }
    text.push_str(entry)
}

/// Whether some cell of a picture has this area.
pub(crate) fn occurs(picture: &Picture, area: Area) -> bool
    ensures { result ≡ occurs picture.now.before.cells.items (option_map (λ map. map.cells.items) picture.now.after) area }
{
    let before = has_area(picture.before.cells.as_slice(), area);
    match &picture.after {
        Some(after) => before || has_area(after.cells.as_slice(), area),
        None => before,
    }
}

/// Whether one of these cells has this area.
fn has_area(cells: &[Cell], area: Area) -> bool
    ensures { result ≡ has_area cells.now area }
{
    0 < cells.iter().filter(|cell| is_area(area, cell.area)).count()
}

/// Whether two areas are the same.
fn is_area(area: Area, other: Area) -> bool
    ensures { result ≡ is_area area other }
{
    match (area, other) {
        (Area::Prefix, Area::Prefix) => true,
        (Area::Fillers, Area::Fillers) => true,
        (Area::Moving, Area::Moving) => true,
        (Area::Free, Area::Free) => true,
        _ => false,
    }
}
