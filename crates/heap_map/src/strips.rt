//! Prints the strips of a picture, and the legend of shades, as text.
ghost use Rattle.std.specs.Prelude.{◌≡◌, ◌≤◌, ◌++◌, OnOk, codes, flat_map, length, string_bytes};
ghost use Rattle.heap_map.specs.Text.{area_letter, area_line, area_mark, colour_of, coloured, first_address, mib_axis, name_of_row, row_of, row_text, shade_glyph, shade_line, shade_mark, share_text, shares_text, strip_text, words_axis};

use crate::area::Area;
use crate::cell::Cell;
use crate::shade::Shade;
use crate::style::{Glyphs, Shape, Style};
use std::alloc::AllocError;

/// The number of words of one MiB.
const MIB: u64 = 131_072;

/// Writes the rows of a strip. The first begins with `name`, which has six characters.
pub(crate) fn write_strip(
    text: &mut String,
    style: Style,
    shape: Shape,
    name: &str,
    cells: &[Cell],
) -> Result<(), AllocError>
    requires { length cells.now ≤ 100000 }
    ensures { OnOk result (string_bytes text.new ≡ string_bytes text.old ++ strip_text style shape name.now cells.now) }
{
    let width = shape.width.max(1);
    for i in 0..cells.len().div_ceil(width as usize) {
        let row = row_of(cells, width, i);
        write_row(text, style, shape.has_axis, name_of_row(name, i), row)?;
    }
    Ok(())
}

/// The name before the first row, and blanks before the others.
fn name_of_row(name: &str, i: usize) -> &str
    ensures { result.now ≡ name_of_row name.now i }
{
    if i == 0 { name } else { "      " }
}

/// Row `i` of rows of `width` cells.
fn row_of(cells: &[Cell], width: u32, i: usize) -> &[Cell]
    requires { i ≤ 100000 }
    ensures { result.now ≡ row_of width cells.now i }
{
    let start = i * width as usize;
    let end = start + width as usize;
    &cells[start.min(cells.len())..end.min(cells.len())]
}

/// Writes the two lines of a row, shades and areas. The first begins with `label`, which has six characters.
fn write_row(
    text: &mut String,
    style: Style,
    has_axis: bool,
    label: &str,
    cells: &[Cell],
) -> Result<(), AllocError>
    ensures { OnOk result (string_bytes text.new ≡ string_bytes text.old ++ row_text style has_axis label.now cells.now) }
{
    write_shade_line(text, style, has_axis, label, cells)?;
    write_area_line(text, style, has_axis, cells)
}

/// Writes the line of shades of a row, which begins with `label`.
fn write_shade_line(
    text: &mut String,
    style: Style,
    has_axis: bool,
    label: &str,
    cells: &[Cell],
) -> Result<(), AllocError>
    ensures { OnOk result (string_bytes text.new ≡ string_bytes text.old ++ shade_line style has_axis label.now cells.now) }
{
    text.push_str(label)?;
    text.push_str(" |")?;
    write_shades(text, style, cells)?;
    text.push_str("|")?;
    write_words_axis(text, has_axis, cells)?;
    text.push_str("\n")
}

/// Writes the line of areas of a row.
fn write_area_line(
    text: &mut String,
    style: Style,
    has_axis: bool,
    cells: &[Cell],
) -> Result<(), AllocError>
    ensures { OnOk result (string_bytes text.new ≡ string_bytes text.old ++ area_line style has_axis cells.now) }
{
    text.push_str("       |")?;
    write_areas(text, style, cells)?;
    text.push_str("|")?;
    write_mib_axis(text, has_axis, cells)?;
    text.push_str("\n")
}

/// Writes the address of the first of these cells.
fn write_words_axis(text: &mut String, has_axis: bool, cells: &[Cell]) -> Result<(), AllocError>
    ensures { OnOk result (string_bytes text.new ≡ string_bytes text.old ++ words_axis has_axis cells.now) }
{
    if !has_axis {
        return Ok(());
    }
    write!(text, " {}", first_address(cells))
}

/// Writes the address of the first of these cells in MiB.
fn write_mib_axis(text: &mut String, has_axis: bool, cells: &[Cell]) -> Result<(), AllocError>
    ensures { OnOk result (string_bytes text.new ≡ string_bytes text.old ++ mib_axis has_axis cells.now) }
{
    if !has_axis {
        return Ok(());
    }
    let words = first_address(cells);
    let (whole, tenths) = (words / MIB, words % MIB * 10 / MIB);
    write!(text, " {whole}.{tenths} MiB")
}

/// The address of the first of these cells, or 0.
fn first_address(cells: &[Cell]) -> u64
    ensures { result ≡ first_address cells.now }
{
    match cells.first() {
        Some(cell) => cell.from,
        None => 0,
    }
}

/// Writes the first line of the legend, about shades.
pub(crate) fn write_shares(text: &mut String, glyphs: Glyphs) -> Result<(), AllocError>
    ensures { OnOk result (string_bytes text.new ≡ string_bytes text.old ++ shares_text glyphs) }
{
    text.push_str("live:")?;
    write_share(text, glyphs, Shade::Empty, "none")?;
    write_share(text, glyphs, Shade::Low, "few")?;
    write_share(text, glyphs, Shade::Middle, "half")?;
    write_share(text, glyphs, Shade::High, "most")?;
    write_share(text, glyphs, Shade::Full, "all")?;
    text.push_str("\n")
}

/// Writes the legend of one shade.
fn write_share(
    text: &mut String,
    glyphs: Glyphs,
    shade: Shade,
    name: &str,
) -> Result<(), AllocError>
    ensures { OnOk result (string_bytes text.new ≡ string_bytes text.old ++ share_text glyphs shade name.now) }
{
    text.push_str(" ")?;
    text.push_str(shade_glyph(glyphs, shade))?;
    text.push_str(" ")?;
    text.push_str(name)
}

/// Writes the row of shades.
fn write_shades(text: &mut String, style: Style, cells: &[Cell]) -> Result<(), AllocError>
    ensures { OnOk result (string_bytes text.new ≡ string_bytes text.old ++ flat_map (shade_mark style) cells.now) }
{
    for cell in cells {
        let glyph = shade_glyph(style.glyphs, Shade::of(cell));
        write_coloured(text, style, cell.area, glyph)?;
    }
    Ok(())
}

/// Writes the row of areas.
fn write_areas(text: &mut String, style: Style, cells: &[Cell]) -> Result<(), AllocError>
    ensures { OnOk result (string_bytes text.new ≡ string_bytes text.old ++ flat_map (area_mark style) cells.now) }
{
    for cell in cells {
        write_coloured(text, style, cell.area, area_letter(cell.area))?;
    }
    Ok(())
}

/// Writes a character, in the colour of an area if the style is coloured.
fn write_coloured(
    text: &mut String,
    style: Style,
    area: Area,
    glyph: &str,
) -> Result<(), AllocError>
    ensures { OnOk result (string_bytes text.new ≡ string_bytes text.old ++ coloured style area glyph.now) }
{
    if !style.is_coloured {
        return text.push_str(glyph);
    }
    text.push_str("\x1b[")?;
    text.push_str(colour_of(area))?;
    text.push_str("m")?;
    text.push_str(glyph)?;
    text.push_str("\x1b[0m")
}

/// The character of a shade.
fn shade_glyph(glyphs: Glyphs, shade: Shade) -> &'static str
    ensures { result.now ≡ shade_glyph glyphs shade }
{
    match glyphs {
        Glyphs::Letters => letter_of_shade(shade),
        Glyphs::Blocks => block_of_shade(shade),
    }
}

/// The letter of a shade.
fn letter_of_shade(shade: Shade) -> &'static str
    ensures { result.now ≡ shade_glyph Glyphs.Letters shade }
{
    match shade {
        Shade::Empty => "_",
        Shade::Low => ".",
        Shade::Middle => ":",
        Shade::High => "+",
        Shade::Full => "#",
    }
}

/// The block of a shade.
fn block_of_shade(shade: Shade) -> &'static str
    ensures { result.now ≡ shade_glyph Glyphs.Blocks shade }
{
    match shade {
        Shade::Empty => "\u{2581}",
        Shade::Low => "\u{2591}",
        Shade::Middle => "\u{2592}",
        Shade::High => "\u{2593}",
        Shade::Full => "\u{2588}",
    }
}

/// The letter of an area.
fn area_letter(area: Area) -> &'static str
    ensures { result.now ≡ area_letter area }
{
    match area {
        Area::Prefix => "p",
        Area::Fillers => "f",
        Area::Moving => "m",
        Area::Free => "-",
    }
}

/// The terminal colour code of an area.
fn colour_of(area: Area) -> &'static str
    ensures { result.now ≡ colour_of area }
{
    match area {
        Area::Prefix => "34",
        Area::Fillers => "33",
        Area::Moving => "32",
        Area::Free => "36",
    }
}
