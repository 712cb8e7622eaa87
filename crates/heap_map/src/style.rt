/// The characters for shades.
#[derive(Debug, Clone, Copy, PartialEq, Eq)]
pub enum Glyphs {
    /// ASCII characters.
    Letters,
    /// Unicode block characters, in UTF-8.
    Blocks,
}

/// How the cells of a strip are cut into rows.
#[derive(Debug, Clone, Copy)]
pub struct Shape {
    /// The number of cells of a row. 0 counts as 1.
    pub width: u32,
    /// Whether the address of its first word follows each row, in words and in MiB.
    pub has_axis: bool,
}

/// How a picture is printed.
#[derive(Debug, Clone, Copy, PartialEq, Eq)]
pub struct Style {
    pub glyphs: Glyphs,
    /// Whether characters are coloured, by escape sequences for terminals.
    pub is_coloured: bool,
}
