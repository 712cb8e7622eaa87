ghost use Rattle.std.specs.Prelude.{◌≡◌, ◌≤◌, [], string_bytes};
ghost use Rattle.std_alloc.specs.String.{string_capacity};
ghost use Rattle.collection_commands.specs.Figures.{figures_line};

use collector::Figures;
use command_support::{push_number, push_text};

/// Room for the line, with 20 digits for each figure.
pub const LINE_ROOM: usize = 81;

/// The figures of a collection, and the line that prints them.
#[derive(Drop)]
pub struct FiguresLine {
    /// Where the prefix ends, the new top and the filled regions.
    pub figures: Figures,
    /// Their line, with its line feed.
    pub line: String,
}

/// Writes the line to an empty text that has room for it.
pub fn with_line(figures: Figures, mut line: String) -> FiguresLine
    requires room { 81 ≤ string_capacity line }
    requires empty { string_bytes line ≡ [] }
    ensures figures { result.figures ≡ figures }
    ensures line { string_bytes result.line ≡ figures_line figures }
{
    let Figures {
        prefix_end,
        new_top,
        filled,
    } = figures;
    push_text(&mut line, "prefix ");
    push_number(&mut line, prefix_end);
    push_text(&mut line, " top ");
    push_number(&mut line, new_top);
    push_text(&mut line, " filled ");
    push_number(&mut line, filled as u64);
    push_text(&mut line, "\n");
    FiguresLine { figures, line }
}
