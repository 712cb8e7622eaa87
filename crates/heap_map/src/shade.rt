ghost use Rattle.std.specs.Prelude.{◌≡◌};
ghost use Rattle.heap_map.specs.Text.{shade_of};

use crate::cell::Cell;

/// The share of a cell's words that are live, in thirds.
#[derive(Debug, Clone, Copy, PartialEq, Eq)]
pub enum Shade {
    /// None.
    Empty,
    /// Fewer than a third, but some.
    Low,
    /// At least one third, but fewer than two.
    Middle,
    /// At least two thirds, but not all.
    High,
    /// All.
    Full,
}

impl Shade {
    /// The shade of a cell, by its live words.
    pub fn of(cell: &Cell) -> Shade
        ensures { result ≡ shade_of cell.now }
    {
        let words = cell.to.saturating_sub(cell.from);
        let (wide, live) = (u128::from(words), u128::from(cell.live));
        if cell.live == 0 {
            Shade::Empty
        } else if words <= cell.live {
            Shade::Full
        } else if live * 3 < wide {
            Shade::Low
        } else if live * 3 < wide * 2 {
            Shade::Middle
        } else {
            Shade::High
        }
    }
}
