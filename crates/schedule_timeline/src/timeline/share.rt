use heap_map::Glyphs;

/// The share of a cell's lines in which a worker has a region in hand, in thirds.
#[derive(Clone, Copy)]
pub(crate) enum Share {
    /// In none.
    Never,
    /// In fewer than a third, but some.
    Seldom,
    /// In at least one third, but fewer than two.
    Half,
    /// In at least two thirds, but not all.
    Mostly,
    /// In all.
    Always,
}

impl Share {
    /// The share of `busy` lines of `lines`.
    pub(crate) fn of(busy: u64, lines: u64) -> Share {
        let (busy, lines) = (u128::from(busy), u128::from(lines));
        if busy == 0 {
            Share::Never
        } else if lines <= busy {
            Share::Always
        } else if busy * 3 < lines {
            Share::Seldom
        } else if busy * 3 < lines * 2 {
            Share::Half
        } else {
            Share::Mostly
        }
    }

    pub(crate) fn glyph(self, glyphs: Glyphs) -> &'static str {
        match glyphs {
            Glyphs::Letters => self.letter(),
            Glyphs::Blocks => self.block(),
        }
    }

    fn letter(self) -> &'static str {
        match self {
            Share::Never => "_",
            Share::Seldom => ".",
            Share::Half => ":",
            Share::Mostly => "+",
            Share::Always => "#",
        }
    }

    fn block(self) -> &'static str {
        match self {
            Share::Never => "\u{2581}",
            Share::Seldom => "\u{2591}",
            Share::Half => "\u{2592}",
            Share::Mostly => "\u{2593}",
            Share::Always => "\u{2588}",
        }
    }

    /// The terminal colour code of the character; 0 is no colour.
    pub(crate) fn colour(self) -> &'static str {
        match self {
            Share::Never => "0",
            _ => "32",
        }
    }
}
