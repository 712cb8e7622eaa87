//! The figures of a generation.
use std::fmt;

/// The counts that [`generate`](crate::generate) returns with an image.
#[derive(Debug, Clone, Copy, PartialEq, Eq)]
pub struct GenerationFigures {
    /// Words.
    pub words: u64,
    /// Objects, live and dead.
    pub objects: u64,
    /// Roots: none in version 1.
    pub roots: u64,
    /// Live objects.
    pub live: u64,
}

impl fmt::Display for GenerationFigures {
    ghost use Rattle.std.specs.Prelude.{Some};
    ghost use Rattle.heap_maker.specs.GenerationFigures.{figures_text};

    ghost output = { λ figures. Some (figures_text figures) };

    fn fmt<W: fmt::Write>(&self, f: &mut fmt::Formatter<W>) -> fmt::Result {
        let GenerationFigures {
            words,
            objects,
            roots,
            live,
        } = *self;
        write!(
            f,
            "words {words} objects {objects} roots {roots} live {live}"
        )
    }
}
