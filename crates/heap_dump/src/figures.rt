//! The figures of an import.
use dump_objects::Followed;
use std::fmt;

/// The counts that [`import`](crate::import) returns with an image.
#[derive(Clone, Copy)]
pub struct ImportFigures {
    /// Words.
    pub words: u64,
    /// All objects.
    pub objects: u64,
    /// Roots.
    pub roots: u64,
    /// Objects that are reachable from the roots by references that are followed.
    pub live: u64,
    /// Objects that are not.
    pub dead: u64,
    /// Gaps between objects that were dropped because they are too wide.
    pub dropped_gaps: u64,
    /// References and roots that lead to objects that are missing from the dump.
    pub unresolved: u64,
    /// Which references are followed.
    pub followed: Followed,
}

impl fmt::Display for ImportFigures {
    ghost use Rattle.std.specs.Prelude.{Some};
    ghost use Rattle.heap_dump.specs.ImportFigures.{figures_text};

    ghost output = { λ figures. Some (figures_text figures) };

    fn fmt<W: fmt::Write>(&self, f: &mut fmt::Formatter<W>) -> fmt::Result {
        let ImportFigures {
            words,
            objects,
            roots,
            live,
            dead,
            dropped_gaps,
            unresolved,
            ..
        } = *self;
        write!(
            f,
            "words {words} objects {objects} roots {roots} live {live} dead {dead}"
        )?;
        write!(f, " dropped-gaps {dropped_gaps} unresolved {unresolved}")
    }
}
