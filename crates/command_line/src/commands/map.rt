//! The command `map`: its arguments, their help, and how they are parsed.
ghost use Rattle.std.specs.Prelude.{codes, IfSome, ◌∷◌, []};
ghost use Rattle.command_line.specs.CommandLine.{IsCallOf};
ghost use Rattle.command_line.specs.Request.{IsFor};

use crate::arguments::{
    ALLOWANCE, ATOMIC, COLOR, IMAGE, LETTERS, NO_COLOR, PROGRESS, REGION_LOG, SVG, VERBOSE, WIDTH,
};
use crate::definition::{Argument, Definition, Valued, Values};
use crate::request::Request;
use crate::respelled::When;
use crate::shape::Shape;
use clap::ArgMatches;

const EXAMPLE: &str = "\
Example:
  pcompact map heap.pcheap --after";

/// The definition of `map`.
pub const DEFINITION: Definition = Definition {
    name: "map",
    about: "Draw a heap image, also as its collection leaves it",
    example: EXAMPLE,
    arguments: &[
        IMAGE,
        Argument::Flag("after", "Also draw the heap after its collection"),
        Argument::Flag("moves", "Also draw where the live words go"),
        Argument::Valued(WIDTH),
        HEIGHT,
        Argument::Valued(SVG),
        Argument::Valued(REGION_LOG),
        Argument::Valued(ALLOWANCE),
        LETTERS,
        COLOR,
        NO_COLOR,
        ATOMIC,
        PROGRESS,
        VERBOSE,
    ],
};

/// The option `--height`, the number of rows.
const HEIGHT: Argument = Argument::Valued(Valued {
    name: "height",
    value: "n",
    values: Values::Numbers(1, 100),
    is_required: false,
    help: "Rows, 1 to 100 (default: what fits, or 1; 8 in SVG)",
});

/// The arguments of `map`.
#[derive(Drop)]
pub struct Map<'a> {
    /// The file with the image.
    pub image: &'a str,
    /// What the image is read with in place of what is in its head.
    pub shape: Shape,
    /// Whether to draw the heap after its collection, too.
    pub after: bool,
    /// Whether to draw where live words go, too.
    pub moves: bool,
    /// The number of cells of a row, if requested.
    pub width: Option<u32>,
    /// The number of rows, if requested.
    pub height: Option<u32>,
    /// The file for a drawing.
    pub svg: Option<&'a str>,
    /// How the picture is printed.
    pub look: Look,
    /// Whether files are replaced only once all is done.
    pub atomic: bool,
}

/// How a picture is printed.
#[derive(Clone, Copy)]
pub struct Look {
    /// Letters, even if the locale has block characters.
    pub letters: bool,
    /// Colours, even if standard output is no terminal.
    pub coloured: bool,
    /// No colours, even on a terminal.
    pub plain: bool,
}

impl Look {
    pub(crate) fn of(matches: &ArgMatches<'_>) -> Look {
        Look {
            letters: matches.get_flag("letters"),
            coloured: matches.get_flag("color"),
            plain: matches.get_flag("no-color"),
        }
    }

    /// With colours as `--color` says by a value. `--no-color` stays.
    pub(crate) fn with_color(self, when: When) -> Look {
        Look {
            letters: self.letters,
            coloured: when == When::Always,
            plain: self.plain || when == When::Never,
        }
    }
}

impl<'a> Map<'a> {
    /// The request with these arguments.
    pub(crate) fn request(matches: &ArgMatches<'a>) -> Option<Request<'a>>
        ensures { IfSome result (IsFor (codes "map")) }
    {
        Some(Request::Map(Map {
            image: matches.get_str("IMAGE")?,
            shape: Shape::of(matches),
            after: matches.get_flag("after"),
            moves: matches.get_flag("moves"),
            width: matches.get_one("width"),
            height: matches.get_one("height"),
            svg: matches.get_str("svg"),
            look: Look::of(matches),
            atomic: matches.get_flag("atomic"),
        }))
    }
}

/// Lines that call `map`.
pub fn lines_call_map()
    ensures line { IsCallOf (codes "map") (codes "map" ∷ codes "heap.pcheap" ∷ []) }
    ensures options { IsCallOf (codes "map") (codes "map" ∷ codes "heap.pcheap" ∷ codes "--after" ∷ codes "--width" ∷ codes "100" ∷ codes "--height" ∷ codes "4" ∷ codes "--svg" ∷ codes "heap.svg" ∷ codes "--atomic" ∷ codes "--verbose" ∷ codes "--region-log" ∷ codes "12" ∷ codes "--allowance" ∷ codes "64" ∷ []) }
    ensures looks { IsCallOf (codes "map") (codes "map" ∷ codes "--letters" ∷ codes "--moves" ∷ codes "--color" ∷ codes "--no-color" ∷ codes "heap.pcheap" ∷ []) }
{}
