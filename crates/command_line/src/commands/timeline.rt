//! The command `timeline`: its arguments, their help, and how they are parsed.
ghost use Rattle.std.specs.Prelude.{codes, IfSome, ◌∷◌, []};
ghost use Rattle.command_line.specs.CommandLine.{IsCallOf};
ghost use Rattle.command_line.specs.Request.{IsFor};

use super::map::Look;
use crate::arguments::{
    ALLOWANCE, ATOMIC, COLOR, IMAGE, LETTERS, NO_COLOR, PROGRESS, REGION_LOG, SCHEDULE, SVG,
    VERBOSE, WIDTH,
};
use crate::definition::{Argument, Definition, Valued, Values};
use crate::request::Request;
use crate::shape::Shape;
use clap::ArgMatches;

const EXAMPLE: &str = "\
Example:
  pcompact record heap.pcheap out.pcheap schedule --workers 4
  pcompact timeline heap.pcheap schedule --html timeline.html";

/// The definition of `timeline`.
pub const DEFINITION: Definition = Definition {
    name: "timeline",
    about: "Draw which worker has which region along the lines of a schedule",
    example: EXAMPLE,
    arguments: &[
        IMAGE,
        SCHEDULE,
        Argument::Valued(Valued {
            help: "Cells of a lane, 1 to 1000 (default: what fits, or 64)",
            ..WIDTH
        }),
        Argument::Valued(Valued {
            help: "Draw into this file as SVG, and print only the figures",
            ..SVG
        }),
        HTML,
        Argument::Valued(REGION_LOG),
        Argument::Valued(ALLOWANCE),
        LETTERS,
        COLOR,
        NO_COLOR,
        ATOMIC,
        PROGRESS,
        VERBOSE,
    ],
};

/// The option `--html`, the file for a page.
const HTML: Argument = Argument::Valued(Valued {
    name: "html",
    value: "FILE",
    values: Values::Texts,
    is_required: false,
    help: "Write a page of the schedule, and print only the figures",
});

/// The arguments of `timeline`.
#[derive(Drop)]
pub struct Timeline<'a> {
    /// The file with the image.
    pub image: &'a str,
    /// The file with the schedule.
    pub schedule: &'a str,
    /// What the image is read with in place of what is in its head.
    pub shape: Shape,
    /// The most cells of a lane, if requested.
    pub width: Option<u32>,
    /// The file for a drawing.
    pub svg: Option<&'a str>,
    /// The file for a page.
    pub html: Option<&'a str>,
    /// How the lanes are printed.
    pub look: Look,
    /// Whether files are replaced only once all is done.
    pub atomic: bool,
}

impl<'a> Timeline<'a> {
    /// The request with these arguments.
    pub(crate) fn request(matches: &ArgMatches<'a>) -> Option<Request<'a>>
        ensures { IfSome result (IsFor (codes "timeline")) }
    {
        let required = (matches.get_str("IMAGE"), matches.get_str("SCHEDULE"));
        let (Some(image), Some(schedule)) = required else {
            return None;
        };
        Some(Request::Timeline(Timeline {
            image,
            schedule,
            shape: Shape::of(matches),
            width: matches.get_one("width"),
            svg: matches.get_str("svg"),
            html: matches.get_str("html"),
            look: Look::of(matches),
            atomic: matches.get_flag("atomic"),
        }))
    }
}

/// Lines that call `timeline`.
pub fn lines_call_timeline()
    ensures line { IsCallOf (codes "timeline") (codes "timeline" ∷ codes "heap.pcheap" ∷ codes "schedule" ∷ []) }
    ensures drawing { IsCallOf (codes "timeline") (codes "timeline" ∷ codes "heap.pcheap" ∷ codes "schedule" ∷ codes "--svg" ∷ codes "timeline.svg" ∷ codes "--atomic" ∷ codes "--verbose" ∷ codes "--region-log" ∷ codes "12" ∷ codes "--allowance" ∷ codes "64" ∷ []) }
    ensures page { IsCallOf (codes "timeline") (codes "timeline" ∷ codes "--html" ∷ codes "timeline.html" ∷ codes "heap.pcheap" ∷ codes "schedule" ∷ []) }
    ensures looks { IsCallOf (codes "timeline") (codes "timeline" ∷ codes "--letters" ∷ codes "--color" ∷ codes "--no-color" ∷ codes "--width" ∷ codes "100" ∷ codes "heap.pcheap" ∷ codes "schedule" ∷ []) }
{}
