//! The command `summary`: its arguments, their help, and how they are parsed.
ghost use Rattle.std.specs.Prelude.{codes, IfSome, ◌∷◌, []};
ghost use Rattle.command_line.specs.CommandLine.{IsCallOf};
ghost use Rattle.command_line.specs.Request.{IsFor};

use crate::arguments::{ALLOWANCE, IMAGE, JSON, PROGRESS, REGION_LOG, VERBOSE};
use crate::definition::{Argument, Definition};
use crate::request::Request;
use crate::shape::Shape;
use clap::ArgMatches;

const EXAMPLE: &str = "\
Example:
  pcompact summary heap.pcheap";

/// The definition of `summary`.
pub const DEFINITION: Definition = Definition {
    name: "summary",
    about: "Print the plan of a collection, region by region",
    example: EXAMPLE,
    arguments: &[
        IMAGE,
        Argument::Flag(
            "heading",
            "Print column names even if output is no terminal",
        ),
        Argument::Valued(REGION_LOG),
        Argument::Valued(ALLOWANCE),
        JSON,
        PROGRESS,
        VERBOSE,
    ],
};

/// The arguments of `summary`.
#[derive(Drop)]
pub struct Summary<'a> {
    /// The file with the image.
    pub image: &'a str,
    /// Whether to print the names of the columns.
    pub heading: bool,
    /// What the image is read with in place of what is in its head.
    pub shape: Shape,
    /// Whether to print a JSON object.
    pub json: bool,
}

impl<'a> Summary<'a> {
    /// The request with these arguments.
    pub(crate) fn request(matches: &ArgMatches<'a>) -> Option<Request<'a>>
        ensures { IfSome result (IsFor (codes "summary")) }
    {
        Some(Request::Summary(Summary {
            image: matches.get_str("IMAGE")?,
            heading: matches.get_flag("heading"),
            shape: Shape::of(matches),
            json: matches.get_flag("json"),
        }))
    }
}

/// Lines that call `summary`.
pub fn lines_call_summary()
    ensures line { IsCallOf (codes "summary") (codes "summary" ∷ codes "heap.pcheap" ∷ []) }
    ensures options { IsCallOf (codes "summary") (codes "summary" ∷ codes "--verbose" ∷ codes "heap.pcheap" ∷ codes "--heading" ∷ codes "--json" ∷ codes "--region-log" ∷ codes "12" ∷ codes "--allowance=64" ∷ []) }
{}
