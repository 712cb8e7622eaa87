//! The command `order`: its arguments, their help, and how they are parsed.
ghost use Rattle.std.specs.Prelude.{codes, IfSome, ◌∷◌, []};
ghost use Rattle.command_line.specs.CommandLine.{IsCallOf};
ghost use Rattle.command_line.specs.Request.{IsFor};

use crate::arguments::{ALLOWANCE, IMAGE, JSON, PROGRESS, REGION_LOG, VERBOSE};
use crate::definition::{Argument, Definition};
use crate::request::Request;
use crate::shape::Shape;
use clap::ArgMatches;

const EXAMPLE: &str = "\
Example:
  pcompact order heap.pcheap";

/// The definition of `order`.
pub const DEFINITION: Definition = Definition {
    name: "order",
    about: "Print how many workers a collection can keep busy",
    example: EXAMPLE,
    arguments: &[
        IMAGE,
        Argument::Valued(REGION_LOG),
        Argument::Valued(ALLOWANCE),
        JSON,
        PROGRESS,
        VERBOSE,
    ],
};

/// The arguments of `order`.
#[derive(Drop)]
pub struct Order<'a> {
    /// The file with the image.
    pub image: &'a str,
    /// What the image is read with in place of what is in its head.
    pub shape: Shape,
    /// Whether to print a JSON object.
    pub json: bool,
}

impl<'a> Order<'a> {
    /// The request with these arguments.
    pub(crate) fn request(matches: &ArgMatches<'a>) -> Option<Request<'a>>
        ensures { IfSome result (IsFor (codes "order")) }
    {
        Some(Request::Order(Order {
            image: matches.get_str("IMAGE")?,
            shape: Shape::of(matches),
            json: matches.get_flag("json"),
        }))
    }
}

/// Lines that call `order`.
pub fn lines_call_order()
    ensures line { IsCallOf (codes "order") (codes "order" ∷ codes "heap.pcheap" ∷ []) }
    ensures options { IsCallOf (codes "order") (codes "order" ∷ codes "--verbose" ∷ codes "heap.pcheap" ∷ codes "--region-log" ∷ codes "12" ∷ codes "--allowance" ∷ codes "64" ∷ []) }
{}
