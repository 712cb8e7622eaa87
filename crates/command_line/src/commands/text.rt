//! The command `text`: its arguments, their help, and how they are parsed.
ghost use Rattle.std.specs.Prelude.{codes, IfSome, ◌∷◌, []};
ghost use Rattle.command_line.specs.CommandLine.{IsCallOf};
ghost use Rattle.command_line.specs.Request.{IsFor};

use crate::arguments::{IMAGE, PROGRESS, VERBOSE};
use crate::definition::Definition;
use crate::request::Request;
use clap::ArgMatches;

const EXAMPLE: &str = "\
Example:
  pcompact text heap.pcheap";

/// The definition of `text`.
pub const DEFINITION: Definition = Definition {
    name: "text",
    about: "Print a heap image as text",
    example: EXAMPLE,
    arguments: &[IMAGE, PROGRESS, VERBOSE],
};

/// The arguments of `text`.
#[derive(Drop)]
pub struct Text<'a> {
    /// The file with the image.
    pub image: &'a str,
}

impl<'a> Text<'a> {
    /// The request with these arguments.
    pub(crate) fn request(matches: &ArgMatches<'a>) -> Option<Request<'a>>
        ensures { IfSome result (IsFor (codes "text")) }
    {
        Some(Request::Text(Text {
            image: matches.get_str("IMAGE")?,
        }))
    }
}

/// Lines that call `text`.
pub fn lines_call_text()
    ensures line { IsCallOf (codes "text") (codes "text" ∷ codes "heap.pcheap" ∷ []) }
    ensures options { IsCallOf (codes "text") (codes "text" ∷ codes "--verbose" ∷ codes "heap.pcheap" ∷ []) }
{}
