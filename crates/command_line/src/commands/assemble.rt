//! The command `assemble`: its arguments, their help, and how they are parsed.
ghost use Rattle.std.specs.Prelude.{codes, IfSome, ◌∷◌, []};
ghost use Rattle.command_line.specs.CommandLine.{IsCallOf};
ghost use Rattle.command_line.specs.Request.{IsFor};

use crate::arguments::{ATOMIC, NEW_IMAGE, PROGRESS, VERBOSE};
use crate::definition::{Argument, Definition};
use crate::request::Request;
use clap::ArgMatches;

const EXAMPLE: &str = "\
Example:
  pcompact assemble heap.txt heap.pcheap";

/// The definition of `assemble`.
pub const DEFINITION: Definition = Definition {
    name: "assemble",
    about: "Convert a heap text to a heap image",
    example: EXAMPLE,
    arguments: &[
        Argument::File("TEXT", "A heap text; - is standard input"),
        NEW_IMAGE,
        ATOMIC,
        PROGRESS,
        VERBOSE,
    ],
};

/// The arguments of `assemble`.
#[derive(Drop)]
pub struct Assemble<'a> {
    /// The file with the text.
    pub text: &'a str,
    /// The file for the image.
    pub image: &'a str,
    /// Whether files are replaced only once all is done.
    pub atomic: bool,
}

impl<'a> Assemble<'a> {
    /// The request with these arguments.
    pub(crate) fn request(matches: &ArgMatches<'a>) -> Option<Request<'a>>
        ensures { IfSome result (IsFor (codes "assemble")) }
    {
        let required = (matches.get_str("TEXT"), matches.get_str("IMAGE"));
        let (Some(text), Some(image)) = required else {
            return None;
        };
        Some(Request::Assemble(Assemble {
            text,
            image,
            atomic: matches.get_flag("atomic"),
        }))
    }
}

/// Lines that call `assemble`.
pub fn lines_call_assemble()
    ensures line { IsCallOf (codes "assemble") (codes "assemble" ∷ codes "heap.txt" ∷ codes "heap.pcheap" ∷ []) }
    ensures options { IsCallOf (codes "assemble") (codes "assemble" ∷ codes "heap.txt" ∷ codes "--atomic" ∷ codes "heap.pcheap" ∷ []) }
{}
