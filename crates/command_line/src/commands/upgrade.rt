//! The command `upgrade`: its arguments, their help, and how they are parsed.
ghost use Rattle.std.specs.Prelude.{codes, IfSome, ◌∷◌, []};
ghost use Rattle.command_line.specs.CommandLine.{IsCallOf};
ghost use Rattle.command_line.specs.Request.{IsFor};

use crate::arguments::{ATOMIC, IMAGE, PROGRESS, VERBOSE};
use crate::definition::{Argument, Definition, Valued, Values};
use crate::request::Request;
use clap::ArgMatches;

/// The version of the upgraded image without `--to`.
const USUAL_VERSION: u32 = 2;

const EXAMPLE: &str = "\
Example:
  pcompact upgrade heap.pcheap rooted.pcheap";

/// The definition of `upgrade`.
pub const DEFINITION: Definition = Definition {
    name: "upgrade",
    about: "Convert a heap image to version 2 or 3, with roots",
    example: EXAMPLE,
    arguments: &[
        IMAGE,
        Argument::File(
            "OUT",
            "Where to write the upgraded image; - is standard output",
        ),
        TO,
        PROGRESS,
        ATOMIC,
        VERBOSE,
    ],
};

/// The option `--to`, the version of the upgraded image.
const TO: Argument = Argument::Valued(Valued {
    name: "to",
    value: "v",
    values: Values::Numbers(2, 3),
    is_required: false,
    help: "Version of the upgraded image, from 2 to 3 (default 2)",
});

/// The arguments of `upgrade`.
#[derive(Drop)]
pub struct Upgrade<'a> {
    /// The file with the image.
    pub image: &'a str,
    /// The file for the upgraded image.
    pub out: &'a str,
    /// The version of the upgraded image.
    pub to: u32,
    /// Whether files are replaced only once all is done.
    pub atomic: bool,
}

impl<'a> Upgrade<'a> {
    /// The request with these arguments.
    pub(crate) fn request(matches: &ArgMatches<'a>) -> Option<Request<'a>>
        ensures { IfSome result (IsFor (codes "upgrade")) }
    {
        let required = (matches.get_str("IMAGE"), matches.get_str("OUT"));
        let (Some(image), Some(out)) = required else {
            return None;
        };
        Some(Request::Upgrade(Upgrade {
            image,
            out,
            to: matches.get_one("to").unwrap_or(USUAL_VERSION),
            atomic: matches.get_flag("atomic"),
        }))
    }
}

/// Lines that call `upgrade`.
pub fn lines_call_upgrade()
    ensures line { IsCallOf (codes "upgrade") (codes "upgrade" ∷ codes "heap.pcheap" ∷ codes "out.pcheap" ∷ []) }
    ensures options { IsCallOf (codes "upgrade") (codes "upgrade" ∷ codes "heap.pcheap" ∷ codes "--to" ∷ codes "3" ∷ codes "--atomic" ∷ codes "out.pcheap" ∷ []) }
{}
