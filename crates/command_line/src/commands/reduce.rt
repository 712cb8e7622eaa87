//! The command `reduce`: its arguments, their help, and how they are parsed.
ghost use Rattle.std.specs.Prelude.{codes, IfSome, ◌∷◌, []};
ghost use Rattle.command_line.specs.CommandLine.{IsCallOf};
ghost use Rattle.command_line.specs.Request.{IsFor};

use crate::arguments::{ATOMIC, IMAGE, PROGRESS, VERBOSE};
use crate::definition::{Argument, Definition, Valued, Values};
use crate::request::Request;
use clap::ArgMatches;

const EXAMPLE: &str = "\
Example:
  pcompact reduce heap.pcheap smaller.pcheap --step 5";

/// The definition of `reduce`.
pub const DEFINITION: Definition = Definition {
    name: "reduce",
    about: "Make a heap image smaller by one step; pcompact shrink takes many",
    example: EXAMPLE,
    arguments: &[
        IMAGE,
        Argument::File(
            "OUT",
            "Where to write the smaller image; - is standard output",
        ),
        STEP,
        PROGRESS,
        ATOMIC,
        VERBOSE,
    ],
};

/// The option `--step`, the first step to try.
const STEP: Argument = Argument::Valued(Valued {
    name: "step",
    value: "n",
    values: Values::LargeNumbers(0, u64::MAX),
    is_required: false,
    help: "The first step to try (default 0)",
});

/// The arguments of `reduce`.
#[derive(Drop)]
pub struct Reduce<'a> {
    /// The file with the image.
    pub image: &'a str,
    /// The file for the smaller image.
    pub out: &'a str,
    /// The first step to try.
    pub step: u64,
    /// Whether files are replaced only once all is done.
    pub atomic: bool,
}

impl<'a> Reduce<'a> {
    /// The request with these arguments.
    pub(crate) fn request(matches: &ArgMatches<'a>) -> Option<Request<'a>>
        ensures { IfSome result (IsFor (codes "reduce")) }
    {
        let required = (matches.get_str("IMAGE"), matches.get_str("OUT"));
        let (Some(image), Some(out)) = required else {
            return None;
        };
        Some(Request::Reduce(Reduce {
            image,
            out,
            step: matches.get_one("step").unwrap_or(0),
            atomic: matches.get_flag("atomic"),
        }))
    }
}

/// Lines that call `reduce`.
pub fn lines_call_reduce()
    ensures line { IsCallOf (codes "reduce") (codes "reduce" ∷ codes "heap.pcheap" ∷ codes "out.pcheap" ∷ []) }
    ensures options { IsCallOf (codes "reduce") (codes "reduce" ∷ codes "heap.pcheap" ∷ codes "--step" ∷ codes "17" ∷ codes "--atomic" ∷ codes "out.pcheap" ∷ []) }
{}
