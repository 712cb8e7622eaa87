//! The command `verify`: its arguments, their help, and how they are parsed.
ghost use Rattle.std.specs.Prelude.{codes, IfSome, ◌∷◌, []};
ghost use Rattle.command_line.specs.CommandLine.{IsCallOf};
ghost use Rattle.command_line.specs.Request.{IsFor};

use crate::arguments::{ALLOWANCE, JSON, PROGRESS, REGION_LOG, STATS, VERBOSE};
use crate::definition::{Argument, Definition, Valued};
use crate::request::Request;
use crate::shape::Shape;
use clap::ArgMatches;

const EXAMPLE: &str = "\
Example:
  pcompact verify heap.pcheap out.pcheap";

/// The definition of `verify`.
pub const DEFINITION: Definition = Definition {
    name: "verify",
    about: "Compare a heap image with the compaction of another",
    example: EXAMPLE,
    arguments: &[
        Argument::File(
            "BEFORE",
            "The image before its collection; - is standard input",
        ),
        Argument::File(
            "AFTER",
            "The image to compare with its compaction; - is standard input",
        ),
        Argument::Flag(
            "explain",
            "Say which words differ and where references lead",
        ),
        Argument::Flag("ignore-free", "Don't compare the words above the top"),
        Argument::Valued(Valued {
            help: "Read BEFORE with regions of 2^k words, k from 3 to 20",
            ..REGION_LOG
        }),
        Argument::Valued(Valued {
            help: "Read BEFORE as if its prefix might keep m dead words",
            ..ALLOWANCE
        }),
        JSON,
        STATS,
        PROGRESS,
        VERBOSE,
    ],
};

/// The arguments of `verify`.
#[derive(Drop)]
pub struct Verify<'a> {
    /// The file with the image as it was.
    pub before: &'a str,
    /// The file with the image that should be its compaction.
    pub after: &'a str,
    /// Whether to say which words differ.
    pub explain: bool,
    /// Whether words at or above the new top count as equal.
    pub ignore_free: bool,
    /// What BEFORE is read with in place of what is in its head.
    pub shape: Shape,
    /// Whether to print a JSON object.
    pub json: bool,
    /// Whether to print timings and peak memory.
    pub stats: bool,
}

impl<'a> Verify<'a> {
    /// The request with these arguments.
    pub(crate) fn request(matches: &ArgMatches<'a>) -> Option<Request<'a>>
        ensures { IfSome result (IsFor (codes "verify")) }
    {
        let required = (matches.get_str("BEFORE"), matches.get_str("AFTER"));
        let (Some(before), Some(after)) = required else {
            return None;
        };
        Some(Request::Verify(Verify {
            before,
            after,
            explain: matches.get_flag("explain"),
            ignore_free: matches.get_flag("ignore-free"),
            shape: Shape::of(matches),
            json: matches.get_flag("json"),
            stats: matches.get_flag("stats"),
        }))
    }
}

/// Lines that call `verify`.
pub fn line_calls_verify()
    ensures line { IsCallOf (codes "verify") (codes "verify" ∷ codes "heap.pcheap" ∷ codes "out.pcheap" ∷ []) }
    ensures options { IsCallOf (codes "verify") (codes "verify" ∷ codes "heap.pcheap" ∷ codes "out.pcheap" ∷ codes "--stats" ∷ codes "--region-log" ∷ codes "12" ∷ codes "--allowance" ∷ codes "64" ∷ codes "--progress" ∷ []) }
{}
