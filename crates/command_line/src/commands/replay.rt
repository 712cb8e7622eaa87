//! The command `replay`: its arguments, their help, and how they are parsed.
ghost use Rattle.std.specs.Prelude.{codes, IfSome, ◌∷◌, []};
ghost use Rattle.command_line.specs.CommandLine.{IsCallOf};
ghost use Rattle.command_line.specs.Request.{IsFor};

use crate::arguments::{ALLOWANCE, IMAGE, PROGRESS, REGION_LOG, SCHEDULE, VERBOSE};
use crate::definition::{Argument, Definition};
use crate::request::Request;
use crate::shape::Shape;
use clap::ArgMatches;

const EXAMPLE: &str = "\
Example:
  pcompact replay heap.pcheap schedule";

/// The definition of `replay`.
pub const DEFINITION: Definition = Definition {
    name: "replay",
    about: "Replay a schedule word by word and print it with all replies",
    example: EXAMPLE,
    arguments: &[
        IMAGE,
        SCHEDULE,
        Argument::Valued(REGION_LOG),
        Argument::Valued(ALLOWANCE),
        PROGRESS,
        VERBOSE,
    ],
};

/// The arguments of `replay`.
#[derive(Drop)]
pub struct Replay<'a> {
    /// The file with the image.
    pub image: &'a str,
    /// The file with the schedule.
    pub schedule: &'a str,
    /// What the image is read with in place of what is in its head.
    pub shape: Shape,
}

impl<'a> Replay<'a> {
    /// The request with these arguments.
    pub(crate) fn request(matches: &ArgMatches<'a>) -> Option<Request<'a>>
        ensures { IfSome result (IsFor (codes "replay")) }
    {
        let required = (matches.get_str("IMAGE"), matches.get_str("SCHEDULE"));
        let (Some(image), Some(schedule)) = required else {
            return None;
        };
        Some(Request::Replay(Replay {
            image,
            schedule,
            shape: Shape::of(matches),
        }))
    }
}

/// Lines that call `replay`.
pub fn line_calls_replay()
    ensures line { IsCallOf (codes "replay") (codes "replay" ∷ codes "heap.pcheap" ∷ codes "schedule" ∷ []) }
    ensures options { IsCallOf (codes "replay") (codes "replay" ∷ codes "heap.pcheap" ∷ codes "schedule" ∷ codes "--region-log" ∷ codes "12" ∷ codes "--allowance" ∷ codes "64" ∷ codes "--verbose" ∷ codes "--progress" ∷ []) }
{}
