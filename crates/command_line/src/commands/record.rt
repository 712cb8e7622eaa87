//! The command `record`: its arguments, their help, and how they are parsed.
ghost use Rattle.std.specs.Prelude.{codes, IfSome, ◌∷◌, []};
ghost use Rattle.command_line.specs.CommandLine.{IsCallOf};
ghost use Rattle.command_line.specs.Request.{IsFor};

use crate::arguments::{
    ALLOWANCE, ATOMIC, IMAGE, OUT, PROGRESS, REGION_LOG, STATS, VERBOSE, WORKERS,
};
use crate::definition::{Argument, Definition};
use crate::request::Request;
use crate::shape::Shape;
use clap::ArgMatches;

const EXAMPLE: &str = "\
Example:
  pcompact record heap.pcheap out.pcheap schedule --workers 4";

/// The definition of `record`.
pub const DEFINITION: Definition = Definition {
    name: "record",
    about: "Collect a heap image and record what each worker does",
    example: EXAMPLE,
    arguments: &[
        IMAGE,
        OUT,
        Argument::File(
            "SCHEDULE",
            "Where to write the schedule; - is standard output",
        ),
        WORKERS,
        Argument::Flag(
            "turns",
            "Let workers take turns, so that each has some work",
        ),
        Argument::Valued(REGION_LOG),
        Argument::Valued(ALLOWANCE),
        ATOMIC,
        STATS,
        PROGRESS,
        VERBOSE,
    ],
};

/// The arguments of `record`.
#[derive(Drop)]
pub struct Record<'a> {
    /// The file with the image.
    pub image: &'a str,
    /// The file for the compacted image.
    pub out: &'a str,
    /// The file for the schedule.
    pub schedule: &'a str,
    /// The number of workers, if it is on the line.
    pub workers: Option<u32>,
    /// Whether workers take turns.
    pub turns: bool,
    /// What the image is read with in place of what is in its head.
    pub shape: Shape,
    /// Whether files are replaced only once all is done.
    pub atomic: bool,
    /// Whether to print timings and peak memory.
    pub stats: bool,
}

impl<'a> Record<'a> {
    /// The request with these arguments.
    pub(crate) fn request(matches: &ArgMatches<'a>) -> Option<Request<'a>>
        ensures { IfSome result (IsFor (codes "record")) }
    {
        let required = (
            matches.get_str("IMAGE"),
            matches.get_str("OUT"),
            matches.get_str("SCHEDULE"),
        );
        let (Some(image), Some(out), Some(schedule)) = required else {
            return None;
        };
        Some(Request::Record(Record {
            image,
            out,
            schedule,
            workers: matches.get_one("workers"),
            turns: matches.get_flag("turns"),
            shape: Shape::of(matches),
            atomic: matches.get_flag("atomic"),
            stats: matches.get_flag("stats"),
        }))
    }
}

/// Lines that call `record`.
pub fn line_calls_record()
    ensures default { IsCallOf (codes "record") (codes "record" ∷ codes "heap.pcheap" ∷ codes "out.pcheap" ∷ codes "schedule" ∷ []) }
    ensures line { IsCallOf (codes "record") (codes "record" ∷ codes "heap.pcheap" ∷ codes "out.pcheap" ∷ codes "schedule" ∷ codes "--workers=2" ∷ []) }
    ensures options { IsCallOf (codes "record") (codes "record" ∷ codes "heap.pcheap" ∷ codes "out.pcheap" ∷ codes "schedule" ∷ codes "--workers=2" ∷ codes "--turns" ∷ codes "--stats" ∷ codes "--region-log" ∷ codes "12" ∷ codes "--allowance" ∷ codes "64" ∷ codes "--progress" ∷ []) }
{}
