//! The command `collect`: its arguments, their help, and how they are parsed.
ghost use Rattle.std.specs.Prelude.{codes, IfSome, ◌∷◌, []};
ghost use Rattle.command_line.specs.CommandLine.{IsCallOf};
ghost use Rattle.command_line.specs.Request.{IsFor};

use crate::arguments::{
    ALLOWANCE, ATOMIC, IMAGE, JSON, OUT, PROGRESS, REGION_LOG, STATS, VERBOSE, WORKERS,
};
use crate::definition::{Argument, Definition};
use crate::request::Request;
use crate::shape::Shape;
use clap::ArgMatches;

const EXAMPLE: &str = "\
Example:
  pcompact collect heap.pcheap out.pcheap --workers 4";

/// The definition of `collect`.
pub const DEFINITION: Definition = Definition {
    name: "collect",
    about: "Collect a heap image and write the compacted one",
    example: EXAMPLE,
    arguments: &[
        IMAGE,
        OUT,
        WORKERS,
        Argument::Valued(REGION_LOG),
        Argument::Valued(ALLOWANCE),
        ATOMIC,
        JSON,
        STATS,
        PROGRESS,
        VERBOSE,
    ],
};

/// The arguments of `collect`.
#[derive(Drop)]
pub struct Collect<'a> {
    /// The file with the image.
    pub image: &'a str,
    /// The file for the compacted image.
    pub out: &'a str,
    /// The number of workers, if it is on the line.
    pub workers: Option<u32>,
    /// What the image is read with in place of what is in its head.
    pub shape: Shape,
    /// Whether files are replaced only once all is done.
    pub atomic: bool,
    /// Whether to print a JSON object.
    pub json: bool,
    /// Whether to print timings and peak memory.
    pub stats: bool,
}

impl<'a> Collect<'a> {
    /// The request with these arguments.
    pub(crate) fn request(matches: &ArgMatches<'a>) -> Option<Request<'a>>
        ensures { IfSome result (IsFor (codes "collect")) }
    {
        let required = (matches.get_str("IMAGE"), matches.get_str("OUT"));
        let (Some(image), Some(out)) = required else {
            return None;
        };
        Some(Request::Collect(Collect {
            image,
            out,
            workers: matches.get_one("workers"),
            shape: Shape::of(matches),
            atomic: matches.get_flag("atomic"),
            json: matches.get_flag("json"),
            stats: matches.get_flag("stats"),
        }))
    }
}

/// Lines that call `collect`.
pub fn lines_call_collect()
    ensures default { IsCallOf (codes "collect") (codes "collect" ∷ codes "heap.pcheap" ∷ codes "out.pcheap" ∷ []) }
    ensures letters { IsCallOf (codes "collect") (codes "collect" ∷ codes "heap.pcheap" ∷ codes "out.pcheap" ∷ codes "-vw" ∷ codes "64" ∷ []) }
    ensures line { IsCallOf (codes "collect") (codes "collect" ∷ codes "heap.pcheap" ∷ codes "out.pcheap" ∷ codes "--workers" ∷ codes "2" ∷ []) }
    ensures options { IsCallOf (codes "collect") (codes "collect" ∷ codes "heap.pcheap" ∷ codes "heap.pcheap" ∷ codes "--workers" ∷ codes "2" ∷ codes "--atomic" ∷ codes "--stats" ∷ codes "--json" ∷ codes "--verbose" ∷ codes "--region-log" ∷ codes "12" ∷ codes "--allowance" ∷ codes "64" ∷ codes "--progress" ∷ []) }
{}
