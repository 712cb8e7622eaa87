//! The command `compare`: its arguments, their help, and how they are parsed.
ghost use Rattle.std.specs.Prelude.{codes, IfSome, ◌∷◌, []};
ghost use Rattle.command_line.specs.CommandLine.{IsCallOf};
ghost use Rattle.command_line.specs.Request.{IsFor};

use crate::arguments::{JSON, PROGRESS, VERBOSE};
use crate::definition::{Argument, Definition};
use crate::request::Request;
use clap::ArgMatches;

const EXAMPLE: &str = "\
Example:
  jcmd PID GC.heap_dump -all /tmp/before.hprof
  jcmd PID GC.run
  jcmd PID GC.heap_dump -all /tmp/after.hprof
  pcompact compare /tmp/before.hprof /tmp/after.hprof";

/// The definition of `compare`.
pub const DEFINITION: Definition = Definition {
    name: "compare",
    about: "Compare the heap dumps before and after a collection",
    example: EXAMPLE,
    arguments: &[
        Argument::File(
            "BEFORE",
            "A heap dump before the collection; - is standard input",
        ),
        Argument::File(
            "AFTER",
            "A heap dump of the same machine after it; - is standard input",
        ),
        Argument::Flag("explain", "List holes, changed data and conflicts, too"),
        JSON,
        PROGRESS,
        VERBOSE,
    ],
};

/// The arguments of `compare`.
#[derive(Drop)]
pub struct Compare<'a> {
    /// The file with the dump before the collection.
    pub before: &'a str,
    /// The file with the dump after it.
    pub after: &'a str,
    /// Whether to list more than the objects out of order.
    pub explain: bool,
    /// Whether to print a JSON object.
    pub json: bool,
}

impl<'a> Compare<'a> {
    /// The request with these arguments.
    pub(crate) fn request(matches: &ArgMatches<'a>) -> Option<Request<'a>>
        ensures { IfSome result (IsFor (codes "compare")) }
    {
        let required = (matches.get_str("BEFORE"), matches.get_str("AFTER"));
        let (Some(before), Some(after)) = required else {
            return None;
        };
        Some(Request::Compare(Compare {
            before,
            after,
            explain: matches.get_flag("explain"),
            json: matches.get_flag("json"),
        }))
    }
}

/// Lines that call `compare`.
pub fn lines_call_compare()
    ensures line { IsCallOf (codes "compare") (codes "compare" ∷ codes "before.hprof" ∷ codes "after.hprof" ∷ []) }
    ensures options { IsCallOf (codes "compare") (codes "compare" ∷ codes "before.hprof" ∷ codes "after.hprof" ∷ codes "--explain" ∷ codes "--json" ∷ codes "--progress" ∷ codes "--verbose" ∷ []) }
{}
