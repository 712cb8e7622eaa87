//! The command `board`: its option, its help, and how it is parsed.
ghost use Rattle.std.specs.Prelude.{codes, ◌∷◌, []};
ghost use Rattle.command_line.specs.CommandLine.{IsCallOf};
ghost use Rattle.command_line.specs.Request.{IsFor};

use crate::definition::{Argument, Definition};
use crate::request::Request;
use clap::ArgMatches;

const EXAMPLE: &str = "\
Example:
  pcompact board --steps";

/// The definition of `board`.
pub const DEFINITION: Definition = Definition {
    name: "board",
    about: "Schedule three regions among two workers, and count claims",
    example: EXAMPLE,
    arguments: &[Argument::Flag(
        "steps",
        "Print the calls of one order first, with their answers",
    )],
};

/// The request with these arguments.
pub(crate) fn request<'a>(matches: &ArgMatches<'a>) -> Request<'a>
    ensures { IsFor (codes "board") result }
{
    if matches.get_flag("steps") {
        Request::BoardSteps
    } else {
        Request::Board
    }
}

/// Lines that call `board`.
pub fn line_calls_board()
    ensures line { IsCallOf (codes "board") (codes "board" ∷ []) }
    ensures steps { IsCallOf (codes "board") (codes "board" ∷ codes "--steps" ∷ []) }
{}
