//! All commands: their definitions, and which of them a line calls. Each has a file of its own, and a line in each of the two
//! lists below.
ghost use Rattle.std.specs.Prelude.{◌≡◌, codes, Some, ℕ, List, map, IfOk, IfSome, MatchResult};
ghost use Rattle.clap.specs.Words.{app_of, subcommand_name_of, with_subcommand};
ghost use Rattle.command_line.specs.CommandLine.{commands, program_words, with_commands};
ghost use Rattle.command_line.specs.Commands.{listed};
ghost use Rattle.command_line.specs.Definition.{app_in};
ghost use Rattle.command_line.specs.Request.{IsFor, IsNoUsage};

pub(crate) mod assemble;
pub(crate) mod board;
pub(crate) mod collect;
pub(crate) mod compare;
pub(crate) mod generate;
pub(crate) mod import;
pub(crate) mod map;
pub(crate) mod order;
pub(crate) mod record;
pub(crate) mod reduce;
pub(crate) mod replay;
pub(crate) mod summary;
pub(crate) mod text;
pub(crate) mod timeline;
pub(crate) mod upgrade;
pub(crate) mod verify;

use crate::definition::Definition;
use crate::request::Request;
use crate::unread::Unread;
use assemble::Assemble;
use clap::{ArgMatches, Command};
use collect::Collect;
use compare::Compare;
use generate::Generate;
use import::Import;
use map::Map;
use order::Order;
use record::Record;
use reduce::Reduce;
use replay::Replay;
use std::alloc::{AllocError, Global};
use summary::Summary;
use text::Text;
use timeline::Timeline;
use upgrade::Upgrade;
use verify::Verify;

const ABOUT: &str = "Parallel mark-compact collection of heap images";

const STATUSES: &str = "\
Streams:
  -  for a file: standard input where it is read, standard output where written

Exit status:
  0    success, also of help and version
  1    a fault, images that differ, a bad dump or text; standard error says why
  2    invalid usage; standard error says why
  3    of compare alone: not comparable; its 1 is a broken order or a hole
  130  interrupted by Ctrl-C; other signals end it by 128 and their number
  141  nobody reads standard output";

/// The definition of the program and its commands.
pub fn words<'a>(alloc: Global) -> Result<Command<'a>, AllocError>
    ensures { IfOk result (λ command. app_of command ≡ commands) }
{
    with_commands(alloc, program(alloc)?, &definitions())
}

/// The definitions of the commands, in the order of help.
fn definitions() -> [Definition; 16]
    ensures { map app_in result ≡ listed }
{
    [
        collect::DEFINITION,
        verify::DEFINITION,
        summary::DEFINITION,
        order::DEFINITION,
        map::DEFINITION,
        text::DEFINITION,
        assemble::DEFINITION,
        record::DEFINITION,
        replay::DEFINITION,
        timeline::DEFINITION,
        upgrade::DEFINITION,
        import::DEFINITION,
        compare::DEFINITION,
        generate::DEFINITION,
        reduce::DEFINITION,
        board::DEFINITION,
    ]
}

/// Adds commands in turn.
fn with_commands<'a>(
    alloc: Global,
    mut program: Command<'a>,
    definitions: &[Definition],
) -> Result<Command<'a>, AllocError>
    ensures { IfOk result (λ made. app_of made
        ≡ with_commands (app_of program.entry) (map app_in definitions.now)) }
{
    for definition in definitions {
        program = with_command(alloc, program, definition)?;
    }
    Ok(program)
}

/// Adds a command.
fn with_command<'a>(
    alloc: Global,
    program: Command<'a>,
    definition: &Definition,
) -> Result<Command<'a>, AllocError>
    ensures { IfOk result (λ made. app_of made
        ≡ with_subcommand (app_of program.entry) (app_in definition.now).top) }
{
    program.subcommand(definition.command(alloc)?)
}

/// The request of a parsed line.
pub fn parse_request<'a>(matches: &ArgMatches<'a>) -> Result<Request<'a>, Unread>
    ensures calls { (name : List ℕ) → subcommand_name_of matches.now ≡ Some name
        → MatchResult result (IsFor name) IsNoUsage }
    ensures board { subcommand_name_of matches.now ≡ Some (codes "board")
        → MatchResult result (IsFor (codes "board")) (λ _. ⊥) }
{
    match matches.subcommand() {
        Some(("board", arguments)) => Ok(board::request(arguments)),
        Some((name, arguments)) => parse_command(name, arguments).ok_or(Unread::NoCommand),
        None => Err(Unread::NoCommand),
    }
}

/// The request of a command with these arguments.
fn parse_command<'a>(name: &str, matches: &ArgMatches<'a>) -> Option<Request<'a>>
    ensures { IfSome result (IsFor name.now) }
{
    match name {
        "collect" => Collect::request(matches),
        "verify" => Verify::request(matches),
        "summary" => Summary::request(matches),
        "order" => Order::request(matches),
        "map" => Map::request(matches),
        "text" => Text::request(matches),
        "assemble" => Assemble::request(matches),
        "record" => Record::request(matches),
        "replay" => Replay::request(matches),
        "timeline" => Timeline::request(matches),
        "upgrade" => Upgrade::request(matches),
        "import" => Import::request(matches),
        "compare" => Compare::request(matches),
        "generate" => Generate::request(matches),
        "reduce" => Reduce::request(matches),
        _ => None,
    }
}

/// The definition of the program, without commands.
fn program<'a>(alloc: Global) -> Result<Command<'a>, AllocError>
    ensures { IfOk result (λ command. app_of command ≡ program_words) }
{
    Command::new(alloc, "pcompact")
        .version("0.3.0")
        .about(ABOUT)
        .after_help(STATUSES)
        .no_binary_name(true)
        .subcommand_required(true)
        .bin_name("pcompact")
}
