//! Parsing the command line.
ghost use Rattle.std.specs.Prelude.{◌≡◌, ◌≢◌, ◌∷◌, [], codes, map, string_bytes, ℕ, List, Err, IfOk, IfErr, MatchResult};
ghost use Rattle.clap.specs.Words.{kind_of};
ghost use Rattle.command_line.specs.CommandLine.{AreCallOf, AreWords, IsRefused};
ghost use Rattle.command_line.specs.Request.{IsFor, IsNoUsage};
ghost use Rattle.command_line.specs.declared.unread.Unread.TheVariants.{Memory};

use crate::commands;
use crate::request::Request;
use crate::unread::Unread;
use crate::usage_text::{help_text, usage_text};
use clap::Error;
use clap::error::ErrorKind;
use std::alloc::Global;

/// Parses the words after the program's name.
///
/// Words that call a command give its request, unless memory runs out. Words that are refused give none.
pub fn read(alloc: Global, words: &[String]) -> Result<Request<'_>, Unread>
    ensures calls { (name : List ℕ) → AreCallOf name words.now
        → MatchResult result (IsFor name) IsNoUsage }
    ensures refused { IsRefused (map string_bytes words.now) → IfOk result (λ _. ⊥) }
    ensures board { AreWords words.now (codes "board" ∷ [])
        → MatchResult result (IsFor (codes "board")) (λ unread. unread ≡ Memory) }
{
    match commands::words(alloc)?.try_get_matches_from(words) {
        Ok(matches) => commands::parse_request(&matches),
        Err(error) => interpret_error(alloc, &error),
    }
}

/// The result for words that are no call of a command: help, the version, a usage error, or that memory ran out.
fn interpret_error<'a>(alloc: Global, error: &Error) -> Result<Request<'a>, Unread>
    ensures memory { kind_of error.now ≡ ErrorKind.OutOfMemory → result ≡ Err Memory }
    ensures refused { kind_of error.now ≢ ErrorKind.DisplayHelp → kind_of error.now ≢ ErrorKind.DisplayVersion
        → IfOk result (λ _. ⊥) }
{
    if error.kind() == ErrorKind::OutOfMemory {
        return Err(Unread::Memory);
    }
    let text = error.to_string(alloc)?;
    if error.use_stderr() {
        Err(Unread::Usage(usage_text(alloc, text.as_str())?))
    } else {
        Ok(Request::Show(help_text(alloc, text.as_str())?))
    }
}
