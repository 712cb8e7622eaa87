//! The commands of the program. Each is a module of `collection_commands` or `heap_commands`, and has an arm below. The
//! crate `command_line` parses its arguments.
ghost use Rattle.std.specs.Prelude.{◌≡◌, codes, ℕ, List, IfOk, IfErr};
ghost use Rattle.command_line.specs.Request.{IsFor, asks_steps, rows_of};
ghost use Rattle.heap_commands.specs.Board.{IsBoardShown};
ghost use Rattle.heap_commands.specs.Import.{IsImportText};
ghost use Rattle.pcompact.specs.Commands.{IsPrintedBy};
ghost use Rattle.command_support.specs.Failure.{out_of_memory};

use collection_commands::{collect, record, verify};
use command_files::{SystemFile, WorkDone};
use command_line::Request;
use command_support::{Screen, Trouble};
use heap_commands::{
    assemble, board, compare, generate, import, map, order, reduce, replay, summarize, text,
    timeline, upgrade,
};
use std::os::unix::fs::FileExt;
use std::rt::Files;
use std::sync::Wait;
use std::thread::Threads;
use std::time::Clock;

/// Runs the requested command, and returns what it prints on this screen.
pub fn answer<'a, R: Files + AllocGlobal + Threads + Wait + Clock + Sync>(
    rt: &R,
    screen: Screen,
    request: Request<'a>,
) -> Result<WorkDone<'a>, Trouble>
where
    R::File: FileExt + SystemFile + Sync,
    ensures prints { (name : List ℕ) → IsFor name request.entry
        → IfOk result (λ done. IsPrintedBy name done.text.items) }
    // Without `--histogram`, that is the line with the figures alone.
    ensures import { IsFor (codes "import") request.entry
        → IfOk result (λ done. IsImportText (rows_of request.entry) done.text.items) }
    // Without `--steps`, that is the report alone.
    ensures report { IsFor (codes "board") request.entry
        → IfOk result (λ done. IsBoardShown (asks_steps request.entry) done.text.items) }
    ensures board { IsFor (codes "board") request.entry
        → IfErr result (λ trouble. trouble.failure ≡ out_of_memory) }
{
    match request {
        Request::Board => board::answer(rt),
        Request::BoardSteps => board::answer_with_steps(rt),
        Request::Summary(request) => summarize::answer(rt, screen, request),
        Request::Collect(request) => collect::answer(rt, request),
        Request::Verify(request) => verify::answer(rt, screen, request),
        Request::Record(request) => record::answer(rt, request),
        Request::Replay(request) => replay::answer(rt, request),
        Request::Upgrade(request) => upgrade::answer(rt, request),
        Request::Import(request) => import::answer(rt, request),
        Request::Compare(request) => compare::answer(rt, request),
        Request::Generate(request) => generate::answer(rt, request),
        Request::Reduce(request) => reduce::answer(rt, request),
        Request::Order(request) => order::answer(rt, request),
        Request::Text(request) => text::answer(rt, request),
        Request::Assemble(request) => assemble::answer(rt, request),
        Request::Map(request) => map::answer(rt, screen, request),
        Request::Timeline(request) => timeline::answer(rt, screen, request),
        Request::Show(text) => Ok(WorkDone::printing(text.into_bytes())),
    }
}
