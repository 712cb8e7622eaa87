ghost use Rattle.std.specs.Prelude.{◌≡◌, true, ℕ, List, IfOk, IfErr, MatchResult};
ghost use Rattle.board_sweep.specs.Report.{IsBoardText};
ghost use Rattle.command_support.specs.Failure.{out_of_memory};
ghost use Rattle.heap_commands.specs.Board.{IsBoard, IsBoardShown};

use board_sweep::{steps_of_two_workers, sweep_with_two_workers};
use command_files::WorkDone;
use command_support::Trouble;
use std::thread::Threads;

/// Returns what `board` prints.
pub fn answer<'a, R: AllocGlobal + Threads>(rt: &R) -> Result<WorkDone<'a>, Trouble>
    ensures text { MatchResult result (λ done. IsBoardText done.text.items)
        (λ trouble. trouble.failure ≡ out_of_memory) }
    ensures printed { IfOk result (λ done. IsBoard done.text.items) }
{
    Ok(WorkDone::printing(sweep_with_two_workers(rt)?.into_bytes()))
}

/// Returns what `board --steps` prints: the calls of one order, and then what `board` prints.
pub fn answer_with_steps<'a, R: AllocGlobal + Threads>(rt: &R) -> Result<WorkDone<'a>, Trouble>
    ensures text { IfOk result (λ done. IsBoardShown true done.text.items) }
    ensures failure { IfErr result (λ trouble. trouble.failure ≡ out_of_memory) }
    ensures printed { IfOk result (λ done. IsBoard done.text.items) }
{
    let report = sweep_with_two_workers(rt)?;
    let mut text = steps_of_two_workers(rt.alloc())?;
    text.push_str(report.as_str())?;
    Ok(WorkDone::printing(text.into_bytes()))
}
