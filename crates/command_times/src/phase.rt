//! The phases of commands.
use std::fmt;

/// A phase of a command, as `--stats` names it.
#[derive(Clone, Copy, PartialEq, Eq)]
pub enum Phase {
    Read,
    /// Reading a file for the second time.
    ReadAgain,
    Check,
    /// Before the first region is filled: marks, plan and cells.
    Prepare,
    Fills,
    /// After the last region is filled, and before the first byte is written.
    CleanUp,
    Write,
    /// Writing the schedule.
    Schedule,
    ReadBefore,
    CheckBefore,
    ReadAfter,
    CheckAfter,
    Compare,
}

/// All phases, in the order in which `--stats` prints them.
pub(crate) const PHASES: [Phase; 13] = [
    Phase::Read,
    Phase::ReadAgain,
    Phase::Check,
    Phase::Prepare,
    Phase::Fills,
    Phase::CleanUp,
    Phase::Write,
    Phase::Schedule,
    Phase::ReadBefore,
    Phase::CheckBefore,
    Phase::ReadAfter,
    Phase::CheckAfter,
    Phase::Compare,
];

impl fmt::Display for Phase {
    ghost use Rattle.std.specs.Prelude.{Some};
    ghost use Rattle.command_times.specs.Transfer.{phase_text};

    ghost output = { λ phase. Some (phase_text phase) };

    fn fmt<W: fmt::Write>(&self, f: &mut fmt::Formatter<W>) -> fmt::Result {
        f.write_str(match self {
            Phase::Read => "read",
            Phase::ReadAgain => "read again",
            Phase::Check => "check",
            Phase::Prepare => "prepare",
            Phase::Fills => "fills",
            Phase::CleanUp => "clean-up",
            Phase::Write => "write",
            Phase::Schedule => "schedule",
            Phase::ReadBefore => "read BEFORE",
            Phase::CheckBefore => "check BEFORE",
            Phase::ReadAfter => "read AFTER",
            Phase::CheckAfter => "check AFTER",
            Phase::Compare => "compare",
        })
    }
}
