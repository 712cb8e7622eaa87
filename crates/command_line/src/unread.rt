//! Command lines that give no request.
ghost use Rattle.std.specs.Prelude.{◌≡◌};
ghost use Rattle.command_line.specs.declared.unread.Unread.TheVariants.{Memory};

use std::alloc::AllocError;

/// Why words give no request.
#[derive(Drop)]
pub enum Unread {
    /// They are no command. The text, in whole lines, says why.
    Usage(String),
    /// They name no command, or a required argument is missing. `clap` reports both earlier, as [`Unread::Usage`].
    NoCommand,
    /// An allocation was refused.
    Memory,
}

impl From<AllocError> for Unread {
    ghost from_gives = { λ _ unread. unread ≡ Memory };

    fn from(_refused: AllocError) -> Unread {
        Unread::Memory
    }
}
