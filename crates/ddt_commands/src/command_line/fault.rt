//! Why words call no command.

use std::alloc::AllocError;
use thiserror::Error;

/// Why words call no command.
#[derive(Clone, Copy, Debug, PartialEq, Eq, Error)]
pub enum WordsFault {
    /// The words fit no command; a request for help is one of these.
    #[error("1 Bad")]
    Bad,
    #[error("2 Memory")]
    Memory,
}

impl From<AllocError> for WordsFault {
    ghost use Rattle.std.specs.Prelude.{◌≡◌};
    ghost use Rattle.ddt_commands.specs.declared.command_line.fault.WordsFault.TheVariants.{Memory};

    ghost from_gives = { λ e r. r ≡ Memory };

    fn from(_error: AllocError) -> Self {
        WordsFault::Memory
    }
}
