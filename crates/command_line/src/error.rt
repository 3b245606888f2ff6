//! Why a command line asks for no run.
use std::alloc::AllocError;
use thiserror::Error;

/// Why a command line asks for no run.
#[derive(Debug, Drop, Error)]
pub enum Stop {
    /// The arguments ask for a text, such as `--help`.
    #[error("{0}")]
    Shown(String),
    /// The arguments have a fault, which the text tells.
    #[error("{0}")]
    Usage(String),
    #[error("out of memory")]
    Memory,
}

impl From<AllocError> for Stop {
    ghost use Rattle.std.specs.Prelude.{◌≡◌};
    ghost use Rattle.command_line.specs.declared.error.Stop.TheVariants.{Memory};

    ghost from_gives = { λ _ r. r ≡ Memory };

    fn from(_refused: AllocError) -> Stop {
        Stop::Memory
    }
}
