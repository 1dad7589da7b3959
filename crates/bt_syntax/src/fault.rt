//! Why a line is no command.

ghost use Rattle.std.specs.Prelude.{◌≡◌};
ghost use Rattle.bt_syntax.specs.declared.fault.SyntaxFault.TheVariants.{NoMemory};

use std::alloc::AllocError;
use thiserror::Error;

/// What is wrong with a line.
#[derive(Clone, Copy, Debug, PartialEq, Eq, Error)]
pub enum SyntaxFault {
    /// The line has more than 131,072 bytes.
    #[error("line too long")]
    TooLong,
    /// No well-formed line begins with the first so many words, and some does with one fewer. It is the number of words
    /// plus 1 if the line ends too early.
    #[error("syntax at word {0}")]
    At(usize),
    /// There is no memory for the command.
    #[error("no memory")]
    NoMemory,
}

impl From<AllocError> for SyntaxFault {
    ghost from_gives = { λ _ e. e ≡ NoMemory };

    fn from(_error: AllocError) -> SyntaxFault {
        SyntaxFault::NoMemory
    }
}
