//! Why lines on a kept book were not all run and kept.

use kept_file::{KeepFault, OpenFault};
use sqlite::Error;

/// Why the lines of a script were not all run and kept.
#[derive(Clone, Copy, PartialEq, Eq, Debug)]
pub enum LinesFault {
    /// What the last lines did is not kept: nothing that they answered was written, and the database has what it had before
    /// them. The book is ahead of it, and of no use any more.
    CannotKeep(KeepFault),
    /// What the lines did is kept, and a write of their answers failed or took no byte.
    Write,
}

impl From<KeepFault> for LinesFault {
    ghost use Rattle.std.specs.Prelude.{◌≡◌};
    ghost use Rattle.kept_lines.specs.declared.fault.LinesFault.TheVariants.{CannotKeep};

    ghost from_gives = { λ fault made. made ≡ CannotKeep fault };

    fn from(fault: KeepFault) -> LinesFault {
        LinesFault::CannotKeep(fault)
    }
}

/// Why a script was not run to its end on a kept book.
#[derive(Clone, Copy, Debug, PartialEq, Eq)]
pub enum KeptFault {
    /// The book is not opened, or not opened again after a refused range, or there is no memory for it. No line was run.
    Open(OpenFault),
    /// A new book is not kept. No line was run.
    Make(Error),
    /// The lines were not all run and kept.
    Lines(LinesFault),
}

/// Why a script was not run to its end on the book of a file.
#[derive(Clone, Copy, Debug, PartialEq, Eq)]
pub enum InFileFault {
    /// The file is not opened as a database. No line was run.
    Unopened(Error),
    /// The script was not run to its end on its book.
    Kept(KeptFault),
}
