//! A command on programs.

use console_operand::{Object, Reference};
use host_words::Word;

/// A command on programs (bpftool-prog(8)).
#[derive(PartialEq, Eq, Debug, Drop)]
pub enum ProgCommand {
    /// Shows a program; without one, all programs.
    Show { prog: Option<Reference> },
    /// Asks for the instructions of a program, as they were loaded.
    Dump { prog: Reference },
    /// Pins a program at one more path.
    Pin { prog: Reference, path: Word },
    /// Loads a program and pins it at a path.
    Load { object: Object, path: Word },
}
