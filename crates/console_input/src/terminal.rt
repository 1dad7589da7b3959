//! Whether somebody types the lines of standard input.

use std::io::IsTerminal;

/// Where it is known whether somebody types the lines of standard input. The runtime knows it.
pub trait Terminal {
    /// Whether standard input is a terminal, by isatty(3).
    fn is_typed(&self) -> bool;
}

impl Terminal for HostRuntime {
    fn is_typed(&self) -> bool {
        self.stdin().is_terminal()
    }
}
