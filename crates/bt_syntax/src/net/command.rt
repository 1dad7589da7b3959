//! A command on devices.

use console_operand::Reference;
use host_words::Word;

/// A command on devices and the programs attached to them (bpftool-net(8)).
#[derive(PartialEq, Eq, Debug, Drop)]
pub enum NetCommand {
    /// Shows what is attached to a device; without one, to all devices.
    Show {
        device: Option<Word>,
    },
    /// Attaches a program to a device, in place of another one only if `overwrite` says so.
    Attach {
        prog: Reference,
        device: Word,
        overwrite: bool,
    },
    /// Detaches what is attached to a device.
    Detach {
        device: Word,
    },
}
