//! What an operator is told of frames that are not served or not kept, and of a live host that stopped: what comes after the name of
//! the file.

use crate::fault::ServeFault;
use crate::live::fault::{LiveFault, LiveHostFault, LiveInFileFault};
use console_input::ReadFault;
use kept_file::KeepFault;
use kept_host::Broken;
use kept_lines::{InFileFault, KeptFault, LinesFault, put_unkept, put_unread};
use std::fmt;

// Why what the frames changed is not kept, or their ends are not told.
fn put_untold<W: fmt::Write>(f: &mut fmt::Formatter<W>, fault: LinesFault) -> fmt::Result {
    match fault {
        LinesFault::CannotKeep(KeepFault::Sql(error)) => put_unkept(f, error),
        LinesFault::CannotKeep(KeepFault::Incomplete) => f.write_str(
            ": cannot keep: the frames made more changes than the journal has room for",
        ),
        LinesFault::CannotKeep(KeepFault::NoMemory) => f.write_str(": cannot keep: no memory"),
        LinesFault::Write => f.write_str(": cannot write how the frames ended, which is kept"),
    }
}

impl fmt::Display for ServeFault {
    fn fmt<W: fmt::Write>(&self, f: &mut fmt::Formatter<W>) -> fmt::Result {
        match *self {
            ServeFault::BadFrames => f.write_str(": no frames that can be served"),
            ServeFault::NoMemory => f.write_str(": no memory to serve the frames"),
            ServeFault::NoThread => f.write_str(": cannot start a thread"),
            ServeFault::Lines(fault) => put_untold(f, fault),
        }
    }
}

// Why a setup, or a line, was not run to its end on a kept book.
fn put_kept<W: fmt::Write>(f: &mut fmt::Formatter<W>, fault: KeptFault) -> fmt::Result {
    let fault = InFileFault::Kept(fault);
    write!(f, "{fault}")
}

// Why a line of a live host was not answered.
fn put_broken<W: fmt::Write>(f: &mut fmt::Formatter<W>, fault: Broken) -> fmt::Result {
    match fault {
        Broken::Lines(fault) => put_kept(f, KeptFault::Lines(fault)),
        Broken::Open(fault) => put_kept(f, KeptFault::Open(fault)),
        Broken::Unread(ReadFault::NoMemory) => f.write_str(": no memory"),
        Broken::Unread(ReadFault::Unread(cause)) => {
            write!(f, ": cannot read the next line: {cause}")
        }
    }
}

impl fmt::Display for LiveInFileFault {
    fn fmt<W: fmt::Write>(&self, f: &mut fmt::Formatter<W>) -> fmt::Result {
        match *self {
            LiveInFileFault::Unopened(error) => put_unread(f, error),
            LiveInFileFault::Kept(LiveHostFault::Script(fault)) => put_kept(f, fault),
            LiveInFileFault::Kept(LiveHostFault::Live(LiveFault::Line(fault))) => {
                put_broken(f, fault)
            }
            LiveInFileFault::Kept(LiveHostFault::Live(LiveFault::Frames(fault))) => {
                write!(f, "{fault}")
            }
        }
    }
}
