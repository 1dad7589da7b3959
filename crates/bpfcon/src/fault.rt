//! Why a script was not run to its end.

ghost use Rattle.std.specs.Prelude.{◌≡◌};
ghost use Rattle.bpfcon.specs.Faults.{fault_of_line, IsOfServing, IsOfRead, IsOfArgs};
ghost use Rattle.bpfcon.specs.declared.fault.Fault.TheVariants.{NoMemory};

use console_hint::Shown;
use console_input::{ArgsFault, Cause, ReadFault};
use kept_host::{InFileFault, LogInFileFault};
use std::alloc::{AllocError, Global};
use std::fmt;
use thiserror::Error;
use thread_host_run::{NoFrames, RunHostFault, why_none};
use thread_kept_frames::{LiveInFileFault, ServeFault};
use thread_live::LineFault;

// What is added if the name of an input is `-`, which many programs take for standard input.
#[derive(Clone, Copy)]
struct Dash<'a>(&'a str);

impl fmt::Display for Dash<'_> {
    fn fmt<W: fmt::Write>(&self, f: &mut fmt::Formatter<W>) -> fmt::Result {
        let Dash(name) = *self;
        if name == "-" {
            write!(
                f,
                "; - is the name of a file there: `bpfcon run -` alone reads standard input"
            )
        } else {
            Ok(())
        }
    }
}

/// What ends the program with status 2.
#[derive(Debug, Drop, Error)]
pub enum Fault {
    /// The arguments are none of the forms that `bpfcon help` prints.
    #[error("bpfcon: usage: `bpfcon help` lists the forms")]
    Usage,
    /// The arguments are a command.
    #[error("bpfcon: usage: commands are lines, and no arguments: type them in `bpfcon shell`, or write them into a script for `bpfcon run`; `bpfcon help` lists the forms")]
    Command,
    /// An argument of a line for a book is no word.
    #[error("bpfcon: usage: after -b FILE each argument is a word of the line, and so not empty and without a blank, # or line end")]
    NoWord,
    /// There is no such verb for a book.
    #[error("bpfcon: usage: after -b FILE comes a command, run SCRIPT, shell, host SCRIPT FRAMES or live SETUP FRAMES, which has no --workers and no --journal there")]
    NotOfBook,
    /// The environment names a book by what is no path.
    #[error("bpfcon: usage: BPFCON_BOOK is no path in UTF-8")]
    BadBook,
    /// The arguments, or an input that is named, can't be read.
    #[error("bpfcon: cannot read {}: {cause}{}", Shown(.name.as_bytes()), Dash(.name.as_str()))]
    Unread {
        name: String,
        cause: Cause,
    },
    /// A file has no frames.
    #[error("bpfcon: cannot read frames: {0}")]
    BadFrames(NoFrames),
    /// There is no memory before the first line of the script, or for the frames after its last.
    #[error("bpfcon: no memory")]
    NoMemory,
    /// A thread of a host run or of a live host could not be started.
    #[error("bpfcon: cannot start a thread")]
    NoThread,
    /// The console of a live host has no calls left.
    #[error("bpfcon: no calls left")]
    Spent,
    /// A file keeps no book, or what was done to its book is not kept.
    #[error("bpfcon: {}{fault}", Shown(.file.as_bytes()))]
    OfFile {
        file: String,
        fault: InFileFault,
    },
    /// Frames on the book of a file were not served, or what they changed is not kept, or not told.
    #[error("bpfcon: {}{fault}", Shown(.file.as_bytes()))]
    OfFrames {
        file: String,
        fault: ServeFault,
    },
    /// A live host on the book of a file did not come to its end.
    #[error("bpfcon: {}{fault}", Shown(.file.as_bytes()))]
    OfLive {
        file: String,
        fault: LiveInFileFault,
    },
    /// The log of a file is not told.
    #[error("bpfcon: {}{fault}", Shown(.file.as_bytes()))]
    OfLog {
        file: String,
        fault: LogInFileFault,
    },
    /// A write to standard output failed.
    #[error("bpfcon: cannot write")]
    CannotWrite,
}

impl Fault {
    /// The fault of a program that could not read the input of this name.
    pub fn of_read(alloc: Global, name: &str, fault: ReadFault) -> Fault
        ensures { IsOfRead name.now fault result }
    {
        match fault {
            ReadFault::NoMemory => Fault::NoMemory,
            ReadFault::Unread(cause) => match String::from_str(alloc, name) {
                Ok(name) => Fault::Unread { name, cause },
                Err(_) => Fault::NoMemory,
            },
        }
    }

    /// The fault of a program whose arguments ask for nothing that it does.
    pub fn of_args(alloc: Global, fault: ArgsFault) -> Fault
        ensures { IsOfArgs fault result }
    {
        match fault {
            ArgsFault::Usage => Fault::Usage,
            ArgsFault::Command => Fault::Command,
            ArgsFault::NoWord => Fault::NoWord,
            ArgsFault::NotOfBook => Fault::NotOfBook,
            ArgsFault::BadBook => Fault::BadBook,
            ArgsFault::Read(fault) => Fault::of_read(alloc, "the arguments", fault),
        }
    }

    /// The fault of a program that could not read or serve frames of these bytes.
    pub fn of_serving(alloc: Global, bytes: &[u8], fault: RunHostFault) -> Fault
        ensures { IsOfServing bytes.now fault result }
    {
        match fault {
            RunHostFault::BadFrames => Fault::BadFrames(why_none(alloc, bytes)),
            RunHostFault::NoThread => Fault::NoThread,
            RunHostFault::Write => Fault::CannotWrite,
            RunHostFault::NoMemory | RunHostFault::BadDevices | RunHostFault::BadLimits => {
                Fault::NoMemory
            }
        }
    }
}

impl From<AllocError> for Fault {
    ghost from_gives = { λ error fault. fault ≡ NoMemory };

    fn from(_error: AllocError) -> Fault {
        Fault::NoMemory
    }
}

impl From<LineFault> for Fault {
    ghost from_gives = { λ part fault. fault ≡ fault_of_line part };

    fn from(fault: LineFault) -> Fault {
        match fault {
            LineFault::Write => Fault::CannotWrite,
            LineFault::SeatSpent => Fault::Spent,
        }
    }
}
