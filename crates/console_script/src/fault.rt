//! Why a script was not run to its end on a new host.

ghost use Rattle.std.specs.Prelude.{◌≡◌};
ghost use Rattle.console_script.specs.Faults.{book_fault_of};

use journal_model::BookFault;
use thiserror::Error;

/// What keeps a script from being run to its end.
#[derive(Clone, Copy, PartialEq, Eq, Debug, Error)]
pub enum HostFault {
    /// There are not 1 to 16 devices of good and distinct names. Nothing was run.
    #[error("bad devices")]
    BadDevices,
    /// A journal of no moment, or of more than 1,000,000. Nothing was run.
    #[error("bad limits")]
    BadLimits,
    /// There is no memory before the first line. Nothing was run.
    #[error("no memory")]
    NoMemory,
    /// A write failed or took no byte. The line whose text was being written has been run, and no later one.
    #[error("cannot write")]
    Write,
}

impl From<BookFault> for HostFault {
    ghost from_gives = { λ fault told. told ≡ book_fault_of fault };

    fn from(fault: BookFault) -> HostFault {
        match fault {
            BookFault::BadDevices => HostFault::BadDevices,
            BookFault::BadLimits => HostFault::BadLimits,
            BookFault::NoMemory => HostFault::NoMemory,
        }
    }
}
