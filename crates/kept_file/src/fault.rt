//! Why a kept book is not opened, and why events are not kept.

ghost use Rattle.std.specs.Prelude.{◌≡◌};
ghost use Rattle.kept_file.specs.Faults.{stop_fault};

use kept_book::{Misfit, Stop};
use kept_ledger::ReadFault;
use sqlite::Error;
use std::alloc::AllocError;

/// Why a kept book is not opened.
#[derive(Clone, Copy, Debug, PartialEq, Eq)]
pub enum OpenFault {
    /// The tables are not read: the database has none, its book is of a later format, a row is no terms or no event, or SQLite
    /// stopped.
    Ledger(ReadFault),
    /// The event of this place, from 1, is not done again: the book refuses it, or answers otherwise than it did.
    DoesNotFit(u64),
    NoMemory,
}

/// Why a list of events is not done again any further.
pub(crate) fn stop_fault(stop: Stop) -> OpenFault
    ensures { result ≡ stop_fault stop }
{
    match stop.why {
        Misfit::DoesNotFit => OpenFault::DoesNotFit(stop.place),
        Misfit::NoMemory => OpenFault::NoMemory,
    }
}

/// Why events are not kept.
#[derive(Clone, Copy, Debug, PartialEq, Eq)]
pub enum KeepFault {
    /// What SQLite says, as that the disk is full, or lack of memory.
    Sql(Error),
    /// Fewer changes are in force than serials were given since: one of them has joined the base, was taken out or undone
    /// meanwhile, and so they do not lead to the book as it is.
    Incomplete,
    NoMemory,
}

impl From<AllocError> for KeepFault {
    ghost use Rattle.std.specs.Prelude.{◌≡◌};
    ghost use Rattle.kept_file.specs.declared.fault.KeepFault.TheVariants.{NoMemory};

    ghost from_gives = { λ _ made. made ≡ NoMemory };

    fn from(_refused: AllocError) -> KeepFault {
        KeepFault::NoMemory
    }
}
