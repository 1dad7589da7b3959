//! Why a kept book is not read.

ghost use Rattle.std.specs.Prelude.{◌≡◌};
ghost use Rattle.kept_ledger.specs.Faults.{query_fault};

use sqlite::{Error, ErrorCode};
use std::alloc::AllocError;

/// Why the tables of a kept book are not read.
#[derive(Clone, Copy, Debug, PartialEq, Eq)]
pub enum ReadFault {
    /// What SQLite says, or lack of memory.
    Sql(Error),
    /// The row of this number, from 1, is the row of no event, or it does not stand under that number.
    DoesNotFit(u64),
    /// The database has not the tables of a kept book.
    NoBook,
    /// The book was made in this format, which is later than the one that is read here.
    LaterFormat(u64),
    /// The table `book` has not one row, or its row tells no terms of a book.
    NoTerms,
}

/// Why a table is not read: NoBook if SQLite does not understand the question, since it names a table that is not there, else what
/// SQLite says.
pub fn query_fault(error: Error) -> ReadFault
    ensures { result ≡ query_fault error }
{
    match error {
        Error::SqlInputError(_) => ReadFault::NoBook,
        error => ReadFault::Sql(error),
    }
}

impl From<Error> for ReadFault {
    ghost use Rattle.std.specs.Prelude.{◌≡◌};
    ghost use Rattle.kept_ledger.specs.declared.fault.ReadFault.TheVariants.{Sql};

    ghost from_gives = { λ error made. made ≡ Sql error };

    fn from(error: Error) -> ReadFault {
        ReadFault::Sql(error)
    }
}

impl From<AllocError> for ReadFault {
    ghost use Rattle.std.specs.Prelude.{◌≡◌};
    ghost use Rattle.sqlite.specs.declared.error.ErrorCode.TheVariants.{OutOfMemory};
    ghost use Rattle.sqlite.specs.declared.error.Error.TheVariants.{SqliteFailure};
    ghost use Rattle.kept_ledger.specs.declared.fault.ReadFault.TheVariants.{Sql};

    ghost from_gives = { λ _ made. made ≡ Sql (SqliteFailure OutOfMemory) };

    fn from(_refused: AllocError) -> ReadFault {
        ReadFault::Sql(Error::SqliteFailure(ErrorCode::OutOfMemory))
    }
}
