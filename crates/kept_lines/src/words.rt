//! What an operator is told of a file whose book was not begun, or not kept: what comes after the name of the file.

use crate::fault::{InFileFault, KeptFault, LinesFault};
use kept_file::{KeepFault, OpenFault, ReadFault};
use sqlite::{Error, ErrorCode};
use std::fmt;

/// Tells why what was done is not kept.
pub fn put_unkept<W: fmt::Write>(f: &mut fmt::Formatter<W>, error: Error) -> fmt::Result {
    f.write_str(": cannot keep: ")?;
    match error {
        Error::SqliteFailure(ErrorCode::DiskFull) => f.write_str("no space left"),
        Error::SqliteFailure(ErrorCode::OutOfMemory) => f.write_str("no memory"),
        error => write!(f, "{error}"),
    }
}

/// Tells why a file is not opened, or not read.
pub fn put_unread<W: fmt::Write>(f: &mut fmt::Formatter<W>, error: Error) -> fmt::Result {
    match error {
        Error::SqliteFailure(ErrorCode::DatabaseBusy) => f.write_str(" is in use"),
        Error::SqliteFailure(ErrorCode::NotADatabase | ErrorCode::DatabaseCorrupt) => {
            f.write_str(" is no book, or is damaged")
        }
        Error::SqliteFailure(ErrorCode::CannotOpen) => f.write_str(" cannot be opened"),
        Error::SqliteFailure(ErrorCode::OutOfMemory) => f.write_str(": no memory"),
        error => write!(f, ": cannot read: {error}"),
    }
}

/// Tells why the tables of a book are not read.
pub fn put_read<W: fmt::Write>(f: &mut fmt::Formatter<W>, fault: ReadFault) -> fmt::Result {
    match fault {
        ReadFault::Sql(error) => put_unread(f, error),
        ReadFault::DoesNotFit(place) => write!(f, ": event {place} does not fit"),
        ReadFault::NoBook => f.write_str(" is a database, but no book of bpfcon"),
        ReadFault::LaterFormat(format) => {
            write!(f, " was made by a later bpfcon (format {format})")
        }
        ReadFault::NoTerms => f.write_str(": its table book has not one row of a book"),
    }
}

// Why a book is not opened.
fn put_unopened<W: fmt::Write>(f: &mut fmt::Formatter<W>, fault: OpenFault) -> fmt::Result {
    match fault {
        OpenFault::Ledger(fault) => put_read(f, fault),
        OpenFault::DoesNotFit(place) => write!(f, ": event {place} does not fit"),
        OpenFault::NoMemory => f.write_str(": no memory"),
    }
}

// Why the lines of a script were not all run and kept.
fn put_lines<W: fmt::Write>(f: &mut fmt::Formatter<W>, fault: LinesFault) -> fmt::Result {
    match fault {
        LinesFault::CannotKeep(KeepFault::Sql(error)) => put_unkept(f, error),
        LinesFault::CannotKeep(KeepFault::Incomplete) => {
            f.write_str(": cannot keep: a line made more changes than the journal has room for")
        }
        LinesFault::CannotKeep(KeepFault::NoMemory) => f.write_str(": cannot keep: no memory"),
        LinesFault::Write => f.write_str(": cannot write the answers of what is kept"),
    }
}

// Why a script was not run to its end on a kept book.
fn put_kept<W: fmt::Write>(f: &mut fmt::Formatter<W>, fault: KeptFault) -> fmt::Result {
    match fault {
        KeptFault::Open(fault) => put_unopened(f, fault),
        KeptFault::Make(error) => put_unkept(f, error),
        KeptFault::Lines(fault) => put_lines(f, fault),
    }
}

impl fmt::Display for InFileFault {
    fn fmt<W: fmt::Write>(&self, f: &mut fmt::Formatter<W>) -> fmt::Result {
        match *self {
            InFileFault::Unopened(error) => put_unread(f, error),
            InFileFault::Kept(fault) => put_kept(f, fault),
        }
    }
}
