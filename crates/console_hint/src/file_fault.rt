//! Why a file that a line names is not at hand.

use crate::shown::Shown;
use std::{fmt, io};

/// Why a file is not at hand.
#[derive(Clone, Copy)]
pub enum FileFault {
    /// It cannot be opened or read.
    Failed(io::Error),
    /// It has more than 16,777,216 bytes.
    TooLong,
    /// With it, the files that are named would have more than 134,217,728 bytes.
    TooMuch,
    /// Its path is no UTF-8.
    NoText,
}

// Writes what the file of a path is, or has.
fn write_file<W: fmt::Write>(f: &mut fmt::Formatter<W>, path: Shown<'_>, is: &str) -> fmt::Result {
    write!(f, "{path} {is}")
}

// Writes why a file of this path is not opened or read.
fn write_failed<W: fmt::Write>(
    f: &mut fmt::Formatter<W>,
    path: Shown<'_>,
    error: io::Error,
) -> fmt::Result {
    match error.kind() {
        io::ErrorKind::NotFound => write!(f, "there is no file {path}"),
        io::ErrorKind::IsADirectory => write_file(f, path, "is a folder"),
        io::ErrorKind::PermissionDenied => write!(f, "there is no permission to read {path}"),
        _ => write!(f, "{path} cannot be read: {error}"),
    }
}

impl FileFault {
    /// Writes why the file of this path is not at hand.
    pub(crate) fn write_for<W: fmt::Write>(
        self,
        f: &mut fmt::Formatter<W>,
        path: &[u8],
    ) -> fmt::Result {
        let path = Shown(path);
        match self {
            FileFault::Failed(error) => write_failed(f, path, error),
            FileFault::TooLong => write_file(f, path, "has more than 16777216 bytes"),
            FileFault::TooMuch => write!(
                f,
                "with {path} the named files would have more than 134217728 bytes"
            ),
            FileFault::NoText => write_file(f, path, "is no path in UTF-8"),
        }
    }
}
