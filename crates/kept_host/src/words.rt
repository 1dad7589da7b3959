//! What an operator is told of a file whose log is not told: what comes after the name of the file.

use crate::fault::LogInFileFault;
use kept_lines::{put_read, put_unread};
use kept_log::LogFault;
use std::fmt;

impl fmt::Display for LogInFileFault {
    fn fmt<W: fmt::Write>(&self, f: &mut fmt::Formatter<W>) -> fmt::Result {
        match *self {
            LogInFileFault::Unopened(error) => put_unread(f, error),
            LogInFileFault::Log(LogFault::Unread(fault)) => put_read(f, fault),
            LogInFileFault::Log(LogFault::Unwritten) => f.write_str(": cannot write its log"),
        }
    }
}
