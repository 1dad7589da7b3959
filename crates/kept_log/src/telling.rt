//! The log of a ledger, read and written.

ghost use Rattle.std.specs.Prelude.{List};
ghost use Rattle.sqlite.specs.State.{HasCleanDisk, Survives};
ghost use Rattle.sqlite.specs.Held.{state};
ghost use Rattle.kept_ledger.specs.TermsView.{PlainTerms};
ghost use Rattle.kept_ledger.specs.Ledger.{Entry, IsLedgerOf};
ghost use Rattle.kept_log.specs.Telling.{TellsLog, WritesRead};

use crate::rows::read_log;
use crate::text::put_log;
use console_text::Output;
use kept_ledger::ReadFault;
use sqlite::{Alter, Connection};
use std::alloc::Global;

/// Why a log is not told.
#[derive(Clone, Copy, Debug, PartialEq, Eq)]
pub enum LogFault {
    /// The events are not read. Nothing was written.
    Unread(ReadFault),
    /// A write failed, or took no byte. A front of the log was written.
    Unwritten,
}

/// Writes the last so many events of a kept book, or all, one a line, in the order in which they were added: when, and what was
/// done. Only that many are read. 2^63 or more asks for all of them. The database is as it was.
///
/// # Errors
/// Unread as [`read_log`] says; else Unwritten.
pub fn tell_log<S: Alter, W: Output>(
    alloc: Global,
    conn: &mut Connection<S>,
    most: Option<u64>,
    out: &mut W,
) -> Result<(), LogFault>
    ensures told { HasCleanDisk (state S.Store conn.new) → (t : PlainTerms) (es : List Entry) → IsLedgerOf t es (state S.Store conn.old)
        → TellsLog t es most (state S.Store conn.new) (W.contents out.old) (W.contents out.new) result }
    ensures unread { WritesRead (W.contents out.old) (W.contents out.new) result }
    ensures crash { Survives (state S.Store conn.old) (state S.Store conn.new) (λ _. (t : PlainTerms) (es : List Entry) → IsLedgerOf t es (state S.Store conn.old) → ⊥) }
{
    let log = match read_log(alloc, conn, most) {
        Ok(log) => log,
        Err(fault) => return Err(LogFault::Unread(fault)),
    };
    match put_log(out, log.as_slice()) {
        Ok(()) => Ok(()),
        Err(_) => Err(LogFault::Unwritten),
    }
}
