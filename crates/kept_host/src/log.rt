//! The log of a kept book, told on a connection to its database.

ghost use Rattle.std.specs.Prelude.{◌≡◌};
ghost use Rattle.sqlite.specs.Held.{state};
ghost use Rattle.kept_host.specs.Logs.{LogsKept};

use console_text::Output;
use kept_lines::is_blank;
use kept_log::{LogFault, tell_log};
use sqlite::{Alter, Connection};
use std::alloc::Global;

/// Writes what was done to the book that a database keeps, event by event, as [`tell_log`] does: the last so many events, or all. Of
/// a database that has no table nothing is written.
///
/// # Errors
/// Those of [`tell_log`].
pub fn log_kept<D: Alter, W: Output>(
    alloc: Global,
    conn: &mut Connection<D>,
    most: Option<u64>,
    out: &mut W,
) -> Result<(), LogFault>
    ensures { LogsKept most (state D.Store conn.old) (state D.Store conn.new) (W.contents out.old) (W.contents out.new) result }
{
    if is_blank(conn) {
        return Ok(());
    }
    tell_log(alloc, conn, most, out)
}
